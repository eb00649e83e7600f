//! What the writer asks of shapes and fields.
ghost use Rattle.std.specs.Prelude.{◌≡◌, None, cond, option_map};
ghost use Rattle.semantics_lines.specs.Shapes.{is_tuple};
ghost use Rattle.semantics.specs.Typed.{has_length, item_at, length_at};
ghost use Rattle.shape_types.specs.Shapes.{registry, struct_kind_of};

use shape_core::{ShapeId, Shapes, StructKind};

/// Whether the values of a struct of this kind are written as a list.
pub(crate) fn is_tuple(kind: StructKind) -> bool
    ensures { result ≡ is_tuple (struct_kind_of kind) }
{
    matches!(kind, StructKind::Tuple | StructKind::TupleStruct)
}

/// Whether there are so many items, where that is said.
fn has_length(length: Option<u32>, count: usize) -> bool
    ensures { result ≡ has_length length count }
{
    match length {
        Some(length) => length as usize == count,
        None => true,
    }
}

/// The shape of the items of a list or an array of the shape that has so many items, if there is such a one.
pub(crate) fn item_for(shapes: &Shapes, id: ShapeId, count: usize) -> Option<ShapeId>
    ensures { option_map (λ item. item.0) result ≡ cond (has_length (length_at (registry shapes.now) id.0) count) (item_at (registry shapes.now) id.0) None }
{
    if has_length(shapes.length_at(id), count) {
        shapes.item_at(id)
    } else {
        None
    }
}
