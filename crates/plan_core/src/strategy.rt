//! How the values of a shape are read.
ghost use Rattle.std.specs.Prelude.{◌≡◌};
ghost use Rattle.std.specs.List.{list_any};
ghost use Rattle.semantics_lines.specs.Shapes.{definition_at};
ghost use Rattle.shape_types.specs.Shapes.{definition_of, field_of, registry, struct_shape_of};
ghost use Rattle.plan_core.specs.Strategies.{is_byte, strategy_in, strategy_view, struct_strategy};

use shape_core::{Def, Field, ScalarType, ShapeId, Shapes, StructDef, StructKind};

/// How the values of a shape are read.
#[derive(Debug, Clone, Copy, PartialEq, Eq)]
pub enum DeserStrategy {
    /// By one scalar.
    Scalar(ScalarType),
    /// By the entries of its fields.
    Struct,
    /// By the entries of its fields, and those of what is flattened into it.
    StructWithFlatten,
    /// By items, one for each field.
    Tuple {
        /// How many there are.
        field_count: usize,
    },
    /// By a variant and its content.
    Enum,
    /// As nothing, or as the value that it holds.
    Option,
    /// As one of two values.
    Result,
    /// By items.
    List {
        /// Whether the items are of the scalar `u8`, so that bytes may stand for them.
        is_byte_vec: bool,
    },
    /// By just so many items.
    Array {
        /// How many there are.
        len: usize,
    },
    /// By distinct items.
    Set,
    /// By keys and their values.
    Map,
    /// As the inner shape.
    TransparentConvert,
    /// As the one value of a container, with what is told of it.
    MetadataContainer,
}

/// How the values of this definition are read.
pub(crate) fn strategy_of(shapes: &Shapes, def: &Def) -> DeserStrategy
    ensures { strategy_view result ≡ strategy_in (registry shapes.now) (definition_of def.now) }
{
    match def {
        Def::Scalar(scalar) => DeserStrategy::Scalar(*scalar),
        Def::Option(_) => DeserStrategy::Option,
        Def::Result { ok: _, err: _ } => DeserStrategy::Result,
        Def::List(item) => DeserStrategy::List {
            is_byte_vec: is_byte(shapes, *item),
        },
        Def::Array { item: _, len } => DeserStrategy::Array { len: *len as usize },
        Def::Set(_) => DeserStrategy::Set,
        Def::Map { key: _, value: _ } => DeserStrategy::Map,
        Def::Struct(def) => struct_strategy(def),
        Def::Enum(_) => DeserStrategy::Enum,
        Def::Transparent(_) => DeserStrategy::TransparentConvert,
    }
}

#[tactic(auto, using(shape_core::proofs::Lists::list_any_map))]
fn struct_strategy(def: &StructDef) -> DeserStrategy
    ensures { strategy_view result ≡ struct_strategy (struct_shape_of def.now) }
{
    if def.container {
        return DeserStrategy::MetadataContainer;
    }
    match def.kind {
        StructKind::Tuple | StructKind::TupleStruct => DeserStrategy::Tuple {
            field_count: def.fields.len(),
        },
        StructKind::Unit | StructKind::Struct => {
            if flattens(def.fields.as_slice()) {
                DeserStrategy::StructWithFlatten
            } else {
                DeserStrategy::Struct
            }
        }
    }
}

fn flattens(fields: &[Field]) -> bool
    ensures { result ≡ list_any (λ f. (field_of f).flattened) fields.now }
{
    fields.iter().any(|field| field.flatten)
}

/// Whether the shape is the scalar `u8`.
fn is_byte(shapes: &Shapes, id: ShapeId) -> bool
    ensures { result ≡ is_byte (definition_at (registry shapes.now) id.0) }
{
    match shapes.get(id) {
        Some(shape) => matches!(shape.def, Def::Scalar(ScalarType::U8)),
        None => false,
    }
}
