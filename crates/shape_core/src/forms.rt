//! What the values of a shape are made of, looked up through transparent shapes.
ghost use Rattle.std.specs.Prelude.{◌≡◌, option_map};
ghost use Rattle.std.specs.Option.{option_copied};
ghost use Rattle.semantics_lines.specs.Shapes.{definition_at};
ghost use Rattle.semantics.specs.Typed.{base, scalar_at, option_at, ok_at, err_at, item_at, length_at, struct_at};
ghost use Rattle.shape_core.specs.Base.{transparent_of};
ghost use Rattle.shape_types.specs.Scalars.{scalar_type_of};
ghost use Rattle.shape_types.specs.Shapes.{struct_shape_of, definition_of, registry};

use crate::shapes::Shapes;
use shape_types::{Def, ScalarType, ShapeId, StructDef};

fn transparent_of(def: &Def) -> Option<ShapeId>
    ensures { option_map (λ id. id.0) result ≡ transparent_of (definition_of def.now) }
{
    match def {
        Def::Transparent(inner) => Some(*inner),
        _ => None,
    }
}

impl<'v> Shapes<'v> {
    /// What the shape is made of. None where there is no such shape.
    pub fn definition_at(&self, id: ShapeId) -> Option<&Def<'v>>
        ensures { option_map definition_of (option_copied result) ≡ definition_at (registry self.now) id.0 }
    {
        match self.get(id) {
            Some(shape) => Some(&shape.def),
            None => None,
        }
    }

    /// What the values of the shape are made of: the definition behind transparent shapes.
    ///
    /// None where there is no such shape, or only transparent ones in a circle.
    pub fn base(&self, id: ShapeId) -> Option<&Def<'v>>
        ensures { option_map definition_of (option_copied result) ≡ base (registry self.now) id.0 }
    {
        let mut at = id;
        for _step in 0..self.as_slice().len() {
            let Some(def) = self.definition_at(at) else {
                return None;
            };
            match transparent_of(def) {
                Some(inner) => at = inner,
                None => return Some(def),
            }
        }
        None
    }

    /// The scalar that the values of the shape are of, where they are of one.
    pub fn scalar_at(&self, id: ShapeId) -> Option<ScalarType>
        ensures { option_map scalar_type_of result ≡ scalar_at (registry self.now) id.0 }
    {
        match self.base(id) {
            Some(Def::Scalar(scalar)) => Some(*scalar),
            _ => None,
        }
    }

    /// The shape of what an option holds, where the shape is of options.
    pub fn option_at(&self, id: ShapeId) -> Option<ShapeId>
        ensures { option_map (λ inner. inner.0) result ≡ option_at (registry self.now) id.0 }
    {
        match self.base(id) {
            Some(Def::Option(inner)) => Some(*inner),
            _ => None,
        }
    }

    /// The shape of what a result holds that went well, where the shape is of results.
    pub fn ok_at(&self, id: ShapeId) -> Option<ShapeId>
        ensures { option_map (λ inner. inner.0) result ≡ ok_at (registry self.now) id.0 }
    {
        match self.base(id) {
            Some(Def::Result { ok, .. }) => Some(*ok),
            _ => None,
        }
    }

    /// The shape of the error that a result holds, where the shape is of results.
    pub fn err_at(&self, id: ShapeId) -> Option<ShapeId>
        ensures { option_map (λ inner. inner.0) result ≡ err_at (registry self.now) id.0 }
    {
        match self.base(id) {
            Some(Def::Result { err, .. }) => Some(*err),
            _ => None,
        }
    }

    /// The shape of the items, where the shape is of lists or arrays.
    pub fn item_at(&self, id: ShapeId) -> Option<ShapeId>
        ensures { option_map (λ item. item.0) result ≡ item_at (registry self.now) id.0 }
    {
        match self.base(id) {
            Some(Def::List(item)) => Some(*item),
            Some(Def::Array { item, .. }) => Some(*item),
            _ => None,
        }
    }

    /// How many items there have to be, where the shape is of arrays.
    pub fn length_at(&self, id: ShapeId) -> Option<u32>
        ensures { result ≡ length_at (registry self.now) id.0 }
    {
        match self.base(id) {
            Some(Def::Array { len, .. }) => Some(*len),
            _ => None,
        }
    }

    /// What a struct is made of, where the shape is of structs.
    pub fn struct_at(&self, id: ShapeId) -> Option<&StructDef<'v>>
        ensures { option_map struct_shape_of (option_copied result) ≡ struct_at (registry self.now) id.0 }
    {
        match self.base(id) {
            Some(Def::Struct(def)) => Some(def),
            _ => None,
        }
    }
}
