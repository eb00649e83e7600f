//! The value that a shape has by itself.
ghost use Rattle.std.specs.Prelude.{◌≡◌, ◌<◌, None, length, option_map, IfOk};
ghost use Rattle.semantics.specs.Defaults.{declared_default, default_of, default_at};
ghost use Rattle.shape_types.specs.Shapes.{definition_of, registry};
ghost use Rattle.shape_types.specs.Trees.{tree_of};

use crate::shapes::Shapes;
use shape_types::{Def, Items, OutOfMemory, ShapeId, Value};
use std::alloc::Global;

impl Shapes<'_> {
    /// The value that the shape has by itself: false, 0 and the like of a scalar, an option that holds nothing, an
    /// empty list, set or map, and what a struct declares. None for a result, an array, an enum, and a struct that
    /// declares nothing. A transparent shape has what its inner one has.
    pub fn default_of<'de>(
        &self,
        alloc: Global,
        id: ShapeId,
    ) -> Result<Option<Value<'de>>, OutOfMemory>
        requires { id.0 < length (registry self.now) }
        ensures { IfOk result (λ value. option_map tree_of value ≡ default_at (registry self.now) id.0) }
    {
        self.rules();
        match self.base(id) {
            Some(def) => default_of(alloc, def),
            None => Ok(None),
        }
    }
}

/// The default of what isn't transparent. No struct of a checked registry declares one yet.
fn default_of<'de>(alloc: Global, def: &Def) -> Result<Option<Value<'de>>, OutOfMemory>
    requires { declared_default (definition_of def.now) ≡ None }
    ensures { IfOk result (λ value. option_map tree_of value ≡ default_of (definition_of def.now)) }
{
    match def {
        Def::Scalar(scalar) => Ok(Some(scalar.default_value(alloc)?)),
        Def::Option(_) => Ok(Some(Value::None)),
        Def::List(_) | Def::Set(_) => Ok(Some(Value::List(Items::new(alloc)))),
        Def::Map { .. } => Ok(Some(Value::Map(Items::new(alloc)))),
        Def::Struct(_) => Ok(None),
        Def::Result { .. } | Def::Array { .. } | Def::Enum(_) | Def::Transparent(_) => Ok(None),
    }
}
