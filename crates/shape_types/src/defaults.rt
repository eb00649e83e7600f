//! The value that a scalar has by itself.
ghost use Rattle.std.specs.Prelude.{◌≡◌, IfOk};
ghost use Rattle.semantics_lines.specs.Scalars.{scalar_default};
ghost use Rattle.shape_types.specs.Scalars.{scalar_type_of};
ghost use Rattle.shape_types.specs.Trees.{tree_of};

use crate::memory::OutOfMemory;
use crate::name::Name;
use crate::scalar::ScalarType;
use crate::text::Text;
use crate::value::Value;
use std::alloc::Global;

impl ScalarType {
    /// What the scalar has where nothing is told: unit, false, the character of number 0, 0, or the empty text.
    pub fn default_value<'de>(self, alloc: Global) -> Result<Value<'de>, OutOfMemory>
        ensures { IfOk result (λ value. tree_of value ≡ scalar_default (scalar_type_of self)) }
    {
        match self {
            ScalarType::Unit => Ok(Value::Unit),
            ScalarType::Bool => Ok(Value::Bool(false)),
            ScalarType::Char => Ok(Value::Char('\0')),
            ScalarType::U8
            | ScalarType::U16
            | ScalarType::U32
            | ScalarType::U64
            | ScalarType::U128
            | ScalarType::USize => Ok(Value::Unsigned(0)),
            ScalarType::I8
            | ScalarType::I16
            | ScalarType::I32
            | ScalarType::I64
            | ScalarType::I128
            | ScalarType::ISize => Ok(Value::Signed(0)),
            ScalarType::String | ScalarType::Str => {
                Ok(Value::Text(Text::Owned(Name::copy(alloc, "")?)))
            }
        }
    }
}
