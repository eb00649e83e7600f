//! What is known of a field before its value is read.
ghost use Rattle.std.specs.Prelude.{◌≡◌, IfOk, None, Some};

use crate::key::FieldLocationHint;
use crate::scalar::ScalarValue;
use shape_types::{OutOfMemory, Text};
use std::alloc::Global;

/// What kind of value stands there.
#[derive(Debug, Clone, Copy, PartialEq, Eq)]
pub enum ValueTypeHint {
    /// No value.
    Null,
    /// A truth value.
    Bool,
    /// A number.
    Number,
    /// A text or a character.
    String,
    /// Bytes.
    Bytes,
    /// A list.
    Sequence,
    /// A struct or a map.
    Map,
}

/// A field that was seen, with what its value looks like.
#[derive(Debug, PartialEq, Eq, Drop)]
pub struct FieldEvidence<'de> {
    /// The name of its key.
    pub name: Text<'de>,
    /// Where its value stands.
    pub location: FieldLocationHint,
    /// What kind of value it has.
    pub value_type: Option<ValueTypeHint>,
    /// Its value, where that is one scalar.
    pub scalar_value: Option<ScalarValue<'de>>,
}

impl<'de> FieldEvidence<'de> {
    /// A field whose value is no scalar.
    pub fn new(
        name: Text<'de>,
        location: FieldLocationHint,
        value_type: Option<ValueTypeHint>,
    ) -> FieldEvidence<'de>
        ensures { result ≡ record { name = name.entry; location = location; value_type = value_type; scalar_value = None } }
    {
        FieldEvidence {
            name,
            location,
            value_type,
            scalar_value: None,
        }
    }

    /// A field whose value is a scalar.
    pub fn with_scalar_value(
        name: Text<'de>,
        location: FieldLocationHint,
        value_type: Option<ValueTypeHint>,
        scalar_value: ScalarValue<'de>,
    ) -> FieldEvidence<'de>
        ensures { result ≡ record { name = name.entry; location = location; value_type = value_type; scalar_value = Some scalar_value.entry } }
    {
        FieldEvidence {
            name,
            location,
            value_type,
            scalar_value: Some(scalar_value),
        }
    }

    /// The same evidence again. It is refused for want of memory alone.
    pub fn try_clone(&self, alloc: Global) -> Result<FieldEvidence<'de>, OutOfMemory>
        ensures { IfOk result (λ copy. copy ≡ self.now) }
    {
        let name = match self.name.try_clone(alloc) {
            Ok(name) => name,
            Err(refused) => return Err(refused),
        };
        match clone_scalar(alloc, &self.scalar_value) {
            Ok(scalar_value) => Ok(FieldEvidence {
                name,
                location: self.location,
                value_type: self.value_type,
                scalar_value,
            }),
            Err(refused) => {
                drop(name);
                Err(refused)
            }
        }
    }
}

fn clone_scalar<'de>(
    alloc: Global,
    scalar: &Option<ScalarValue<'de>>,
) -> Result<Option<ScalarValue<'de>>, OutOfMemory>
    ensures { IfOk result (λ copy. copy ≡ scalar.now) }
{
    match scalar {
        None => Ok(None),
        Some(scalar) => match scalar.try_clone(alloc) {
            Ok(scalar) => Ok(Some(scalar)),
            Err(refused) => Err(refused),
        },
    }
}
