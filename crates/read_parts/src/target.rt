//! What a scalar is set into, and how that is refused.
ghost use Rattle.std.specs.Prelude.{◌≡◌, [], IfOk, IfSome};
ghost use Rattle.semantics_lines.specs.Faults.{reflect, wrong_kind, parse_failed, number_out_of_range, cannot_borrow};
ghost use Rattle.semantics.specs.Setters.{type_name, not_lent};
ghost use Rattle.read_parts.specs.Answers.{IsWantOfMemory, Refuses};
ghost use Rattle.read_parts.specs.Targets.{target_type, target_shape, target_event};

use event_core::{DeserializeErrorKind, ReflectErrorKind};
use shape_core::{Name, OutOfMemory, ScalarType, ShapeId, ShapeName, Text};
use std::alloc::Global;
use std::fmt::Display;

/// A shape of scalars whose value is set from an event.
#[derive(Clone, Copy)]
pub(crate) struct Target<'t> {
    pub(crate) alloc: Global,
    /// The shape, by its number and its name.
    pub(crate) shape: ShapeId,
    pub(crate) name: &'t str,
    /// The scalar type behind transparent shapes.
    pub(crate) scalar: ScalarType,
    /// What the event is, in a word.
    pub(crate) event: &'static str,
}

/// Want of memory.
pub(crate) fn out_of_memory<'e>() -> DeserializeErrorKind<'e>
    ensures { IsWantOfMemory result }
{
    DeserializeErrorKind::Alloc {
        operation: "scalar",
    }
}

impl<'t> Target<'t> {
    fn shape_name(self) -> Result<ShapeName, OutOfMemory>
        ensures { IfOk result (λ shape. shape ≡ record { id = self.entry.shape; name = self.entry.name.now }) }
    {
        let name = Name::copy(self.alloc, self.name)?;
        Ok(ShapeName {
            id: self.shape,
            name,
        })
    }

    /// The type takes no such event.
    pub(crate) fn wrong_kind<'e>(self) -> DeserializeErrorKind<'e>
        ensures { Refuses (target_event self.entry) (reflect (wrong_kind (target_shape self.entry)) []) result }
    {
        match self.shape_name() {
            Ok(shape) => DeserializeErrorKind::Reflect {
                kind: ReflectErrorKind::WrongKind {
                    shape,
                    got: self.event,
                },
                context: "",
            },
            Err(_) => out_of_memory(),
        }
    }

    /// The text is none of the type's values.
    pub(crate) fn parse_failed<'e>(self, text: &str) -> DeserializeErrorKind<'e>
        ensures { Refuses (target_event self.entry) (reflect (parse_failed (target_shape self.entry) text.now) []) result }
    {
        let Ok(shape) = self.shape_name() else {
            return out_of_memory();
        };
        match Name::copy(self.alloc, text) {
            Ok(text) => DeserializeErrorKind::Reflect {
                kind: ReflectErrorKind::ParseFailed { shape, text },
                context: "",
            },
            Err(_) => out_of_memory(),
        }
    }

    /// The number isn't in the range of the type.
    pub(crate) fn out_of_range<'e, T: Display>(self, number: &T) -> DeserializeErrorKind<'e>
        ensures { IfSome (T.output number.now) (λ text. Refuses (target_event self.entry) (number_out_of_range text (type_name (target_type self.entry))) result) }
    {
        match number.to_string(self.alloc) {
            Ok(text) => DeserializeErrorKind::NumberOutOfRange {
                value: Text::Owned(Name::from_string(text)),
                target_type: self.scalar.name(),
            },
            Err(_) => out_of_memory(),
        }
    }

    /// A text that isn't borrowed, or may not be.
    pub(crate) fn cannot_borrow<'e>(self) -> DeserializeErrorKind<'e>
        ensures { Refuses (target_event self.entry) (cannot_borrow not_lent) result }
    {
        DeserializeErrorKind::CannotBorrow {
            reason: Text::Borrowed("text is not borrowed from the input"),
        }
    }
}
