//! Why a tape can't be recoded.

use event_core::{DeserializeError, SerializeError, Span};
use std::fmt;
use tape_text::NoFault;

/// Why a tape can't be recoded. `'e` is how long its texts are borrowed.
#[derive(Debug, Drop)]
pub enum RecodeError<'e> {
    /// The value can't be read, or a line behind it is no event's.
    Deserialize(DeserializeError<'e>),
    /// An event stands behind the value.
    Trailing {
        /// What it is, in a word or two.
        kind: &'e str,
        /// Where it stands.
        span: Span,
    },
    /// The value has no written form.
    Serialize(SerializeError<NoFault>),
    /// Memory ran out.
    Alloc,
}

impl fmt::Display for RecodeError<'_> {
    ghost use Rattle.recode_top.specs.RecodeTexts.{recode_error_text};

    ghost output = { recode_error_text };

    fn fmt<W: fmt::Write>(&self, f: &mut fmt::Formatter<W>) -> fmt::Result {
        match self {
            RecodeError::Deserialize(error) => match error.span() {
                Some(span) => write!(f, "{error} {span}"),
                None => write!(f, "{error}"),
            },
            RecodeError::Trailing { kind, span } => write!(f, "trailing event: {kind} {span}"),
            RecodeError::Serialize(error) => write!(f, "{error}"),
            RecodeError::Alloc => write!(f, "out of memory"),
        }
    }
}

impl std::error::Error for RecodeError<'_> {}
