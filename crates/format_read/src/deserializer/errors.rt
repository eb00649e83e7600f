//! Errors as they are answered. Want of memory has neither a span nor a path.
ghost use Rattle.std.specs.Prelude.{◌≡◌, false};
ghost use Rattle.event_core.specs.Building.{is_memory};
ghost use Rattle.format_read.specs.Deserializing.{IsBare, IsMemory, IsStopError};
ghost use Rattle.format_read.specs.Taking.{told_parse};
ghost use Rattle.read_steps.specs.Stops.{told_stop};

use event_core::{DeserializeError, DeserializeErrorKind, ParseError};
use read_steps::{ReadStop, is_memory};

/// Why a value wasn't read.
pub(crate) fn error_of<'e>(stop: ReadStop<'e>) -> DeserializeError<'e>
    ensures error { IsStopError (told_stop stop.entry) result }
    ensures bare { IsMemory result → IsBare result }
{
    match stop {
        ReadStop::Alloc => DeserializeError {
            span: None,
            path: None,
            kind: DeserializeErrorKind::Alloc { operation: "value" },
        },
        ReadStop::Fault(error) => {
            let mut error = error.into_inner();
            clear_place(&mut error);
            error
        }
    }
}

/// Why no event was taken.
pub(crate) fn finish_error<'e>(error: ParseError<'e>) -> DeserializeError<'e>
    ensures error { IsStopError (told_parse error.entry) result }
    ensures bare { IsMemory result → IsBare result }
{
    let mut error = DeserializeError::from(error);
    clear_place(&mut error);
    error
}

/// Takes the span and the path from want of memory.
fn clear_place(error: &mut DeserializeError<'_>)
    ensures kind { error.new.kind ≡ error.old.kind }
    ensures bare { IsMemory error.new → IsBare error.new }
    ensures kept { is_memory error.old.kind ≡ false → error.new ≡ error.old }
{
    if is_memory(&error.kind) {
        error.span = None;
        error.path = None;
    }
}
