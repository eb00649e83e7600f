//! Reads the one value of a tape.
ghost use Rattle.std.specs.Prelude.{◌≡◌, ◌<◌, true, length, IfOk, IfErr};
ghost use Rattle.semantics.specs.Recoding.{tape_setting};
ghost use Rattle.shape_types.specs.Shapes.{registry};
ghost use Rattle.shape_types.specs.Trees.{tree_of};
ghost use Rattle.event_core.specs.Building.{is_memory};
ghost use Rattle.event_core.specs.Events.{event_of};
ghost use Rattle.tape_text.specs.Coming.{coming_from};
ghost use Rattle.tape_text.specs.Parser.{parsing_of};
ghost use Rattle.format_read.specs.Deserializers.{seat_in};
ghost use Rattle.recode_top.specs.Recode.{told, IsAlone, FindsAlone, IsNotAlone, RefusesAs, TrailsAs};

use crate::error::RecodeError;
use event_core::{DeserializeError, DeserializeErrorKind, ParseEvent};
use format_read::FormatDeserializer;
use plan_core::TypePlans;
use shape_core::{ShapeId, Shapes, Value};
use std::alloc::Global;
use tape_text::TapeParser;

/// Reads the value that all events of the tape are, of which at most `capacity` are read ahead.
pub(crate) fn read_tape<'a>(
    alloc: Global,
    shapes: &Shapes,
    root: ShapeId,
    capacity: usize,
    depth: usize,
    input: &'a [u8],
) -> Result<Value<'a>, RecodeError<'a>>
    requires { root.0 < length (registry shapes.now) }
    ensures read { IfOk result (λ v. IsAlone (tape_setting (registry shapes.now)) root.0 depth (told capacity (coming_from 0 input.now)) (tree_of v)) }
    ensures found { FindsAlone (tape_setting (registry shapes.now)) root.0 depth (told capacity (coming_from 0 input.now)) result }
    ensures refused { IfErr result (IsNotAlone (tape_setting (registry shapes.now)) root.0 depth (told capacity (coming_from 0 input.now))) }
{
    let plans = match TypePlans::new(alloc, shapes) {
        Ok(plans) => plans,
        Err(_) => return Err(RecodeError::Alloc),
    };
    let mut parser = TapeParser::new(alloc, input);
    let mut reader = FormatDeserializer::with_buffer_capacity(
        alloc,
        &mut parser,
        &plans,
        depth,
        capacity,
    );
    read_alone(&mut reader, root)
}

/// Reads a value, behind which no event comes.
fn read_alone<'a>(
    reader: &mut FormatDeserializer<'_, 'a, '_, '_, TapeParser<'a>, 1>,
    root: ShapeId,
) -> Result<Value<'a>, RecodeError<'a>>
    requires { root.0 < length (registry reader.old.plans.now.shapes.now) }
    ensures read { IfOk result (λ v. IsAlone (tape_setting (registry reader.old.plans.now.shapes.now)) root.0 reader.old.depth (seat_in parsing_of reader.old).input (tree_of v)) }
    ensures found { FindsAlone (tape_setting (registry reader.old.plans.now.shapes.now)) root.0 reader.old.depth (seat_in parsing_of reader.old).input result }
    ensures refused { IfErr result (IsNotAlone (tape_setting (registry reader.old.plans.now.shapes.now)) root.0 reader.old.depth (seat_in parsing_of reader.old).input) }
{
    let value = match reader.deserialize_value(root) {
        Ok(value) => value,
        Err(error) => return Err(refused(error)),
    };
    match reader.finish_input() {
        Ok(None) => Ok(value),
        Ok(Some(event)) => Err(trailing(event)),
        Err(error) => Err(refused(error)),
    }
}

/// What is answered where the reader refuses.
fn refused<'e>(error: DeserializeError<'e>) -> RecodeError<'e>
    ensures { RefusesAs error.entry result }
{
    if is_memory(&error.kind) {
        drop(error);
        return RecodeError::Alloc;
    }
    RecodeError::Deserialize(error)
}

/// Whether memory ran out.
fn is_memory(kind: &DeserializeErrorKind<'_>) -> bool
    ensures { result ≡ is_memory kind.now }
{
    matches!(kind, DeserializeErrorKind::Alloc { operation: _ })
}

/// What is answered where this event stands behind the value.
fn trailing<'e>(event: ParseEvent<'_>) -> RecodeError<'e>
    ensures { TrailsAs (event_of event.entry) result }
{
    let kind = event.kind.kind_name();
    let span = event.span;
    drop(event);
    RecodeError::Trailing { kind, span }
}
