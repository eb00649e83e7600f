//! Readers over some events, and what they answer.
ghost use Rattle.std.specs.Prelude.{◌<◌, length};
ghost use Rattle.shape_types.specs.Shapes.{registry};

use crate::tests::listed::{Behind, Listed};
use crate::tests::outcome::{Outcome, Reader, next_of, outcome_of};
use crate::tests::registry::shapes;
use crate::tests::told::{Word, events};
use format_read::FormatDeserializer;
use plan_core::TypePlans;
use shape_core::{OutOfMemory, ShapeId, Shapes};
use std::alloc::Global;
use std::process::Abort;

/// The first of some events, what stands behind them, and how many are read ahead, if not as many as by default.
#[derive(Clone, Copy)]
pub struct Input {
    pub words: &'static [Word],
    pub count: usize,
    pub behind: Behind,
    pub capacity: Option<usize>,
}

/// What is asked of a reader.
#[derive(Clone, Copy)]
pub enum Calls {
    /// A value of the shape.
    Value,
    /// Two values of the shape.
    Values,
    /// A value and then three events.
    ValueAndEvents,
    /// One event, where its parser passed over the one before.
    Passed,
}

/// What the first call answers, how many events the parser gave for it, what the next calls answer,
/// and how many events the parser gave that the reader hands back.
#[derive(Debug, Clone, Copy, PartialEq, Eq)]
pub struct Answers {
    pub first: Outcome,
    pub next: Next,
    pub given: usize,
    pub finished: usize,
}

/// What the calls behind the first answer.
#[derive(Debug, Clone, Copy, PartialEq, Eq)]
pub enum Next {
    Nothing,
    Value(Outcome),
    Events(Outcome, Outcome, Outcome),
}

/// Makes the calls.
pub fn ask(
    rt: &impl Abort,
    alloc: Global,
    root: ShapeId,
    input: Input,
    calls: Calls,
) -> Result<Answers, OutOfMemory> {
    let shapes = shapes(alloc)?;
    let answers = ask_of(rt, alloc, &shapes, root, input, calls);
    drop(shapes);
    answers
}

fn ask_of(
    rt: &impl Abort,
    alloc: Global,
    shapes: &Shapes<'static>,
    root: ShapeId,
    input: Input,
    calls: Calls,
) -> Result<Answers, OutOfMemory> {
    assert!(rt; shapes.has(root));
    let plans = TypePlans::new(alloc, shapes)?;
    let answers = ask_by(alloc, &plans, root, input, calls);
    drop(plans);
    answers
}

fn ask_by(
    alloc: Global,
    plans: &TypePlans<'_, 'static>,
    root: ShapeId,
    input: Input,
    calls: Calls,
) -> Result<Answers, OutOfMemory>
    requires { root.0 < length (registry plans.now.shapes.now) }
{
    let events = events(alloc, input.words, input.count)?;
    let mut parser = Listed::new(alloc, events, input.behind);
    let answers = match input.capacity {
        Some(capacity) => with_capacity(alloc, &mut parser, plans, capacity, root, calls),
        None => by_default(alloc, &mut parser, plans, root, calls),
    };
    drop(parser);
    Ok(answers)
}

fn with_capacity(
    alloc: Global,
    parser: &mut Listed<'_>,
    plans: &TypePlans<'_, 'static>,
    capacity: usize,
    root: ShapeId,
    calls: Calls,
) -> Answers
    requires { root.0 < length (registry plans.now.shapes.now) }
{
    let mut reader = FormatDeserializer::with_buffer_capacity(alloc, parser, plans, 128, capacity);
    let (first, next, given) = answers_of(&mut reader, root, calls);
    let finished = reader.finish().given();
    Answers {
        first,
        next,
        given,
        finished,
    }
}

fn by_default(
    alloc: Global,
    parser: &mut Listed<'_>,
    plans: &TypePlans<'_, 'static>,
    root: ShapeId,
    calls: Calls,
) -> Answers
    requires { root.0 < length (registry plans.now.shapes.now) }
{
    let mut reader = FormatDeserializer::new(alloc, parser, plans, 128);
    let (first, next, given) = answers_of(&mut reader, root, calls);
    let finished = reader.finish().given();
    Answers {
        first,
        next,
        given,
        finished,
    }
}

fn answers_of(
    reader: &mut Reader<'_, '_, '_, '_>,
    root: ShapeId,
    calls: Calls,
) -> (Outcome, Next, usize)
    requires { root.0 < length (registry reader.old.plans.now.shapes.now) }
{
    match calls {
        Calls::Value => {
            let (first, given) = first_value(reader, root);
            (first, Next::Nothing, given)
        }
        Calls::Values => two_values(reader, root),
        Calls::ValueAndEvents => {
            let (first, given) = first_value(reader, root);
            (first, next_events(reader), given)
        }
        Calls::Passed => {
            reader.parser_mut().pass_one();
            let first = next_of(reader);
            (first, Next::Nothing, reader.parser_mut().given())
        }
    }
}

fn two_values(reader: &mut Reader<'_, '_, '_, '_>, root: ShapeId) -> (Outcome, Next, usize)
    requires { root.0 < length (registry reader.old.plans.now.shapes.now) }
{
    let first = outcome_of(reader, root);
    let given = reader.parser_mut().given();
    let second = outcome_of(reader, root);
    (first, Next::Value(second), given)
}

fn first_value(reader: &mut Reader<'_, '_, '_, '_>, root: ShapeId) -> (Outcome, usize)
    requires { root.0 < length (registry reader.old.plans.now.shapes.now) }
{
    let first = outcome_of(reader, root);
    (first, reader.parser_mut().given())
}

fn next_events(reader: &mut Reader<'_, '_, '_, '_>) -> Next {
    let first = next_of(reader);
    let second = next_of(reader);
    Next::Events(first, second, next_of(reader))
}
