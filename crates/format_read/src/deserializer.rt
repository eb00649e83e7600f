//! Reads values from the events of any parser.
ghost use Rattle.std.specs.Prelude.{◌≡◌};
ghost use Rattle.event_core.specs.Queued.{empty_queue};

mod ahead;
mod batch;
mod errors;
mod next;
mod reading;
mod turn;

use event_core::{EventQueue, Span};
use plan_core::TypePlans;
use std::alloc::Global;

/// How many events are read ahead, where nothing else is said.
pub const DEFAULT_EVENT_BUFFER_SIZE: usize = 512;

/// Reads values from the events of a parser, by their shapes.
///
/// Where `BORROW` is 1, texts that are borrowed from the input stay borrowed.
#[derive(Drop)]
pub struct FormatDeserializer<'parser, 'input, 's, 'v, P, const BORROW: u8> {
    alloc: Global,
    parser: &'parser mut P,
    plans: &'parser TypePlans<'s, 'v>,
    depth: usize,
    queue: EventQueue<'input>,
    last: Span,
}

impl<'parser, 'input, 's, 'v, P> FormatDeserializer<'parser, 'input, 's, 'v, P, 1> {
    /// A deserializer of the events that the parser has still to give. Values may be nested as deep as `depth` says.
    pub fn new(
        alloc: Global,
        parser: &'parser mut P,
        plans: &'parser TypePlans<'s, 'v>,
        depth: usize,
    ) -> FormatDeserializer<'parser, 'input, 's, 'v, P, 1>
        ensures place { result.parser.ghost_name ≡ parser.entry.ghost_name }
        ensures parser { result.parser.now ≡ parser.entry.now }
        ensures plans { result.plans ≡ plans.entry }
        ensures depth { result.depth ≡ depth }
        ensures queue { result.queue ≡ empty_queue 512 }
        ensures last { result.last ≡ record { offset = 0; len = 0 } }
    {
        FormatDeserializer::with_buffer_capacity(
            alloc,
            parser,
            plans,
            depth,
            DEFAULT_EVENT_BUFFER_SIZE,
        )
    }

    /// The same, which reads at most so many events ahead. At 0 it reads nothing.
    pub fn with_buffer_capacity(
        alloc: Global,
        parser: &'parser mut P,
        plans: &'parser TypePlans<'s, 'v>,
        depth: usize,
        buffer_capacity: usize,
    ) -> FormatDeserializer<'parser, 'input, 's, 'v, P, 1>
        ensures place { result.parser.ghost_name ≡ parser.entry.ghost_name }
        ensures parser { result.parser.now ≡ parser.entry.now }
        ensures plans { result.plans ≡ plans.entry }
        ensures depth { result.depth ≡ depth }
        ensures queue { result.queue ≡ empty_queue buffer_capacity }
        ensures last { result.last ≡ record { offset = 0; len = 0 } }
    {
        FormatDeserializer {
            alloc,
            parser,
            plans,
            depth,
            queue: EventQueue::new(alloc, buffer_capacity),
            last: Span { offset: 0, len: 0 },
        }
    }
}

impl<'parser, 'input, 's, 'v, P, const BORROW: u8> FormatDeserializer<
    'parser,
    'input,
    's,
    'v,
    P,
    BORROW,
> {
    ghost use mir.Syntax.{named};
    ghost use Rattle.std.specs.Prelude.{[]};
    ghost use Rattle.std.specs.Borrow.{follows, sem};
    ghost use Rattle.format_read.specs.Deserializers.{with_parser};
    ghost use Rattle.format_read.specs.contracts.deserializer.FormatDeserializer.{the_row};

    /// The parser. Events that were read ahead of it still come first. What is left behind the answer is what the
    /// deserializer goes on with.
    pub fn parser_mut(&mut self) -> &mut P
        ensures* writes_back { sem 𝓛 (follows (the_row (record { mir = named 1; lft = [] }) (record { mir = named 2; lft = [] }) (record { mir = named 3; lft = [] }) (record { mir = named 4; lft = [] }) P.row BORROW.row) P.row self.entry.ghost_name result.ghost_name (with_parser self.old)) }
        ensures value { result.now ≡ self.old.parser.now }
    {
        &mut *self.parser
    }

    /// Ends reading, and gives the parser back. Events that were read ahead are dropped.
    pub fn finish(self) -> &'parser mut P
        ensures place { result.ghost_name ≡ self.entry.parser.ghost_name }
        ensures parser { result.now ≡ self.entry.parser.now }
    {
        let FormatDeserializer {
            alloc: _,
            parser,
            plans: _,
            depth: _,
            queue,
            last: _,
        } = self;
        drop(queue);
        parser
    }
}
