//! A parser of one format.
ghost use Rattle.std.specs.Prelude.{◌≡◌, ◌≤◌, ◌<◌, ◌⊎◌, Bool, [], map, IsTrue, IsNone, IsSome, IfOk, IfErr, OnOk, OnErr, option_to_list};
ghost use Rattle.event_core.specs.Events.{event_of};
ghost use Rattle.format_traits.specs.Parsing.{Parsing, Gave, Failed, EndAfter, Met, IsNext, IsMemory, HasCause};
ghost use Rattle.format_traits.specs.Batches.{Put, PutBefore};

use event_core::{ParseError, ParseEvent, Span};
use std::collections::VecDeque;

/// Gives the events of an input one by one.
///
/// A fault comes again at each later call that asks for an event. Each error is want of memory,
/// or comes where the parser's count of faults rose or stands at its last value. After want of
/// memory events may be lost: what comes then is the end of what was to come.
pub trait FormatParser<'de> {
    /// What it has still to give.
    ghost parsing: { Self → Parsing };

    /// Whether parsers of this type tell their events.
    ghost tells: { Bool };

    /// Takes the next event. None comes only where no event is left.
    fn next_event(&mut self) -> Result<Option<ParseEvent<'de>>, ParseError<'de>>
        ensures gave { IfOk result (λ event. Gave (map event_of (option_to_list event)) (parsing self.old) (parsing self.new)) }
        ensures end { IfOk result (λ event. IsNone event → EndAfter [] (parsing self.old)) }
        ensures failed { OnErr result (Failed (parsing self.old) (parsing self.new)) }
        ensures fault { IfErr result (λ e. IsMemory e ⊎ Met [] e (parsing self.old) (parsing self.new)) }
        ensures cause { HasCause (parsing self.old).faults (parsing self.new).faults result };

    /// Puts the next events behind those of `buf`, at most `limit`, and answers how many. There are
    /// fewer only where no event is left. The events before a fault stay in `buf`.
    fn next_events(
        &mut self,
        buf: &mut VecDeque<ParseEvent<'de>>,
        limit: usize,
    ) -> Result<usize, ParseError<'de>>
        ensures put { IfOk result (λ count. Put count (parsing self.old) (parsing self.new) buf.old.items buf.new.items) }
        ensures within { IfOk result (λ count. count ≤ limit) }
        ensures end { IfOk result (λ count. count < limit → EndAfter [] (parsing self.new)) }
        ensures refused { IfErr result (λ e. PutBefore limit e (parsing self.old) (parsing self.new) buf.old.items buf.new.items) }
        ensures cause { HasCause (parsing self.old).faults (parsing self.new).faults result };

    /// The next event, which isn't taken. None comes only where no event is left.
    fn peek_event(&mut self) -> Result<Option<ParseEvent<'de>>, ParseError<'de>>
        ensures next { IfOk result (λ event. IsNext event (parsing self.old)) }
        ensures kept { OnOk result (Gave [] (parsing self.old) (parsing self.new)) }
        ensures end { IfOk result (λ event. IsNone event → EndAfter [] (parsing self.old)) }
        ensures failed { OnErr result (Failed (parsing self.old) (parsing self.new)) }
        ensures fault { IfErr result (λ e. IsMemory e ⊎ Met [] e (parsing self.old) (parsing self.new)) }
        ensures cause { HasCause (parsing self.old).faults (parsing self.new).faults result };

    /// Whether its events say what they are, so that it needs no hints. No call changes the answer.
    fn is_self_describing(&self) -> bool
        ensures { result ≡ (parsing self.now).describes_itself };

    /// Where it stands in the input, if it knows.
    fn current_span(&self) -> Option<Span>;

    ghost told: { (p : Self) → IsTrue tells → IsSome (parsing p).coming };
}
