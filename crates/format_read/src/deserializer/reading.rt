//! Reads a whole value.
ghost use Rattle.std.specs.Prelude.{◌≡◌, ◌<◌, ◌⊎◌, Some, [], length, nat_eq, IfOk, IfErr, IsTrue};
ghost use Rattle.semantics.specs.Reading.{from_events};
ghost use Rattle.event_core.specs.Faults.{fault_of};
ghost use Rattle.shape_types.specs.Shapes.{registry};
ghost use Rattle.shape_types.specs.Trees.{tree_of};
ghost use Rattle.laws_causes.specs.Stopping.{stopping};
ghost use Rattle.read_steps.specs.Stops.{told_stop};
ghost use Rattle.read_steps.specs.Tasks.{terms_of};
ghost use Rattle.format_read.specs.Deserializers.{describes_in, seat_in};
ghost use Rattle.format_read.specs.Deserializing.{setting, IsRead, Answers, IsBare, IsCaused, IsExact, IsMemory, Keeps};
ghost use Rattle.format_read.specs.Seats.{IsLeft, IsWithin, HasSource};
ghost use Rattle.format_read.specs.Stopping.{GivesAt};

use crate::deserializer::FormatDeserializer;
use crate::deserializer::errors::error_of;
use crate::deserializer::turn::Reading;
use event_core::DeserializeError;
use format_traits::FormatParser;
use laws::reads_typed;
use laws_causes::{stopping_fails, stopping_reads};
use laws_reading::reading_means;
use read_steps::{ReadStop, Task, await_value};
use shape_core::{ShapeId, Value};

impl<'parser, 'input, 's, 'v, P: FormatParser<'input>, const BORROW: u8> FormatDeserializer<
    'parser,
    'input,
    's,
    'v,
    P,
    BORROW,
> {
    /// Reads the next value, of the shape `root`, and takes just its events.
    ///
    /// Keys of structs may stand in any order, and unknown ones are passed over. Values may nest as deep as the
    /// deserializer was told: what is open of them stands on the heap. A value that is refused is so with a path, and with
    /// the span of the last event that was taken. The end of the events has that span and no path, a parser's fault its
    /// own span and no path, and want of memory neither.
    ///
    /// Clauses that speak of events hold over parsers that tell theirs. Over others it is safe and returns.
    pub fn deserialize_value(
        &mut self,
        root: ShapeId,
    ) -> Result<Value<'input>, DeserializeError<'input>>
        requires { root.0 < length (registry self.old.plans.now.shapes.now) }

        // The events taken are a whole run that is read as this value, and the value is of the shape.
        ensures read { IsTrue P.tells → IfOk result (λ v. IsRead (setting (registry self.old.plans.now.shapes.now) (nat_eq BORROW 1) (describes_in P.parsing self.old)) self.old.depth root.0 (seat_in P.parsing self.old).input (seat_in P.parsing self.new).input (tree_of v)) }

        // Whatever run comes first that is read as a value, it is answered, and no more is taken.
        ensures answers { IsTrue P.tells → Answers tree_of (setting (registry self.old.plans.now.shapes.now) (nat_eq BORROW 1) (describes_in P.parsing self.old)) self.old.depth root.0 (seat_in P.parsing self.old).input (seat_in P.parsing self.new).input result }

        // What is answered is settled by the events that were to come.
        ensures exact { IsTrue P.tells → IsExact tree_of (setting (registry self.old.plans.now.shapes.now) (nat_eq BORROW 1) (describes_in P.parsing self.old)) self.old.depth root.0 (seat_in P.parsing self.old).input (seat_in P.parsing self.new).input result }

        // Each refusal has its cause in the events that were taken and the one that was looked at.
        ensures caused { IsTrue P.tells → IfErr result (IsCaused (setting (registry self.old.plans.now.shapes.now) (nat_eq BORROW 1) (describes_in P.parsing self.old)) self.old.depth root.0 (seat_in P.parsing self.old).input (seat_in P.parsing self.new).input) }

        // What comes afterwards is the end of what was to come, behind the events that were taken.
        ensures kept { IsTrue P.tells → Keeps (seat_in P.parsing self.old).input (seat_in P.parsing self.new).input result }
        ensures left { IsLeft (seat_in P.parsing self.old) (seat_in P.parsing self.new) }

        // No more events were read beyond the last one taken than may be read ahead.
        ensures ahead { IsWithin (seat_in P.parsing self.old) → IsWithin (seat_in P.parsing self.new) }

        // Want of memory has no place.
        ensures bare { IfErr result (λ e. IsMemory e → IsBare e) }

        // A parser's fault is answered only where its count of faults rose.
        ensures cause { IfErr result (λ e. IsMemory e ⊎ HasSource (Some (fault_of e)) (seat_in P.parsing self.old) (seat_in P.parsing self.new)) }
    {
        reading_means();
        reads_typed();
        stopping_reads();
        stopping_fails();
        let plans = self.plans;
        let task = Task {
            alloc: self.alloc,
            shapes: plans.shapes(),
            limit: self.depth,
            borrow: BORROW == 1,
            describes_itself: self.parser.is_self_describing(),
        };
        task.shapes.rules();
        match self.read(&task, root) {
            Ok(value) => Ok(value),
            Err(stop) => Err(error_of(stop)),
        }
    }

    /// Reads a value from event to event.
    #[tactic(auto, using(crate::proofs::Turns::begins, crate::proofs::Turns::begins_not, crate::proofs::Turns::goes_on, crate::proofs::Turns::completes, crate::proofs::Turns::fails, crate::proofs::Lefts::left_same, crate::proofs::Lefts::left_later, crate::proofs::Lefts::source_later, crate::proofs::Lefts::source_own))]
    fn read(
        &mut self,
        task: &Task<'_, '_>,
        root: ShapeId,
    ) -> Result<Value<'input>, ReadStop<'input>>
        ensures exact { IsTrue P.tells → GivesAt told_stop tree_of (seat_in P.parsing self.new).input result (stopping (terms_of task.now) self.old.depth root.0 from_events (seat_in P.parsing self.old).input) }
        ensures left { IsLeft (seat_in P.parsing self.old) (seat_in P.parsing self.new) }
        ensures cause { IfErr result (λ e. HasSource (told_stop e) (seat_in P.parsing self.old) (seat_in P.parsing self.new)) }
    {
        let mut reading = Reading::new(self.alloc);
        await_value(task, &mut reading.frames, root, self.depth, self.last)?;
        'events: while self.turn(task, &mut reading)? {}
        Ok(reading.finish())
    }
}
