//! Passes over values.
ghost use Rattle.std.specs.Prelude.{◌≡◌, ◌∷◌, [], IfErr};
ghost use Rattle.event_core.specs.Events.{event_of};
ghost use Rattle.laws_machine.specs.Delivery.{going};
ghost use Rattle.laws_machine.specs.Frames.{Frames, passing};
ghost use Rattle.laws_machine.specs.Steps.{pass_step};
ghost use Rattle.read_steps.specs.Passing.{opened_of};
ghost use Rattle.read_steps.specs.Stops.{told_stop, Gives, IsOwn};
ghost use Rattle.read_steps.specs.Tasks.{terms_of};
ghost use Rattle.read_steps.specs.Views.{open_of, moved_of};

use crate::frames::{Moved, Next};
use crate::opened::{NotPassed, Opened};
use crate::refusal::unexpected;
use crate::stack::Stack;
use crate::stop::ReadStop;
use crate::task::Task;
use event_core::ParseEvent;

/// Passes over one event of a value, of which these containers are open.
#[tactic(auto, using(crate::proofs::Passings::passes_on, crate::proofs::Passings::passed_last, crate::proofs::Passings::not_passed))]
pub fn pass_event<'de>(
    task: &Task<'_, '_>,
    stack: &Stack<'_>,
    opened: Opened,
    event: &ParseEvent<'_>,
) -> Result<Moved<'de>, ReadStop<'de>>
    ensures exact { Gives told_stop (λ m. moved_of m (open_of (terms_of task.now) stack.now)) result (pass_step (terms_of task.now) (opened_of opened) (open_of (terms_of task.now) stack.now) (event_of event.now)) }
    ensures own { IfErr result (λ e. IsOwn (told_stop e)) }
{
    let mut opened = opened;
    let span = event.span;
    let passed = opened.pass(event);
    match passed {
        Ok(true) => Ok(Moved::To(Next::Passed(opened))),
        Ok(false) => Ok(Moved::To(Next::Inside)),
        Err(NotPassed::Unfit(unfit)) => Err(unexpected(task, stack, unfit, span)),
        Err(NotPassed::Alloc) => Err(ReadStop::Alloc),
    }
}

/// A key was taken whose value is passed over.
pub fn pass_entry<'de>(task: &Task<'_, '_>) -> Moved<'de>
    ensures { (fs : Frames) → moved_of result fs ≡ going (passing [] ∷ fs) }
{
    Moved::To(Next::Passed(Opened::new(task.alloc)))
}
