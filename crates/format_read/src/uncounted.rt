//! Takes events from a queue where nobody counts the steps.
ghost use Rattle.std.specs.Prelude.{◌≡◌, ◌<◌, [], IfOk, IsNone, MatchOption, OnErr};
ghost use Rattle.event_core.specs.Queued.{Took};

use event_core::{EventQueue, ParseEvent, Steps};
use shape_core::OutOfMemory;
use std::marker::Brand;
use std::sync::ledger::{Blank, Ledger};

/// The next event that was read ahead, as [`EventQueue::take`] gives it.
pub fn take_ahead<'de>(queue: &mut EventQueue<'de>) -> Result<Option<ParseEvent<'de>>, OutOfMemory>
    ensures took { IfOk result (λ event. MatchOption event (queue.old.ahead ≡ []) (λ e. Took e queue.old queue.new)) }
    ensures none { IfOk result (λ event. IsNone event → queue.new ≡ queue.old) }
    ensures unchanged { OnErr result (queue.new ≡ queue.old) }
{
    let ledger = Blank::new(1);
    take_on::<Brand>(queue, ledger)
}

fn take_on<'de, L: Ledger>(
    queue: &mut EventQueue<'de>,
    ledger: Blank,
) -> Result<Option<ParseEvent<'de>>, OutOfMemory>
    requires name { ledger.name ≡ L.name }
    requires parts { ledger.parts ≡ L.parts }
    requires used { 0 < L.parts }
    ensures took { IfOk result (λ event. MatchOption event (queue.old.ahead ≡ []) (λ e. Took e queue.old queue.new)) }
    ensures none { IfOk result (λ event. IsNone event → queue.new ≡ queue.old) }
    ensures unchanged { OnErr result (queue.new ≡ queue.old) }
{
    let mut steps = Steps::<L>::new(ledger);
    queue.take(&mut steps)
}
