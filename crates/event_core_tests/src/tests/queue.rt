ghost use Rattle.std.specs.Prelude.{◌≡◌, ◌<◌, None, IsSome};

use crate::tests::made;
use event_core::{EventQueue, ParseEvent, ParseEventKind, Span, Steps};
use std::alloc::Global;
use std::collections::VecDeque;
use std::marker::Brand;
use std::process::Abort;
use std::sync::ledger::{Blank, Ledger};

/// The end of a struct at this place.
fn end_at(offset: usize) -> ParseEvent<'static> {
    ParseEvent::new(ParseEventKind::StructEnd, Span { offset, len: 1 })
}

/// The ends at 0 and 1.
fn ends(rt: &impl Abort, alloc: Global) -> VecDeque<ParseEvent<'static>> {
    let mut batch = VecDeque::new(alloc);
    batch.push_back(end_at(0)).expect(rt, "memory");
    batch.push_back(end_at(1)).expect(rt, "memory");
    batch
}

/// A queue of capacity 2 that holds the ends at 0 and 1.
fn two_events(rt: &impl Abort, alloc: Global) -> EventQueue<'static>
    ensures { result.saved ≡ None }
{
    let mut batch = ends(rt, alloc);
    let mut queue = EventQueue::new(alloc, 2);
    assert!(rt; queue.ahead() == 0 && batch.len() == 2);
    made(rt, queue.fill(&mut batch));
    drop(batch);
    queue
}

/// Where the event stands, if there is one.
fn place_of(event: Option<ParseEvent<'_>>) -> Option<usize> {
    let place = event.as_ref().map(|event| event.span.offset);
    drop(event);
    place
}

/// The next event is looked at and taken, and stands at this place.
fn gives<L: Ledger>(
    rt: &impl Abort,
    queue: &mut EventQueue<'static>,
    steps: &mut Steps<L>,
    place: Option<usize>,
)
    ensures { IsSome queue.old.saved → IsSome queue.new.saved }
{
    assert_eq!(rt; queue.peek().map(|event| event.span.offset), place);
    let taken = made(rt, queue.take(steps));
    assert_eq!(rt; place_of(taken), place);
}

fn takes_in_order<L: Ledger>(rt: &impl Abort, alloc: Global, ledger: Blank)
    requires name { ledger.name ≡ L.name }
    requires parts { ledger.parts ≡ L.parts }
    requires used { 0 < L.parts }
{
    let mut steps = Steps::<L>::new(ledger);
    let mut queue = two_events(rt, alloc);
    assert_eq!(rt; queue.ahead(), 2);
    gives(rt, &mut queue, &mut steps, Some(0));
    gives(rt, &mut queue, &mut steps, Some(1));
    gives(rt, &mut queue, &mut steps, None);
    drop(queue);
}

#[test]
fn events_are_taken_in_order(rt: HostRuntime) {
    let ledger = Blank::new(1);
    takes_in_order::<Brand>(&rt, rt.alloc(), ledger);
}

fn comes_again<L: Ledger>(rt: &impl Abort, alloc: Global, ledger: Blank)
    requires name { ledger.name ≡ L.name }
    requires parts { ledger.parts ≡ L.parts }
    requires used { 0 < L.parts }
{
    let mut steps = Steps::<L>::new(ledger);
    let mut queue = two_events(rt, alloc);
    queue.save();
    gives(rt, &mut queue, &mut steps, Some(0));
    queue.restore();
    assert_eq!(rt; queue.ahead(), 2);
    gives(rt, &mut queue, &mut steps, Some(0));
    gives(rt, &mut queue, &mut steps, Some(1));
    drop(queue);
}

#[test]
fn what_was_taken_under_a_save_comes_again(rt: HostRuntime) {
    let ledger = Blank::new(1);
    comes_again::<Brand>(&rt, rt.alloc(), ledger);
}
