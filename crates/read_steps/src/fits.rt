//! What an event is to those who look for another one.
ghost use Rattle.std.specs.Prelude.{◌≡◌, is_ok};
ghost use Rattle.event_core.specs.Events.{event_of, scalar_of};
ghost use Rattle.semantics.specs.Seen.{is_nothing_event, ends_sequence};
ghost use Rattle.semantics.specs.Reading.{is_nothing};
ghost use Rattle.read_steps.specs.Fits.{begins_sequence, begins_struct, ends_struct, is_scalar, fit, form_view, tuple_form, goes_on_by, begun_of, begun_view, mark_of, mark_view};

use crate::expected::{Expected, Unfit};
use crate::key::take_name;
use event_core::{ContainerKind, ParseEvent, ParseEventKind, ScalarValue};
use shape_core::Text;

/// What begins a tuple.
#[derive(Clone, Copy)]
pub enum TupleForm {
    /// A sequence of its items.
    Sequence,
    /// An object, whose keys are passed over.
    Object,
    /// The whole tuple, which has no items.
    Nothing,
}

/// What an event begins where a scalar is read.
#[derive(Drop)]
pub enum Begun<'de> {
    /// The scalar itself.
    Scalar(ScalarValue<'de>),
    /// A node.
    Node,
    /// Neither.
    Other(Unfit),
}

/// What an event is where an entry may begin.
#[derive(Drop)]
pub enum Mark<'de> {
    /// The end of the object.
    End,
    /// A key of this name.
    Name(Text<'de>),
    /// A key without a name.
    Nameless,
    /// A key by order, told as what it is to those who take none.
    Ordered(Unfit),
    /// No key.
    Elsewhere(Unfit),
}

/// The event has to be the start of a struct.
pub fn fit_struct_start(expected: Expected, event: &ParseEvent<'_>) -> Result<(), Unfit>
    ensures { is_ok result ≡ begins_struct (event_of event.now) }
{
    if begins_struct(event) {
        return Ok(());
    }
    Err(unfit_event(expected, event))
}

/// The event has to be the end of a struct.
pub fn fit_struct_end(expected: Expected, event: &ParseEvent<'_>) -> Result<(), Unfit>
    ensures { is_ok result ≡ ends_struct (event_of event.now) }
{
    if ends_struct(event) {
        return Ok(());
    }
    Err(unfit_event(expected, event))
}

/// The event has to be the start of a sequence.
pub fn fit_sequence_start(expected: Expected, event: &ParseEvent<'_>) -> Result<(), Unfit>
    ensures { is_ok result ≡ begins_sequence (event_of event.now) }
{
    if begins_sequence(event) {
        return Ok(());
    }
    Err(no_sequence(expected, event))
}

/// What begins a tuple, which has no items or some.
pub fn fit_tuple(empty: bool, event: &ParseEvent<'_>) -> Result<TupleForm, Unfit>
    ensures { fit form_view result ≡ tuple_form empty (event_of event.now) }
{
    let got = event.kind_name();
    match &event.kind {
        ParseEventKind::SequenceStart(_) => Ok(TupleForm::Sequence),
        ParseEventKind::StructStart(ContainerKind::Object) => Ok(TupleForm::Object),
        ParseEventKind::StructStart(container) => Err(Unfit {
            got: container.name(),
            expected: Expected::Array,
        }),
        ParseEventKind::Scalar(scalar) => {
            if empty && is_nothing(scalar) {
                Ok(TupleForm::Nothing)
            } else {
                Err(Unfit {
                    got,
                    expected: Expected::TupleStart,
                })
            }
        }
        _ => Err(Unfit {
            got,
            expected: Expected::TupleStart,
        }),
    }
}

/// Whether a key comes; the end of an object doesn't go on.
pub fn fit_any_key(event: &ParseEvent<'_>) -> Result<bool, Unfit>
    ensures { fit (λ more. more) result ≡ goes_on_by (event_of event.now) }
{
    let got = event.kind_name();
    match &event.kind {
        ParseEventKind::FieldKey(_) | ParseEventKind::OrderedField => Ok(true),
        ParseEventKind::StructEnd => Ok(false),
        _ => Err(Unfit {
            got,
            expected: Expected::KeyOrEnd,
        }),
    }
}

/// What the event begins, where this is expected. A scalar is taken out of it.
pub fn begin_of<'de>(expected: Expected, event: &mut ParseEvent<'de>) -> Begun<'de>
    ensures { begun_view result ≡ begun_of (event_of event.old) }
{
    let got = event.kind_name();
    match &mut event.kind {
        ParseEventKind::Scalar(scalar) => Begun::Scalar(take_scalar(scalar)),
        ParseEventKind::StructStart(_) => Begun::Node,
        _ => Begun::Other(Unfit { got, expected }),
    }
}

/// Takes the scalar out of its place.
pub fn take_scalar<'de>(scalar: &mut ScalarValue<'de>) -> ScalarValue<'de>
    ensures { result ≡ scalar.old }
{
    std::mem::replace(scalar, ScalarValue::Unit)
}

/// What the event is, where an entry may begin. The name of a key is taken out of it.
pub fn mark_event<'de>(expected: Expected, event: &mut ParseEvent<'de>) -> Mark<'de>
    ensures { mark_view result ≡ mark_of (event_of event.old) }
{
    let got = event.kind_name();
    match &mut event.kind {
        ParseEventKind::StructEnd => Mark::End,
        ParseEventKind::FieldKey(key) => match take_name(key) {
            Some(name) => Mark::Name(name),
            None => Mark::Nameless,
        },
        ParseEventKind::OrderedField => Mark::Ordered(Unfit { got, expected }),
        _ => Mark::Elsewhere(Unfit { got, expected }),
    }
}

/// Any event, where another one is expected.
pub fn unfit_event(expected: Expected, event: &ParseEvent<'_>) -> Unfit {
    Unfit {
        got: event.kind_name(),
        expected,
    }
}

/// Any event, where a sequence is expected. The start of an object is told by the name of its container.
fn no_sequence(expected: Expected, event: &ParseEvent<'_>) -> Unfit {
    match &event.kind {
        ParseEventKind::StructStart(container) => Unfit {
            got: container.name(),
            expected: Expected::Array,
        },
        _ => unfit_event(expected, event),
    }
}

fn begins_sequence(event: &ParseEvent<'_>) -> bool
    ensures { result ≡ begins_sequence (event_of event.now) }
{
    matches!(event.kind, ParseEventKind::SequenceStart(_))
}

fn begins_struct(event: &ParseEvent<'_>) -> bool
    ensures { result ≡ begins_struct (event_of event.now) }
{
    matches!(event.kind, ParseEventKind::StructStart(_))
}

fn ends_struct(event: &ParseEvent<'_>) -> bool
    ensures { result ≡ ends_struct (event_of event.now) }
{
    matches!(event.kind, ParseEventKind::StructEnd)
}

/// Whether it is the end of a sequence.
pub fn ends_sequence(event: &ParseEvent<'_>) -> bool
    ensures { result ≡ ends_sequence (event_of event.now) }
{
    matches!(event.kind, ParseEventKind::SequenceEnd)
}

/// Whether it is a scalar.
pub fn is_scalar(event: &ParseEvent<'_>) -> bool
    ensures { result ≡ is_scalar (event_of event.now) }
{
    matches!(event.kind, ParseEventKind::Scalar(_))
}

/// Whether it is null or unit.
pub fn is_nothing_event(event: &ParseEvent<'_>) -> bool
    ensures { result ≡ is_nothing_event (event_of event.now) }
{
    match &event.kind {
        ParseEventKind::Scalar(scalar) => is_nothing(scalar),
        _ => false,
    }
}

fn is_nothing(scalar: &ScalarValue<'_>) -> bool
    ensures { result ≡ is_nothing (scalar_of scalar.now) }
{
    matches!(scalar, ScalarValue::Unit | ScalarValue::Null)
}
