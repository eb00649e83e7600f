//! Begins a value with its first event.
ghost use Rattle.std.specs.Prelude.{◌≡◌, ◌<◌, ◌∷◌, [], suc, true, false, Some, None, Err, map, not, option_map, IfOk, IfErr, OnOk};
ghost use Rattle.semantics.specs.Reading.{from_events};
ghost use Rattle.semantics.specs.Registry.{has_some};
ghost use Rattle.semantics_lines.specs.Shapes.{definition_at};
ghost use Rattle.semantics_lines.specs.Events.{span_of};
ghost use Rattle.semantics_lines.specs.Faults.{unexpected_token};
ghost use Rattle.semantics_lines.specs.Trees.{none};
ghost use Rattle.shape_types.specs.Scalars.{scalar_type_of};
ghost use Rattle.shape_types.specs.Shapes.{registry};
ghost use Rattle.shape_types.specs.Trees.{tree_of};
ghost use Rattle.event_core.specs.Events.{event_of, scalar_of};
ghost use Rattle.event_core.specs.Metadata.{span_view};
ghost use Rattle.laws_reading.specs.Values.{Terms, target_of};
ghost use Rattle.laws_machine.specs.Delivery.{deliver};
ghost use Rattle.laws_machine.specs.Begins.{begin, begin_scalar, begin_result, begin_items, begin_tuple, begin_object};
ghost use Rattle.read_steps.specs.Leaving.{inner_in};
ghost use Rattle.read_steps.specs.Refusals.{fault_in};
ghost use Rattle.read_steps.specs.Fits.{as_scalar};
ghost use Rattle.read_steps.specs.Forms.{begin_form};
ghost use Rattle.read_steps.specs.Stepping.{Goes, scalar_begun};
ghost use Rattle.read_steps.specs.Stops.{told_stop, Gives, IsFault, IsOwn};
ghost use Rattle.read_steps.specs.Tasks.{terms_of, fields_at};
ghost use Rattle.read_steps.specs.Views.{open_of, moved_of, result_of, tuple_of, items_begun, tuple_begun_at, struct_begun_at};

use crate::delivery::deliver;
use crate::expected::{Expected, Unfit};
use crate::fields::field_at;
use crate::fits::{
    Begun, TupleForm, begin_of, fit_sequence_start, fit_struct_start, fit_tuple, is_nothing_event,
};
use crate::form::{Form, form_of};
use crate::frames::{
    ArgumentKey, Frame, ItemsPart, Moved, Next, NodePart, ResultPart, StructPart, TuplePart,
};
use crate::refusal::{too_deep, unexpected};
use crate::scalar::set_value;
use crate::stack::Stack;
use crate::stop::ReadStop;
use crate::task::{ItemsOf, Task, Wanted};
use event_core::{ParseEvent, ScalarValue, Span};
use shape_core::{Def, Items, ScalarType, ShapeId, Value};

/// Begins a part of this depth, behind what stood before the event.
pub fn begin_part<'de>(
    task: &Task<'_, '_>,
    stack: &mut Stack<'de>,
    shape: ShapeId,
    depth: usize,
    before: Span,
    event: &mut ParseEvent<'de>,
) -> Result<Moved<'de>, ReadStop<'de>>
    ensures exact { Gives told_stop (λ m. moved_of m (open_of (terms_of task.now) stack.new)) result (begin (terms_of task.now) depth shape.0 from_events (open_of (terms_of task.now) stack.old) (span_view before) (event_of event.old)) }
    ensures own { IfErr result (λ e. IsOwn (told_stop e)) }
{
    if depth == 0 {
        return Err(too_deep(task, stack, before));
    }
    begin(task, stack, shape, depth - 1, before, event)
}

/// Begins a value whose parts have this depth.
pub fn begin<'de>(
    task: &Task<'_, '_>,
    stack: &mut Stack<'de>,
    shape: ShapeId,
    depth: usize,
    before: Span,
    event: &mut ParseEvent<'de>,
) -> Result<Moved<'de>, ReadStop<'de>>
    ensures exact { Gives told_stop (λ m. moved_of m (open_of (terms_of task.now) stack.new)) result (begin (terms_of task.now) (suc depth) shape.0 from_events (open_of (terms_of task.now) stack.old) (span_view before) (event_of event.old)) }
    ensures own { IfErr result (λ e. IsOwn (told_stop e)) }
{
    let mut wanted = Wanted { shape, depth };
    'parts: while descend(task, stack, &mut wanted, before, event)? {}
    begin_here(task, stack, wanted, before, event)
}

/// Goes on to the part that is read from the same event, and answers whether there is one.
#[tactic(auto, using(crate::proofs::Begins::descend_option, crate::proofs::Begins::descend_transparent, crate::proofs::Begins::option_too_deep, crate::proofs::Begins::transparent_too_deep))]
fn descend<'de>(
    task: &Task<'_, '_>,
    stack: &mut Stack<'de>,
    wanted: &mut Wanted,
    before: Span,
    event: &ParseEvent<'de>,
) -> Result<bool, ReadStop<'de>>
    ensures goes { Goes told_stop result (begin (terms_of task.now) (suc wanted.new.depth) wanted.new.shape.0 from_events (open_of (terms_of task.now) stack.new) (span_view before) (event_of event.now)) (begin (terms_of task.now) (suc wanted.old.depth) wanted.old.shape.0 from_events (open_of (terms_of task.now) stack.old) (span_view before) (event_of event.now)) }
    ensures last { IfOk result (λ more. more ≡ false → inner_in (definition_at (registry task.now.shapes.now) wanted.new.shape.0) (event_of event.now) ≡ None) }
    ensures fewer { IfOk result (λ more. more ≡ true → wanted.new.depth < wanted.old.depth) }
    ensures own { IfErr result (λ e. IsOwn (told_stop e)) }
{
    match task.shapes.definition_at(wanted.shape) {
        Some(Def::Option(part)) => {
            if is_nothing_event(event) {
                return Ok(false);
            }
            if wanted.depth == 0 {
                return Err(too_deep(task, stack, before));
            }
            stack.open(Frame::Option)?;
            wanted.shape = *part;
            wanted.depth -= 1;
            Ok(true)
        }
        Some(Def::Transparent(part)) => {
            if wanted.depth == 0 {
                return Err(too_deep(task, stack, before));
            }
            wanted.shape = *part;
            wanted.depth -= 1;
            Ok(true)
        }
        _ => Ok(false),
    }
}

/// Begins a value that no part of it stands for.
fn begin_here<'de>(
    task: &Task<'_, '_>,
    stack: &mut Stack<'de>,
    wanted: Wanted,
    before: Span,
    event: &mut ParseEvent<'de>,
) -> Result<Moved<'de>, ReadStop<'de>>
    requires { inner_in (definition_at (registry task.now.shapes.now) wanted.shape.0) (event_of event.old) ≡ None }
    ensures exact { Gives told_stop (λ m. moved_of m (open_of (terms_of task.now) stack.new)) result (begin (terms_of task.now) (suc wanted.depth) wanted.shape.0 from_events (open_of (terms_of task.now) stack.old) (span_view before) (event_of event.old)) }
    ensures own { IfErr result (λ e. IsOwn (told_stop e)) }
{
    let form = form_of(task, wanted.shape);
    begin_form(task, stack, form, wanted, event)
}

/// Begins a value of this form.
fn begin_form<'de>(
    task: &Task<'_, '_>,
    stack: &mut Stack<'de>,
    form: Form,
    wanted: Wanted,
    event: &mut ParseEvent<'de>,
) -> Result<Moved<'de>, ReadStop<'de>>
    ensures exact { Gives told_stop (λ m. moved_of m (open_of (terms_of task.now) stack.new)) result (begin_form form (terms_of task.now) wanted.shape wanted.depth (open_of (terms_of task.now) stack.old) (event_of event.old)) }
    ensures own { IfErr result (λ e. IsOwn (told_stop e)) }
{
    match form {
        Form::Scalar(scalar) => begin_scalar(task, stack, wanted.shape, scalar, event),
        Form::Nothing => begin_nothing(task, stack),
        Form::Result(sides) => {
            let depth = wanted.depth;
            begin_result(task, stack, ResultPart { sides, depth }, event)
        }
        Form::Items(of) => begin_items(task, stack, wanted, of, event),
        Form::Tuple => begin_tuple(task, stack, wanted, event),
        Form::Object => begin_struct(task, stack, wanted, event),
        Form::Unread => Err(unread(task, stack, event)),
    }
}

/// A shape that isn't read yet.
fn unread<'e>(task: &Task<'_, '_>, stack: &Stack<'_>, event: &ParseEvent<'_>) -> ReadStop<'e>
    ensures own { IsOwn (told_stop result) }
    ensures is { IsFault (told_stop result) (fault_in (terms_of task.now) (open_of (terms_of task.now) stack.now) unexpected_token (span_of (event_of event.now))) }
{
    let span = event.span;
    let unfit = Unfit {
        got: event.kind_name(),
        expected: Expected::SupportedValue,
    };
    unexpected(task, stack, unfit, span)
}

/// An option that holds nothing.
fn begin_nothing<'de>(
    task: &Task<'_, '_>,
    stack: &mut Stack<'de>,
) -> Result<Moved<'de>, ReadStop<'de>>
    ensures exact { Gives told_stop (λ m. moved_of m (open_of (terms_of task.now) stack.new)) result (deliver (open_of (terms_of task.now) stack.old) none) }
    ensures own { IfErr result (λ e. IsOwn (told_stop e)) }
{
    deliver(task, stack, Value::None)
}

/// A scalar, or the node that stands for it.
#[tactic(auto, using(crate::proofs::Begins::scalar_begins))]
fn begin_scalar<'de>(
    task: &Task<'_, '_>,
    stack: &mut Stack<'de>,
    shape: ShapeId,
    scalar: ScalarType,
    event: &mut ParseEvent<'de>,
) -> Result<Moved<'de>, ReadStop<'de>>
    ensures exact { Gives told_stop (λ m. moved_of m (open_of (terms_of task.now) stack.new)) result (begin_scalar (terms_of task.now) (target_of (terms_of task.now) shape.0 (scalar_type_of scalar)) (open_of (terms_of task.now) stack.old) (event_of event.old)) }
    ensures own { IfErr result (λ e. IsOwn (told_stop e)) }
{
    let span = event.span;
    match begin_of(Expected::Scalar, event) {
        Begun::Scalar(value) => begin_set(task, stack, shape, scalar, value, span),
        Begun::Node => {
            let part = NodePart {
                shape,
                scalar,
                key: ArgumentKey::Absent,
                value: None,
            };
            stack.open(Frame::Node(part))?;
            Ok(Moved::To(Next::Inside))
        }
        Begun::Other(unfit) => Err(unexpected(task, stack, unfit, span)),
    }
}

/// A scalar that is set.
fn begin_set<'de>(
    task: &Task<'_, '_>,
    stack: &mut Stack<'de>,
    shape: ShapeId,
    scalar: ScalarType,
    value: ScalarValue<'de>,
    span: Span,
) -> Result<Moved<'de>, ReadStop<'de>>
    ensures exact { Gives told_stop (λ m. moved_of m (open_of (terms_of task.now) stack.new)) result (scalar_begun (as_scalar (scalar_of value.entry)) (terms_of task.now) (target_of (terms_of task.now) shape.0 (scalar_type_of scalar)) (open_of (terms_of task.now) stack.old) (span_view span)) }
    ensures own { IfErr result (λ e. IsOwn (told_stop e)) }
{
    match set_value(task, stack, shape, scalar, value, span) {
        Ok(value) => deliver(task, stack, value),
        Err(stop) => Err(stop),
    }
}

/// A result, which is an object.
#[tactic(auto, using(crate::proofs::Begins::result_begins))]
fn begin_result<'de>(
    task: &Task<'_, '_>,
    stack: &mut Stack<'de>,
    part: ResultPart,
    event: &ParseEvent<'_>,
) -> Result<Moved<'de>, ReadStop<'de>>
    ensures exact { Gives told_stop (λ m. moved_of m (open_of (terms_of task.now) stack.new)) result (begin_result (terms_of task.now) (result_of part) (open_of (terms_of task.now) stack.old) (event_of event.now)) }
    ensures own { IfErr result (λ e. IsOwn (told_stop e)) }
{
    let span = event.span;
    match fit_struct_start(Expected::ResultVariantStart, event) {
        Ok(()) => {
            stack.open(Frame::ResultKey(part))?;
            Ok(Moved::To(Next::Inside))
        }
        Err(unfit) => Err(unexpected(task, stack, unfit, span)),
    }
}

/// A list or an array, which is a sequence.
#[tactic(auto, using(crate::proofs::Begins::items_begin))]
fn begin_items<'de>(
    task: &Task<'_, '_>,
    stack: &mut Stack<'de>,
    wanted: Wanted,
    of: ItemsOf,
    event: &ParseEvent<'_>,
) -> Result<Moved<'de>, ReadStop<'de>>
    ensures exact { Gives told_stop (λ m. moved_of m (open_of (terms_of task.now) stack.new)) result (begin_items (terms_of task.now) (items_begun (terms_of task.now) wanted.shape of wanted.depth) (open_of (terms_of task.now) stack.old) (event_of event.now)) }
    ensures own { IfErr result (λ e. IsOwn (told_stop e)) }
{
    let span = event.span;
    match fit_sequence_start(items_expected(of), event) {
        Ok(()) => {
            let part = ItemsPart {
                shape: wanted.shape,
                of,
                depth: wanted.depth,
                front: Vec::new(task.alloc),
            };
            stack.open(Frame::Items(part))?;
            Ok(Moved::To(Next::Inside))
        }
        Err(unfit) => Err(unexpected(task, stack, unfit, span)),
    }
}

fn items_expected(of: ItemsOf) -> Expected {
    match of.len {
        Some(_) => Expected::ArrayStart,
        None => Expected::SequenceStart,
    }
}

/// A tuple: a sequence, an object, or nothing at all.
#[tactic(auto, using(crate::proofs::Begins::tuple_begins))]
fn begin_tuple<'de>(
    task: &Task<'_, '_>,
    stack: &mut Stack<'de>,
    wanted: Wanted,
    event: &ParseEvent<'_>,
) -> Result<Moved<'de>, ReadStop<'de>>
    ensures exact { Gives told_stop (λ m. moved_of m (open_of (terms_of task.now) stack.new)) result (begin_tuple (terms_of task.now) (tuple_begun_at (terms_of task.now) wanted.shape wanted.depth) (open_of (terms_of task.now) stack.old) (event_of event.now)) }
    ensures own { IfErr result (λ e. IsOwn (told_stop e)) }
{
    let span = event.span;
    match fit_tuple(has_no_fields(task, wanted.shape), event) {
        Ok(TupleForm::Sequence) => {
            stack.open(Frame::Elements(empty_tuple(task, wanted)))?;
            Ok(Moved::To(Next::Inside))
        }
        Ok(TupleForm::Object) => {
            stack.open(Frame::Keyed(empty_tuple(task, wanted)))?;
            Ok(Moved::To(Next::Inside))
        }
        Ok(TupleForm::Nothing) => deliver(task, stack, Value::Struct(Items::new(task.alloc))),
        Err(unfit) => Err(unexpected(task, stack, unfit, span)),
    }
}

#[tactic(auto, using(crate::proofs::Begins::none_first, crate::proofs::Begins::some_first))]
fn has_no_fields(task: &Task<'_, '_>, shape: ShapeId) -> bool
    ensures { result ≡ not (has_some (fields_at (registry task.now.shapes.now) shape.0)) }
{
    match field_at(task.shapes, shape, 0) {
        Some(_) => false,
        None => true,
    }
}

fn empty_tuple<'de>(task: &Task<'_, '_>, wanted: Wanted) -> TuplePart<'de>
    ensures begun { tuple_of (terms_of task.now) result ≡ tuple_begun_at (terms_of task.now) wanted.shape wanted.depth }
    ensures before_key { result.after_key ≡ false }
{
    TuplePart {
        shape: wanted.shape,
        depth: wanted.depth,
        front: Vec::new(task.alloc),
        after_key: false,
    }
}

/// A struct, which is an object.
#[tactic(auto, using(crate::proofs::Begins::object_begins))]
fn begin_struct<'de>(
    task: &Task<'_, '_>,
    stack: &mut Stack<'de>,
    wanted: Wanted,
    event: &ParseEvent<'_>,
) -> Result<Moved<'de>, ReadStop<'de>>
    ensures exact { Gives told_stop (λ m. moved_of m (open_of (terms_of task.now) stack.new)) result (begin_object (terms_of task.now) (struct_begun_at (terms_of task.now) wanted.shape wanted.depth) (open_of (terms_of task.now) stack.old) (event_of event.now)) }
    ensures own { IfErr result (λ e. IsOwn (told_stop e)) }
{
    let span = event.span;
    match fit_struct_start(Expected::StructStart, event) {
        Ok(()) => {
            let part = StructPart {
                shape: wanted.shape,
                depth: wanted.depth,
                filled: Vec::new(task.alloc),
                key: None,
                ordered: 0,
            };
            stack.open(Frame::Object(part))?;
            Ok(Moved::To(Next::Inside))
        }
        Err(unfit) => Err(unexpected(task, stack, unfit, span)),
    }
}
