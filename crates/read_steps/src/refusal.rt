//! Why a value is refused, as a fault of what is read.
ghost use Rattle.std.specs.Prelude.{◌≡◌, [], Some, IfOk, Err};
ghost use Rattle.semantics_lines.specs.Events.{no_span};
ghost use Rattle.semantics_lines.specs.Faults.{unexpected_token, bug, too_deep, array_length, too_many_elements, reflect};
ghost use Rattle.semantics.specs.Labels.{label_at};
ghost use Rattle.shape_types.specs.Shapes.{registry};
ghost use Rattle.event_core.specs.Faults.{fault_kind_of, refusal_of, label_of};
ghost use Rattle.event_core.specs.Metadata.{span_view};
ghost use Rattle.laws_machine.specs.Delivery.{Status, no_step};
ghost use Rattle.read_steps.specs.Refusals.{fault_in};
ghost use Rattle.read_steps.specs.Stops.{told_stop, IsFault, IsOwn, Gives};
ghost use Rattle.read_steps.specs.Tasks.{terms_of};
ghost use Rattle.read_steps.specs.Views.{open_of, place_of};

use crate::expected::Unfit;
use crate::path::path_to;
use crate::stack::{Place, Stack};
use crate::stop::ReadStop;
use crate::task::Task;
use event_core::{DeserializeError, DeserializeErrorKind, Path, ReflectErrorKind, Span};
use shape_core::{Name, OutOfMemory, ShapeId, ShapeName, Text};

/// A fault at a place of the input, of what is read there.
pub fn refusal<'e>(
    task: &Task<'_, '_>,
    place: Place<'_, '_>,
    kind: DeserializeErrorKind<'e>,
    span: Span,
) -> ReadStop<'e>
    ensures own { IsOwn (told_stop result) }
    ensures is { IsFault (told_stop result) (fault_in (terms_of task.now) (place_of (terms_of task.now) place.entry) (fault_kind_of kind.entry) (span_view span)) }
{
    match path_to(task, place) {
        Ok(path) => ReadStop::fault(task.alloc, placed(kind, span, path)),
        Err(_) => {
            drop(kind);
            ReadStop::Alloc
        }
    }
}

/// A fault at a place of the input, at this path.
fn placed<'e>(kind: DeserializeErrorKind<'e>, span: Span, path: Path<'e>) -> DeserializeError<'e>
    ensures { result ≡ record { span = Some span; path = Some path.entry; kind = kind.entry } }
{
    kind.with_span(span).set_path(path)
}

/// An event that can't stand there.
pub fn unexpected<'e>(
    task: &Task<'_, '_>,
    stack: &Stack<'_>,
    unfit: Unfit,
    span: Span,
) -> ReadStop<'e>
    ensures own { IsOwn (told_stop result) }
    ensures is { IsFault (told_stop result) (fault_in (terms_of task.now) (open_of (terms_of task.now) stack.now) unexpected_token (span_view span)) }
{
    let kind = DeserializeErrorKind::UnexpectedToken {
        got: Text::Borrowed(unfit.got),
        expected: unfit.expected.text(),
    };
    refusal(task, stack.inside(), kind, span)
}

/// No depth is left.
pub fn too_deep<'e>(task: &Task<'_, '_>, stack: &Stack<'_>, span: Span) -> ReadStop<'e>
    ensures own { IsOwn (told_stop result) }
    ensures is { IsFault (told_stop result) (fault_in (terms_of task.now) (open_of (terms_of task.now) stack.now) (too_deep task.now.limit) (span_view span)) }
{
    let kind = DeserializeErrorKind::TooDeep { limit: task.limit };
    refusal(task, stack.inside(), kind, span)
}

/// What no event and no value comes to.
pub fn never<'e>(task: &Task<'_, '_>, place: Place<'_, '_>, span: Span) -> ReadStop<'e>
    ensures own { IsOwn (told_stop result) }
    ensures is { IsFault (told_stop result) (fault_in (terms_of task.now) (place_of (terms_of task.now) place.entry) bug (span_view span)) }
{
    let kind = DeserializeErrorKind::Bug {
        error: Text::Borrowed("nothing comes there"),
        context: "",
    };
    refusal(task, place, kind, span)
}

/// The same, where not even a frame is open for it.
pub fn no_step<'e>(task: &Task<'_, '_>) -> ReadStop<'e>
    ensures own { IsOwn (told_stop result) }
    ensures is { Gives {Y = Status} told_stop (λ s. s) (Err result) no_step }
{
    let kind = DeserializeErrorKind::Bug {
        error: Text::Borrowed("nothing is open"),
        context: "",
    };
    let span = Span { offset: 0, len: 0 };
    ReadStop::fault(
        task.alloc,
        kind.with_span(span).set_path(Path::new(task.alloc)),
    )
}

/// A tuple has no more items.
pub fn too_many<'e>(
    task: &Task<'_, '_>,
    place: Place<'_, '_>,
    shape: ShapeId,
    count: usize,
    span: Span,
) -> ReadStop<'e>
    ensures own { IsOwn (told_stop result) }
    ensures is { IsFault (told_stop result) (fault_in (terms_of task.now) (place_of (terms_of task.now) place.entry) (reflect (too_many_elements (label_at (registry task.now.shapes.now) shape.0) count) []) (span_view span)) }
{
    match shape_name(task, shape) {
        Ok(shape) => refusal(
            task,
            place,
            reflected(ReflectErrorKind::TooManyElements { shape, count }),
            span,
        ),
        Err(_) => ReadStop::Alloc,
    }
}

/// An array has another number of items.
pub fn other_length<'e>(
    task: &Task<'_, '_>,
    place: Place<'_, '_>,
    shape: ShapeId,
    wanted: u32,
    got: usize,
    span: Span,
) -> ReadStop<'e>
    ensures own { IsOwn (told_stop result) }
    ensures is { IsFault (told_stop result) (fault_in (terms_of task.now) (place_of (terms_of task.now) place.entry) (reflect (array_length (label_at (registry task.now.shapes.now) shape.0) wanted got) []) (span_view span)) }
{
    match shape_name(task, shape) {
        Ok(shape) => {
            let kind = ReflectErrorKind::ArrayLength {
                shape,
                expected: wanted as usize,
                got,
            };
            refusal(task, place, reflected(kind), span)
        }
        Err(_) => ReadStop::Alloc,
    }
}

fn reflected<'e>(kind: ReflectErrorKind<'e>) -> DeserializeErrorKind<'e>
    ensures { fault_kind_of result ≡ reflect (refusal_of kind.entry) [] }
{
    DeserializeErrorKind::Reflect { kind, context: "" }
}

/// The shape of this number, by its name; one that isn't there has none.
pub fn shape_name(task: &Task<'_, '_>, shape: ShapeId) -> Result<ShapeName, OutOfMemory>
    ensures { IfOk result (λ name. label_of name ≡ label_at (registry task.now.shapes.now) shape.0) }
{
    let name = match task.shapes.get(shape) {
        Some(found) => found.name.try_clone(task.alloc)?,
        None => Name::copy(task.alloc, "")?,
    };
    Ok(ShapeName { id: shape, name })
}
