//! Sets scalars.
ghost use Rattle.std.specs.Prelude.{◌≡◌, IfErr, None};
ghost use Rattle.semantics_lines.specs.Faults.{out_of_memory};
ghost use Rattle.shape_types.specs.Scalars.{scalar_type_of};
ghost use Rattle.shape_types.specs.Trees.{tree_of};
ghost use Rattle.event_core.specs.Events.{scalar_of};
ghost use Rattle.event_core.specs.Faults.{fault_kind_of};
ghost use Rattle.event_core.specs.Metadata.{span_view};
ghost use Rattle.laws_reading.specs.Nodes.{set_at};
ghost use Rattle.laws_reading.specs.Values.{target_of};
ghost use Rattle.laws_machine.specs.Delivery.{here};
ghost use Rattle.laws_machine.specs.Frames.{path};
ghost use Rattle.read_steps.specs.Refusals.{fault_in};
ghost use Rattle.read_steps.specs.Stops.{told_stop, Gives, IsFault, IsOwn};
ghost use Rattle.read_steps.specs.Tasks.{terms_of};
ghost use Rattle.read_steps.specs.Views.{open_of};

use crate::refusal::refusal;
use crate::stack::Stack;
use crate::stop::{ReadStop, is_memory};
use crate::task::Task;
use event_core::{DeserializeErrorKind, ScalarValue, Span};
use read_parts::typed_value;
use shape_core::{ScalarType, ShapeId, Value};

/// The value that a scalar sets, which stands there.
pub fn set_value<'de>(
    task: &Task<'_, '_>,
    stack: &Stack<'_>,
    shape: ShapeId,
    target: ScalarType,
    scalar: ScalarValue<'de>,
    span: Span,
) -> Result<Value<'de>, ReadStop<'de>>
    ensures exact { Gives told_stop (λ v. (tree_of v, here (span_view span))) result (set_at (target_of (terms_of task.now) shape.0 (scalar_type_of target)) (scalar_of scalar.entry) (path (terms_of task.now) (open_of (terms_of task.now) stack.now)) (here (span_view span))) }
    ensures own { IfErr result (λ e. IsOwn (told_stop e)) }
{
    match typed_value(task.alloc, task.shapes, shape, target, scalar, task.borrow) {
        Ok(value) => Ok(value),
        Err(kind) => Err(refused_set(task, stack, kind, span)),
    }
}

/// The fault of a scalar that isn't set, unless memory ran out.
fn refused_set<'e>(
    task: &Task<'_, '_>,
    stack: &Stack<'_>,
    kind: DeserializeErrorKind<'e>,
    span: Span,
) -> ReadStop<'e>
    ensures own { IsOwn (told_stop result) }
    ensures is { IsFault (told_stop result) (fault_in (terms_of task.now) (open_of (terms_of task.now) stack.now) (fault_kind_of kind.entry) (span_view span)) }
    ensures memory { fault_kind_of kind.entry ≡ out_of_memory → told_stop result ≡ None }
{
    if is_memory(&kind) {
        drop(kind);
        return ReadStop::Alloc;
    }
    refusal(task, stack.inside(), kind, span)
}
