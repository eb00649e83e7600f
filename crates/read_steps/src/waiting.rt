//! What has to come where no event is left.

use crate::expected::Expected;
use crate::frames::{Frame, Frames, Next};
use crate::kind::{FrameKind, kind_of};
use crate::task::Task;
use shape_core::{Def, ShapeId, Shapes};

/// What has to come next, in the words of errors, where the events end here.
pub fn expected_at_end(task: &Task<'_, '_>, frames: &Frames<'_>) -> &'static str {
    let expected = match &frames.next {
        Next::Value { shape, depth: _ } => expected_value(task.shapes, *shape),
        Next::Passed(_) => Expected::SkippedValue,
        Next::Inside => expected_inside(&frames.stack.top),
    };
    expected.text()
}

fn expected_value(shapes: &Shapes, shape: ShapeId) -> Expected {
    match shapes.definition_at(shape) {
        Some(Def::Option(_)) => Expected::OptionValue,
        Some(Def::Result { ok: _, err: _ }) => Expected::ResultStart,
        _ => Expected::Value,
    }
}

fn expected_inside(innermost: &Frame<'_>) -> Expected {
    match kind_of(innermost) {
        FrameKind::ResultKey => Expected::ResultKey,
        FrameKind::ResultEnd => Expected::ResultEnd,
        FrameKind::Node => Expected::FieldOrEnd,
        FrameKind::Argument => Expected::Argument,
        _ => Expected::Value,
    }
}
