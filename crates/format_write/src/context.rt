//! The calls that write a value.
ghost use Rattle.std.specs.Prelude.{◌≡◌};
ghost use Rattle.semantics.specs.Calling.{calls_of};
ghost use Rattle.shape_types.specs.Trees.{tree_of};
ghost use Rattle.format_write.specs.Wrote.{Wrote, writer};

use crate::stop::Stop;
use crate::values::write_value;
use event_core::SerializeError;
use format_traits::{FormatSerializer, WriteStop};
use shape_core::{ShapeId, Shapes, Text, Value};
use std::alloc::Global;

/// Makes the calls that write a value of the shape.
///
/// It answers `Unsupported` where a part of the value has no written form, and all calls before that part are made.
/// It answers `Backend` where the serializer refuses a call, and `Alloc` where memory runs out in one. `Reflect` and
/// `Internal` never come. No form of today takes memory to be written: `alloc` is for those to come.
pub fn serialize_root<S: FormatSerializer>(
    _alloc: Global,
    shapes: &Shapes,
    root: ShapeId,
    value: &Value<'_>,
    serializer: &mut S,
) -> Result<(), SerializeError<S::Error>>
    ensures { Wrote (calls_of (writer (S.writing serializer.old).settings shapes.now) root.0 (tree_of value.now)) (S.made serializer.old serializer.new) (S.writing serializer.old) (S.writing serializer.new) result }
{
    match write_value(shapes, root, value, serializer) {
        Ok(()) => Ok(()),
        Err(Stop::Refused(WriteStop::Alloc)) => Err(SerializeError::Alloc),
        Err(Stop::Refused(WriteStop::Fault(error))) => Err(SerializeError::Backend(error)),
        Err(Stop::NoForm) => Err(SerializeError::Unsupported(Text::Borrowed(
            "a value without a written form",
        ))),
    }
}

/// A serializer, with the shapes of the values that are written to it. `'v` is how long texts of declared defaults are
/// borrowed.
#[derive(Drop)]
pub struct SerializeContext<'s, 'v, S> {
    alloc: Global,
    shapes: &'s Shapes<'v>,
    serializer: &'s mut S,
}

impl<'s, 'v, S> SerializeContext<'s, 'v, S> {
    /// A context that writes values of these shapes to the serializer.
    pub fn new(
        alloc: Global,
        shapes: &'s Shapes<'v>,
        serializer: &'s mut S,
    ) -> SerializeContext<'s, 'v, S>
        ensures shapes { result.shapes ≡ shapes.entry }
        ensures serializer { result.serializer.now ≡ serializer.old }
        ensures same_serializer { result.serializer.ghost_name ≡ serializer.entry.ghost_name }
    {
        SerializeContext {
            alloc,
            shapes,
            serializer,
        }
    }
}

impl<S: FormatSerializer> SerializeContext<'_, '_, S> {
    /// Makes the calls that write a value of the shape, as [`serialize_root`] does.
    pub fn serialize(
        &mut self,
        shape: ShapeId,
        value: &Value<'_>,
    ) -> Result<(), SerializeError<S::Error>>
        ensures wrote { Wrote (calls_of (writer (S.writing self.old.serializer.now).settings self.old.shapes.now) shape.0 (tree_of value.now)) (S.made self.old.serializer.now self.new.serializer.now) (S.writing self.old.serializer.now) (S.writing self.new.serializer.now) result }
        ensures shapes { self.new.shapes ≡ self.old.shapes }
        ensures same_serializer { self.new.serializer.ghost_name ≡ self.old.serializer.ghost_name }
    {
        serialize_root(self.alloc, self.shapes, shape, value, &mut *self.serializer)
    }
}
