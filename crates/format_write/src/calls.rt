//! The calls of a serializer, each as a part that is written.
ghost use Rattle.semantics_lines.specs.Calls.{begin_struct, field_key, end_struct, begin_seq, end_seq, write_scalar, literal_of};
ghost use Rattle.semantics.specs.Calling.{one_call};
ghost use Rattle.event_core.specs.Events.{scalar_of};
ghost use Rattle.format_write.specs.Writes.{Writes};

use crate::stop::Stop;
use event_core::ScalarValue;
use format_traits::FormatSerializer;

/// Begins a struct.
pub(crate) fn begin_struct<S: FormatSerializer>(serializer: &mut S) -> Result<(), Stop<S::Error>>
    ensures { Writes (one_call begin_struct) (S.made serializer.old serializer.new) (S.writing serializer.old) (S.writing serializer.new) result }
{
    match serializer.begin_struct() {
        Ok(()) => Ok(()),
        Err(stop) => Err(Stop::Refused(stop)),
    }
}

/// Writes the key of a field.
pub(crate) fn field_key<S: FormatSerializer>(
    key: &str,
    serializer: &mut S,
) -> Result<(), Stop<S::Error>>
    ensures { Writes (one_call (field_key key.now)) (S.made serializer.old serializer.new) (S.writing serializer.old) (S.writing serializer.new) result }
{
    match serializer.field_key(key) {
        Ok(()) => Ok(()),
        Err(stop) => Err(Stop::Refused(stop)),
    }
}

/// Ends the struct.
pub(crate) fn end_struct<S: FormatSerializer>(serializer: &mut S) -> Result<(), Stop<S::Error>>
    ensures { Writes (one_call end_struct) (S.made serializer.old serializer.new) (S.writing serializer.old) (S.writing serializer.new) result }
{
    match serializer.end_struct() {
        Ok(()) => Ok(()),
        Err(stop) => Err(Stop::Refused(stop)),
    }
}

/// Begins a list.
pub(crate) fn begin_seq<S: FormatSerializer>(serializer: &mut S) -> Result<(), Stop<S::Error>>
    ensures { Writes (one_call begin_seq) (S.made serializer.old serializer.new) (S.writing serializer.old) (S.writing serializer.new) result }
{
    match serializer.begin_seq() {
        Ok(()) => Ok(()),
        Err(stop) => Err(Stop::Refused(stop)),
    }
}

/// Ends the list.
pub(crate) fn end_seq<S: FormatSerializer>(serializer: &mut S) -> Result<(), Stop<S::Error>>
    ensures { Writes (one_call end_seq) (S.made serializer.old serializer.new) (S.writing serializer.old) (S.writing serializer.new) result }
{
    match serializer.end_seq() {
        Ok(()) => Ok(()),
        Err(stop) => Err(Stop::Refused(stop)),
    }
}

/// Writes a scalar.
pub(crate) fn scalar<S: FormatSerializer>(
    scalar: ScalarValue<'_>,
    serializer: &mut S,
) -> Result<(), Stop<S::Error>>
    ensures { Writes (one_call (write_scalar (literal_of (scalar_of scalar.entry)))) (S.made serializer.old serializer.new) (S.writing serializer.old) (S.writing serializer.new) result }
{
    match serializer.scalar(scalar) {
        Ok(()) => Ok(()),
        Err(stop) => Err(Stop::Refused(stop)),
    }
}
