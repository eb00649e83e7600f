//! Why the writing stops.
use format_traits::WriteStop;

/// Why a part of a value isn't written.
#[derive(Debug, Drop)]
pub(crate) enum Stop<E> {
    /// The serializer refused a call.
    Refused(WriteStop<E>),
    /// The part has no written form.
    NoForm,
}
