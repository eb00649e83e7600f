//! What the refusals of a builder print.
use crate::reflect::{ReflectError, ReflectErrorKind};
use std::error::Error;
use std::fmt;

impl fmt::Display for ReflectErrorKind<'_> {
    ghost use Rattle.std.specs.Prelude.{Some};
    ghost use Rattle.event_core.specs.ErrorTexts.{refusal_text};

    ghost output = { λ kind. Some (refusal_text kind) };

    fn fmt<W: fmt::Write>(&self, f: &mut fmt::Formatter<W>) -> fmt::Result {
        match self {
            ReflectErrorKind::UninitializedField { shape, field } => {
                let field = field.as_str();
                write!(f, "field `{field}` of {shape} not set")
            }
            ReflectErrorKind::ParseFailed { shape, text } => {
                let text = text.as_str();
                write!(f, "failed to parse `{text}` as {shape}")
            }
            ReflectErrorKind::NoSuchVariant { shape, name } => {
                let name = name.as_str();
                write!(f, "no variant `{name}` in {shape}")
            }
            ReflectErrorKind::NoSuchDiscriminant {
                shape,
                discriminant,
            } => write!(f, "no variant with discriminant {discriminant} in {shape}"),
            ReflectErrorKind::WrongKind { shape, got } => {
                write!(f, "wrong kind: got {got}, expected {shape}")
            }
            ReflectErrorKind::NoDefault { shape } => write!(f, "{shape} has no default"),
            ReflectErrorKind::ArrayLength {
                shape,
                expected,
                got,
            } => write!(f, "array {shape} of {expected} items got {got}"),
            ReflectErrorKind::TooManyElements { shape, count } => {
                write!(f, "more than {count} elements for {shape}")
            }
            ReflectErrorKind::KeyForm { shape } => write!(f, "{shape} can't be a map key"),
            ReflectErrorKind::Alloc => f.write_str("out of memory"),
        }
    }
}

/// Its debug form is what it prints.
impl fmt::Debug for ReflectErrorKind<'_> {
    fn fmt<W: fmt::Write>(&self, f: &mut fmt::Formatter<W>) -> fmt::Result {
        write!(f, "{self}")
    }
}

impl Error for ReflectErrorKind<'_> {}

impl fmt::Display for ReflectError<'_> {
    ghost use Rattle.std.specs.Prelude.{Some};
    ghost use Rattle.event_core.specs.ErrorTexts.{reflect_error_text};

    ghost output = { λ error. Some (reflect_error_text error) };

    fn fmt<W: fmt::Write>(&self, f: &mut fmt::Formatter<W>) -> fmt::Result {
        let kind = &self.kind;
        let path = &self.path;
        write!(f, "{kind} at {path}")
    }
}

impl Error for ReflectError<'_> {}
