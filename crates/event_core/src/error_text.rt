//! What errors print.
ghost use Rattle.std.specs.Prelude.{◌≡◌, take, Some};
ghost use Rattle.std.specs.Fmt.{DisplaysOnOk};
ghost use Rattle.event_core.specs.ErrorTexts.{refusal_text, token_text, number_text, utf8_text, unknown_text, with_context};

use crate::error::{DeserializeError, DeserializeErrorKind, ParseError, SerializeError};
use crate::reflect::ReflectErrorKind;
use shape_types::Name;
use std::error::Error;
use std::fmt;

impl fmt::Display for DeserializeErrorKind<'_> {
    ghost use Rattle.event_core.specs.ErrorTexts.{fault_text};

    ghost output = { fault_text };

    fn fmt<W: fmt::Write>(&self, f: &mut fmt::Formatter<W>) -> fmt::Result {
        match self {
            DeserializeErrorKind::UnexpectedChar { ch, expected } => {
                write!(f, "unexpected character {ch:?}, expected {expected}")
            }
            DeserializeErrorKind::UnexpectedEof { expected } => {
                write!(f, "unexpected end of input, expected {expected}")
            }
            DeserializeErrorKind::InvalidUtf8 {
                context,
                context_len,
            } => write_utf8(near(context, *context_len), f),
            DeserializeErrorKind::UnexpectedToken { got, expected } => {
                write_token(got.as_str(), expected, f)
            }
            DeserializeErrorKind::TypeMismatch { expected, got } => {
                let got = got.as_str();
                write!(f, "type mismatch: expected {expected}, got {got}")
            }
            DeserializeErrorKind::ShapeMismatch { expected, got } => {
                write!(f, "shape mismatch: expected {expected}, got {got}")
            }
            DeserializeErrorKind::UnknownField { field, suggestion } => {
                write_unknown(field.as_str(), suggestion, f)
            }
            DeserializeErrorKind::UnknownVariant {
                variant,
                enum_shape,
            } => {
                let variant = variant.as_str();
                write!(f, "unknown variant `{variant}` for enum `{enum_shape}`")
            }
            DeserializeErrorKind::NoMatchingVariant {
                enum_shape,
                input_kind,
            } => write!(
                f,
                "no matching variant found for enum `{enum_shape}` with {input_kind} input"
            ),
            DeserializeErrorKind::MissingField {
                field,
                container_shape,
            } => {
                let field = field.as_str();
                write!(f, "missing field `{field}` in type `{container_shape}`")
            }
            DeserializeErrorKind::DuplicateField { field, .. } => {
                let field = field.as_str();
                write!(f, "duplicate field `{field}`")
            }
            DeserializeErrorKind::NumberOutOfRange { value, target_type } => {
                write_number(value.as_str(), target_type, f)
            }
            DeserializeErrorKind::InvalidValue { message } => {
                let message = message.as_str();
                write!(f, "invalid value: {message}")
            }
            DeserializeErrorKind::CannotBorrow { reason } => f.write_str(reason.as_str()),
            DeserializeErrorKind::Reflect { kind, context } => write_refusal(kind, context, f),
            DeserializeErrorKind::Unsupported { message } => {
                let message = message.as_str();
                write!(f, "unsupported: {message}")
            }
            DeserializeErrorKind::Io { message } => {
                let message = message.as_str();
                write!(f, "I/O error: {message}")
            }
            DeserializeErrorKind::Solver { message } => {
                let message = message.as_str();
                write!(f, "solver error: {message}")
            }
            DeserializeErrorKind::Validation { field, message } => {
                let field = field.as_str();
                let message = message.as_str();
                write!(f, "validation failed for field `{field}`: {message}")
            }
            DeserializeErrorKind::Bug { error, context } => {
                let error = error.as_str();
                write!(f, "internal error: {error} while {context}")
            }
            DeserializeErrorKind::Alloc { operation } => {
                write!(f, "allocation failed: {operation}")
            }
            DeserializeErrorKind::Materialize { expected, actual } => write!(
                f,
                "shape mismatch when materializing: expected {expected}, got {actual}"
            ),
            DeserializeErrorKind::RawCaptureNotSupported { shape } => write!(
                f,
                "raw capture not supported: type `{shape}` requires raw capture, but the parser does not support it (e.g., streaming mode without buffering)"
            ),
            DeserializeErrorKind::TooDeep { limit } => { write!(f, "nesting deeper than {limit}") }
        }
    }
}

/// Its debug form is what it prints.
impl fmt::Debug for DeserializeErrorKind<'_> {
    fn fmt<W: fmt::Write>(&self, f: &mut fmt::Formatter<W>) -> fmt::Result {
        write!(f, "{self}")
    }
}

/// The first bytes, as many as there are.
fn near(context: &[u8; 16], len: u8) -> &[u8]
    ensures { result.now ≡ take len context.now }
{
    let len = usize::from(len);
    if len < 16 { &context[..len] } else { context }
}

fn write_token<W: fmt::Write>(got: &str, expected: &str, f: &mut fmt::Formatter<W>) -> fmt::Result
    ensures { DisplaysOnOk W.write_str_gives f.old result (Some (token_text got.now expected.now)) f.new }
{
    write!(f, "unexpected token: got {got}, expected {expected}")
}

fn write_number<W: fmt::Write>(number: &str, target: &str, f: &mut fmt::Formatter<W>) -> fmt::Result
    ensures { DisplaysOnOk W.write_str_gives f.old result (Some (number_text number.now target.now)) f.new }
{
    write!(f, "number `{number}` out of range for {target}")
}

fn write_utf8<W: fmt::Write>(near: &[u8], f: &mut fmt::Formatter<W>) -> fmt::Result
    ensures { DisplaysOnOk W.write_str_gives f.old result (utf8_text near.now) f.new }
{
    if near.is_empty() {
        write!(f, "invalid UTF-8")
    } else {
        write!(f, "invalid UTF-8 near: {near:?}")
    }
}

fn write_unknown<W: fmt::Write>(
    field: &str,
    suggestion: &Option<Name>,
    f: &mut fmt::Formatter<W>,
) -> fmt::Result
    ensures { DisplaysOnOk W.write_str_gives f.old result (Some (unknown_text field.now suggestion.now)) f.new }
{
    match suggestion {
        None => write!(f, "unknown field `{field}`"),
        Some(name) => {
            let name = name.as_str();
            write!(f, "unknown field `{field}` (did you mean `{name}`?)")
        }
    }
}

fn write_refusal<W: fmt::Write>(
    kind: &ReflectErrorKind,
    context: &str,
    f: &mut fmt::Formatter<W>,
) -> fmt::Result
    ensures { DisplaysOnOk W.write_str_gives f.old result (Some (with_context (refusal_text kind.now) context.now)) f.new }
{
    if context.is_empty() {
        write!(f, "{kind}")
    } else {
        write!(f, "{kind} (while {context})")
    }
}

impl Error for DeserializeErrorKind<'_> {}

impl fmt::Display for ParseError<'_> {
    ghost use Rattle.event_core.specs.ErrorTexts.{parse_error_text};

    ghost output = { parse_error_text };

    fn fmt<W: fmt::Write>(&self, f: &mut fmt::Formatter<W>) -> fmt::Result {
        let kind = &self.kind;
        let span = self.span;
        write!(f, "{kind} at {span}")
    }
}

impl Error for ParseError<'_> {}

impl fmt::Display for DeserializeError<'_> {
    ghost use Rattle.event_core.specs.ErrorTexts.{error_text};

    ghost output = { error_text };

    fn fmt<W: fmt::Write>(&self, f: &mut fmt::Formatter<W>) -> fmt::Result {
        let kind = &self.kind;
        match &self.path {
            None => write!(f, "{kind}"),
            Some(path) => write!(f, "{kind} at {path}"),
        }
    }
}

impl fmt::Debug for DeserializeError<'_> {
    fn fmt<W: fmt::Write>(&self, f: &mut fmt::Formatter<W>) -> fmt::Result {
        f.write_str("DeserializeError { span: ")?;
        write_or_none(&self.span, f)?;
        f.write_str(", path: ")?;
        write_or_none(&self.path, f)?;
        let kind = &self.kind;
        write!(f, ", kind: {kind} }}")
    }
}

/// What is there, or `none`.
fn write_or_none<T: fmt::Display, W: fmt::Write>(
    shown: &Option<T>,
    f: &mut fmt::Formatter<W>,
) -> fmt::Result {
    match shown {
        None => f.write_str("none"),
        Some(shown) => write!(f, "{shown}"),
    }
}

impl Error for DeserializeError<'_> {}

impl<E: fmt::Debug> fmt::Display for SerializeError<E> {
    ghost use Rattle.std.specs.Prelude.{Some};
    ghost use Rattle.event_core.specs.ErrorTexts.{unwritten_text};

    ghost output = { λ error. Some (unwritten_text error) };

    fn fmt<W: fmt::Write>(&self, f: &mut fmt::Formatter<W>) -> fmt::Result {
        match self {
            SerializeError::Backend(_) => f.write_str("format serializer error"),
            SerializeError::Reflect(error) => write!(f, "{error}"),
            SerializeError::Unsupported(message) => f.write_str(message.as_str()),
            SerializeError::Internal(message) => f.write_str(message.as_str()),
            SerializeError::Alloc => f.write_str("out of memory"),
        }
    }
}

impl<E: fmt::Debug + Drop> Error for SerializeError<E> {}
