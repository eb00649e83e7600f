//! Why something can't be read or written.
ghost use Rattle.std.specs.Prelude.{◌≡◌, true, None, Some, option_copied};
ghost use Rattle.event_core.specs.Building.{IsRefusedAs, is_memory, refused_span, refused_path};

use crate::path::Path;
use crate::reflect::{ReflectError, ReflectErrorKind};
use crate::span::Span;
use shape_types::{Name, ShapeName, Text};
use std::fmt::Debug;

/// What is wrong with the input, or with the value that it holds. `'e` is how long its texts are borrowed.
#[derive(Drop)]
pub enum DeserializeErrorKind<'e> {
    /// A character that can't stand there.
    UnexpectedChar {
        /// The character.
        ch: char,
        /// What may stand there.
        expected: &'e str,
    },
    /// The input ends too early.
    UnexpectedEof {
        /// What has to come.
        expected: &'e str,
    },
    /// A line isn't UTF-8.
    InvalidUtf8 {
        /// The first bytes of the line.
        context: [u8; 16],
        /// How many of them there are.
        context_len: u8,
    },
    /// An event that can't stand there.
    UnexpectedToken {
        /// The event.
        got: Text<'e>,
        /// What may stand there.
        expected: &'e str,
    },
    /// A value of another type.
    TypeMismatch {
        /// The type that is read.
        expected: ShapeName,
        /// What came.
        got: Text<'e>,
    },
    /// A value of another shape.
    ShapeMismatch {
        /// The shape that is read.
        expected: ShapeName,
        /// The shape that came.
        got: ShapeName,
    },
    /// A key that names no field.
    UnknownField {
        /// The key.
        field: Text<'e>,
        /// A field whose name is like it.
        suggestion: Option<Name>,
    },
    /// A tag that names no variant.
    UnknownVariant {
        /// The tag.
        variant: Text<'e>,
        /// The enum.
        enum_shape: ShapeName,
    },
    /// An untagged enum has no variant for the input.
    NoMatchingVariant {
        /// The enum.
        enum_shape: ShapeName,
        /// What the input is.
        input_kind: &'e str,
    },
    /// A field has neither a value nor a default.
    MissingField {
        /// The field.
        field: Name,
        /// The struct or the enum.
        container_shape: ShapeName,
    },
    /// A field has two values.
    DuplicateField {
        /// The key.
        field: Text<'e>,
        /// Where its first value has its key.
        first_span: Option<Span>,
    },
    /// A number is no value of its type.
    NumberOutOfRange {
        /// The number.
        value: Text<'e>,
        /// The type.
        target_type: &'e str,
    },
    /// A value that its type doesn't have.
    InvalidValue {
        /// What is wrong with it.
        message: Text<'e>,
    },
    /// A text can't be borrowed from the input.
    CannotBorrow {
        /// Why not.
        reason: Text<'e>,
    },
    /// A value can't be built.
    Reflect {
        /// Why not.
        kind: ReflectErrorKind<'e>,
        /// What was done then.
        context: &'e str,
    },
    /// A form that can't be read.
    Unsupported {
        /// The form.
        message: Text<'e>,
    },
    /// A read failed.
    Io {
        /// How it failed.
        message: Text<'e>,
    },
    /// No choice of variants fits the keys.
    Solver {
        /// Why not.
        message: Text<'e>,
    },
    /// A value is refused by a rule of its own.
    Validation {
        /// The field.
        field: Name,
        /// The rule.
        message: Text<'e>,
    },
    /// A fault of the program.
    Bug {
        /// The fault.
        error: Text<'e>,
        /// What was done then.
        context: &'e str,
    },
    /// Memory ran out.
    Alloc {
        /// What it was wanted for.
        operation: &'e str,
    },
    /// A value was built for another shape.
    Materialize {
        /// The shape that was wanted.
        expected: ShapeName,
        /// The shape that was built.
        actual: ShapeName,
    },
    /// The parser can't hand over the input as it stands.
    RawCaptureNotSupported {
        /// The shape that wants it.
        shape: ShapeName,
    },
    /// Lists, maps, structs and variants nest too deep.
    TooDeep {
        /// The depth that is allowed.
        limit: usize,
    },
}

/// What a parser answers where it can't go on. `'e` is how long its texts are borrowed.
#[derive(Debug, Drop)]
pub struct ParseError<'e> {
    /// Where it stands.
    pub span: Span,
    /// What is wrong there.
    pub kind: DeserializeErrorKind<'e>,
}

/// Why a value wasn't read. `'e` is how long its texts are borrowed.
#[derive(Drop)]
pub struct DeserializeError<'e> {
    /// Where the input has what is wrong.
    pub span: Option<Span>,
    /// The part of the value that was read then.
    pub path: Option<Path<'e>>,
    /// What is wrong.
    pub kind: DeserializeErrorKind<'e>,
}

/// Why a value wasn't written.
#[derive(Debug, Drop)]
pub enum SerializeError<E: Debug> {
    /// The format refused.
    Backend(E),
    /// The value isn't of its shape.
    Reflect(ReflectError<'static>),
    /// The value has a part without a form.
    Unsupported(Text<'static>),
    /// A fault of the program.
    Internal(Text<'static>),
    /// Memory ran out.
    Alloc,
}

impl<'e> ParseError<'e> {
    /// An error at a place.
    pub fn new(span: Span, kind: DeserializeErrorKind<'e>) -> ParseError<'e>
        ensures { result ≡ record { span = span; kind = kind.entry } }
    {
        ParseError { span, kind }
    }
}

impl<'e> DeserializeErrorKind<'e> {
    /// The error at a place, at no part of a value.
    pub fn with_span(self, span: Span) -> DeserializeError<'e>
        ensures { result ≡ record { span = Some span; path = None; kind = self.entry } }
    {
        DeserializeError {
            span: Some(span),
            path: None,
            kind: self,
        }
    }
}

impl<'e> DeserializeError<'e> {
    /// The same error at this place.
    pub fn set_span(self, span: Span) -> DeserializeError<'e>
        ensures { result ≡ record self.entry { span = Some span } }
    {
        DeserializeError {
            span: Some(span),
            path: self.path,
            kind: self.kind,
        }
    }

    /// The same error at this part of the value.
    pub fn set_path(self, path: Path<'e>) -> DeserializeError<'e>
        ensures { result ≡ record self.entry { path = Some path.entry } }
    {
        DeserializeError {
            span: self.span,
            path: Some(path),
            kind: self.kind,
        }
    }

    /// The same error at another part of the value.
    pub fn with_path(self, new_path: Path<'e>) -> DeserializeError<'e>
        ensures { result ≡ record self.entry { path = Some new_path.entry } }
    {
        self.set_path(new_path)
    }

    /// The part of the value that was read then.
    pub fn path(&self) -> Option<&Path<'e>>
        ensures { option_copied result ≡ self.now.path }
    {
        self.path.as_ref()
    }

    /// Where the input has what is wrong.
    pub fn span(&self) -> Option<&Span>
        ensures { option_copied result ≡ self.now.span }
    {
        self.span.as_ref()
    }
}

impl<'e> DeserializeError<'e> {
    /// What a refused builder is answered as, at this place.
    ///
    /// A field that isn't set is [`DeserializeErrorKind::MissingField`], and every other refusal stands as it is. Want
    /// of memory stays want of memory, which has neither a place nor a path.
    pub fn from_reflect(error: ReflectError<'e>, span: Span) -> DeserializeError<'e>
        ensures kind { IsRefusedAs error.entry.kind result.kind }
        ensures span { result.span ≡ refused_span error.entry.kind span }
        ensures path { result.path ≡ refused_path error.entry.kind error.entry.path }
    {
        let ReflectError { path, kind } = error;
        let kind = match kind {
            ReflectErrorKind::UninitializedField { shape, field } => {
                DeserializeErrorKind::MissingField {
                    field,
                    container_shape: shape,
                }
            }
            ReflectErrorKind::Alloc => return out_of_memory(),
            kind => DeserializeErrorKind::Reflect { kind, context: "" },
        };
        kind.with_span(span).set_path(path)
    }
}

fn out_of_memory<'e>() -> DeserializeError<'e>
    ensures kind { is_memory result.kind ≡ true }
    ensures nowhere { (result.span ≡ None) × (result.path ≡ None) }
{
    DeserializeError {
        span: None,
        path: None,
        kind: DeserializeErrorKind::Alloc { operation: "value" },
    }
}

impl<'e> From<ParseError<'e>> for DeserializeError<'e> {
    ghost use Rattle.std.specs.Prelude.{◌≡◌, None, Some};

    ghost from_gives = { λ error given. given ≡ record { span = Some error.span; path = None; kind = error.kind } };

    fn from(error: ParseError<'e>) -> DeserializeError<'e> {
        error.kind.with_span(error.span)
    }
}
