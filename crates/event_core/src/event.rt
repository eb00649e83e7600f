//! Events: what a parser gives, one by one.
ghost use Rattle.std.specs.Prelude.{◌≡◌, IfOk, None};
ghost use Rattle.event_core.specs.Metadata.{metadata_of, built, no_metadata};
ghost use Rattle.event_core.specs.Kinds.{container_name, kind_text};
ghost use Rattle.event_core.specs.Building.{HasTold};
ghost use Rattle.event_core.specs.declared.metadata.ValueMetaBuilder.{ValueMetaBuilder};

use crate::key::FieldKey;
use crate::metadata::{ValueMeta, ValueMetaBuilder};
use crate::scalar::ScalarValue;
use crate::span::Span;
use shape_types::OutOfMemory;
use std::alloc::Global;
use std::fmt;

/// What a start says that it opens.
#[derive(Debug, Clone, Copy, PartialEq, Eq)]
pub enum ContainerKind {
    /// Entries with keys.
    Object,
    /// Items.
    Array,
}

/// What an event is.
#[derive(Debug, PartialEq, Eq, Drop)]
pub enum ParseEventKind<'de> {
    /// A struct or a map begins.
    StructStart(ContainerKind),
    /// It ends.
    StructEnd,
    /// The key of an entry, before its value.
    FieldKey(FieldKey<'de>),
    /// In place of a key: the value is that of the next field.
    OrderedField,
    /// A list begins.
    SequenceStart(ContainerKind),
    /// It ends.
    SequenceEnd,
    /// A value without parts.
    Scalar(ScalarValue<'de>),
    /// The tag of a variant, before its content.
    VariantTag(Option<&'de str>),
}

/// An event, its place, and what is told beside it.
#[derive(PartialEq, Eq, Drop)]
pub struct ParseEvent<'de> {
    /// What it is.
    pub kind: ParseEventKind<'de>,
    /// Where it stands.
    pub span: Span,
    /// Documentation, a tag and a place, where they were told.
    pub meta: Option<ValueMeta<'de>>,
}

impl ContainerKind {
    /// What it is, in a word.
    pub fn name(self) -> &'static str
        ensures { result.now ≡ container_name self }
    {
        match self {
            ContainerKind::Object => "object",
            ContainerKind::Array => "array",
        }
    }
}

impl<'de> ParseEventKind<'de> {
    /// What it is, in a word or two.
    pub fn kind_name(&self) -> &'static str
        ensures { result.now ≡ kind_text self.now }
    {
        match self {
            ParseEventKind::StructStart(_) => "struct start",
            ParseEventKind::StructEnd => "struct end",
            ParseEventKind::FieldKey(_) => "field key",
            ParseEventKind::OrderedField => "ordered field",
            ParseEventKind::SequenceStart(_) => "sequence start",
            ParseEventKind::SequenceEnd => "sequence end",
            ParseEventKind::Scalar(_) => "scalar",
            ParseEventKind::VariantTag(_) => "variant tag",
        }
    }

    /// The same kind again. It is refused for want of memory alone.
    pub fn try_clone(&self, alloc: Global) -> Result<ParseEventKind<'de>, OutOfMemory>
        ensures { IfOk result (λ copy. copy ≡ self.now) }
    {
        match self {
            ParseEventKind::StructStart(kind) => Ok(ParseEventKind::StructStart(*kind)),
            ParseEventKind::StructEnd => Ok(ParseEventKind::StructEnd),
            ParseEventKind::FieldKey(key) => match key.try_clone(alloc) {
                Ok(key) => Ok(ParseEventKind::FieldKey(key)),
                Err(refused) => Err(refused),
            },
            ParseEventKind::OrderedField => Ok(ParseEventKind::OrderedField),
            ParseEventKind::SequenceStart(kind) => Ok(ParseEventKind::SequenceStart(*kind)),
            ParseEventKind::SequenceEnd => Ok(ParseEventKind::SequenceEnd),
            ParseEventKind::Scalar(value) => match value.try_clone(alloc) {
                Ok(value) => Ok(ParseEventKind::Scalar(value)),
                Err(refused) => Err(refused),
            },
            ParseEventKind::VariantTag(name) => Ok(ParseEventKind::VariantTag(*name)),
        }
    }
}

impl<'de> ParseEvent<'de> {
    /// An event without metadata.
    pub fn new(kind: ParseEventKind<'de>, span: Span) -> ParseEvent<'de>
        ensures { result ≡ record { kind = kind.entry; span = span; meta = None } }
    {
        ParseEvent {
            kind,
            span,
            meta: None,
        }
    }

    /// Sets the metadata that `f` builds, where it sets a part. The builder that `f` is given has nothing set.
    pub fn with_meta<F: FnOnce(ValueMetaBuilder<'de>) -> ValueMetaBuilder<'de>>(
        self,
        f: F,
    ) -> ParseEvent<'de>
        requires { (start : ValueMetaBuilder) → built start ≡ no_metadata → F.pre f start }
        ensures { (start : ValueMetaBuilder) × (made : ValueMetaBuilder) × (built start ≡ no_metadata) × F.post f start made × HasTold (built made) self.entry result }
    {
        let built = f(ValueMeta::builder()).build();
        self.told(built)
    }

    /// The same event with this metadata, unless it tells nothing.
    fn told(self, meta: ValueMeta<'de>) -> ParseEvent<'de>
        ensures { HasTold (metadata_of meta.entry) self.entry result }
    {
        if meta.is_empty() {
            drop(meta);
            return self;
        }
        let ParseEvent {
            kind,
            span,
            meta: before,
        } = self;
        drop(before);
        ParseEvent {
            kind,
            span,
            meta: Some(meta),
        }
    }

    /// What it is, in a word or two.
    pub fn kind_name(&self) -> &'static str
        ensures { result.now ≡ kind_text self.now.kind }
    {
        self.kind.kind_name()
    }

    /// The same event again. It is refused for want of memory alone.
    pub fn try_clone(&self, alloc: Global) -> Result<ParseEvent<'de>, OutOfMemory>
        ensures { IfOk result (λ copy. copy ≡ self.now) }
    {
        let kind = match self.kind.try_clone(alloc) {
            Ok(kind) => kind,
            Err(refused) => return Err(refused),
        };
        match clone_meta(alloc, &self.meta) {
            Ok(meta) => Ok(ParseEvent {
                kind,
                span: self.span,
                meta,
            }),
            Err(refused) => {
                drop(kind);
                Err(refused)
            }
        }
    }
}

impl<'de> fmt::Debug for ParseEvent<'de> {
    fn fmt<W: fmt::Write>(&self, f: &mut fmt::Formatter<W>) -> fmt::Result {
        let kind = &self.kind;
        let span = self.span;
        write!(f, "{kind:?}@{span}")
    }
}

fn clone_meta<'de>(
    alloc: Global,
    meta: &Option<ValueMeta<'de>>,
) -> Result<Option<ValueMeta<'de>>, OutOfMemory>
    ensures { IfOk result (λ copy. copy ≡ meta.now) }
{
    match meta {
        None => Ok(None),
        Some(meta) => match meta.try_clone(alloc) {
            Ok(meta) => Ok(Some(meta)),
            Err(refused) => Err(refused),
        },
    }
}
