//! What is told of a value beside its content.
ghost use Rattle.std.specs.Prelude.{◌≡◌, ◌↔◌, ◌++◌, [], ◌∷◌, Some, IsTrue, IfOk, OnOk, map, option_copied};
ghost use Rattle.std.specs.Option.{option_map};
ghost use Rattle.shape_types.specs.Texts.{phrase_of};
ghost use Rattle.event_core.specs.Metadata.{span_view, lines_of, metadata_of, built, no_metadata, nonempty, told_or, given_or};

use crate::span::Span;
use shape_types::{Items, OutOfMemory, Text};
use std::alloc::Global;

/// Lines of documentation.
pub type Docs<'de> = Items<Text<'de>>;

/// Documentation, a tag and a place, each where it was told.
#[derive(Debug, PartialEq, Eq, Drop)]
pub struct ValueMeta<'a> {
    doc: Option<Items<Text<'a>>>,
    tag: Option<Text<'a>>,
    span: Option<Span>,
}

/// Sets the parts of a [`ValueMeta`] one by one.
#[derive(Debug, Drop)]
pub struct ValueMetaBuilder<'a> {
    meta: ValueMeta<'a>,
}

/// Where the metadata of a value come from.
#[derive(Debug, Drop)]
pub enum MetaSource<'a> {
    /// These.
    Explicit(&'a ValueMeta<'a>),
    /// These, handed over.
    Owned(ValueMeta<'a>),
    /// Those of the first event of the value.
    FromEvents,
}

impl<'a> Default for ValueMeta<'a> {
    ghost use Rattle.std.specs.Prelude.{◌≡◌};
    ghost use Rattle.event_core.specs.Metadata.{metadata_of, no_metadata};

    ghost is_default = { λ meta. metadata_of meta ≡ no_metadata };

    fn default() -> ValueMeta<'a> {
        ValueMeta::empty()
    }
}

impl<'a> Default for ValueMetaBuilder<'a> {
    ghost use Rattle.std.specs.Prelude.{◌≡◌};
    ghost use Rattle.event_core.specs.Metadata.{built, no_metadata};

    ghost is_default = { λ builder. built builder ≡ no_metadata };

    fn default() -> ValueMetaBuilder<'a> {
        ValueMeta::builder()
    }
}

impl<'a> Default for MetaSource<'a> {
    ghost use Rattle.std.specs.Prelude.{◌≡◌};
    ghost use Rattle.event_core.specs.declared.metadata.MetaSource.TheVariants.{FromEvents};

    ghost is_default = { λ source. source ≡ FromEvents };

    fn default() -> MetaSource<'a> {
        MetaSource::FromEvents
    }
}

impl<'a> From<&'a ValueMeta<'a>> for MetaSource<'a> {
    ghost use Rattle.std.specs.Prelude.{◌≡◌};
    ghost use Rattle.event_core.specs.declared.metadata.MetaSource.TheVariants.{Explicit};

    ghost from_gives = { λ meta source. source ≡ Explicit meta };

    fn from(meta: &'a ValueMeta<'a>) -> MetaSource<'a> {
        MetaSource::Explicit(meta)
    }
}

impl<'a> From<ValueMeta<'a>> for MetaSource<'a> {
    ghost use Rattle.std.specs.Prelude.{◌≡◌};
    ghost use Rattle.event_core.specs.declared.metadata.MetaSource.TheVariants.{Owned};

    ghost from_gives = { λ meta source. source ≡ Owned meta };

    fn from(meta: ValueMeta<'a>) -> MetaSource<'a> {
        MetaSource::Owned(meta)
    }
}

impl<'a> ValueMeta<'a> {
    /// Begins to set parts, with nothing set.
    pub fn builder() -> ValueMetaBuilder<'a>
        ensures { built result ≡ no_metadata }
    {
        ValueMetaBuilder {
            meta: ValueMeta::empty(),
        }
    }

    /// Nothing was told.
    pub fn empty() -> ValueMeta<'a>
        ensures { metadata_of result ≡ no_metadata }
    {
        ValueMeta {
            doc: None,
            tag: None,
            span: None,
        }
    }

    /// The lines of documentation, of which there is one at least.
    pub fn doc(&self) -> Option<&[Text<'a>]>
        ensures { option_map (map phrase_of) (option_copied result) ≡ nonempty (metadata_of self.now).docs }
    {
        match &self.doc {
            None => None,
            Some(doc) => lines(doc.as_slice()),
        }
    }

    /// The tag.
    pub fn tag(&self) -> Option<&Text<'a>>
        ensures { option_map phrase_of (option_copied result) ≡ (metadata_of self.now).tag }
    {
        self.tag.as_ref()
    }

    /// The place.
    pub fn span(&self) -> Option<Span>
        ensures { option_map span_view result ≡ (metadata_of self.now).span }
    {
        self.span
    }

    /// Whether nothing was told.
    pub fn is_empty(&self) -> bool
        ensures { IsTrue result ↔ (metadata_of self.now ≡ no_metadata) }
    {
        self.doc().is_none() && self.tag.is_none() && self.span.is_none()
    }

    /// The same again. It is refused for want of memory alone.
    pub fn try_clone(&self, alloc: Global) -> Result<ValueMeta<'a>, OutOfMemory>
        ensures { IfOk result (λ copy. copy ≡ self.now) }
    {
        let doc = match clone_doc(alloc, &self.doc) {
            Ok(doc) => doc,
            Err(refused) => return Err(refused),
        };
        match clone_text(alloc, &self.tag) {
            Ok(tag) => Ok(ValueMeta {
                doc,
                tag,
                span: self.span,
            }),
            Err(refused) => {
                drop(doc);
                Err(refused)
            }
        }
    }
}

impl<'a> ValueMetaBuilder<'a> {
    /// Sets the lines of documentation, unless there is none.
    pub fn doc(self, doc: Docs<'a>) -> ValueMetaBuilder<'a>
        ensures { built result ≡ record (built self.entry) { docs = told_or (map phrase_of doc.entry) (built self.entry).docs } }
    {
        if doc.is_empty() {
            return self;
        }
        ValueMetaBuilder {
            meta: ValueMeta {
                doc: Some(doc),
                tag: self.meta.tag,
                span: self.meta.span,
            },
        }
    }

    /// Sets the lines of documentation, where there is one.
    pub fn maybe_doc(self, doc: Option<Docs<'a>>) -> ValueMetaBuilder<'a>
        ensures { built result ≡ record (built self.entry) { docs = told_or (lines_of doc.entry) (built self.entry).docs } }
    {
        match doc {
            None => self,
            Some(doc) => self.doc(doc),
        }
    }

    /// Sets the tag.
    pub fn tag(self, tag: Text<'a>) -> ValueMetaBuilder<'a>
        ensures { built result ≡ record (built self.entry) { tag = Some (phrase_of tag.entry) } }
    {
        ValueMetaBuilder {
            meta: ValueMeta {
                doc: self.meta.doc,
                tag: Some(tag),
                span: self.meta.span,
            },
        }
    }

    /// Sets the tag, where there is one.
    pub fn maybe_tag(self, tag: Option<Text<'a>>) -> ValueMetaBuilder<'a>
        ensures { built result ≡ record (built self.entry) { tag = given_or (option_map phrase_of tag.entry) (built self.entry).tag } }
    {
        match tag {
            None => self,
            Some(tag) => self.tag(tag),
        }
    }

    /// Sets the place.
    pub fn span(self, span: Span) -> ValueMetaBuilder<'a>
        ensures { built result ≡ record (built self.entry) { span = Some (span_view span) } }
    {
        ValueMetaBuilder {
            meta: ValueMeta {
                doc: self.meta.doc,
                tag: self.meta.tag,
                span: Some(span),
            },
        }
    }

    /// What was set.
    pub fn build(self) -> ValueMeta<'a>
        ensures { metadata_of result ≡ built self.entry }
    {
        self.meta
    }
}

/// The lines, where there are some.
fn lines<'s, 'a>(doc: &'s [Text<'a>]) -> Option<&'s [Text<'a>]>
    ensures { option_map (map phrase_of) (option_copied result) ≡ nonempty (map phrase_of doc.now) }
{
    if doc.is_empty() { None } else { Some(doc) }
}

/// Puts a copy of the line behind the others.
fn push_copy<'a>(
    alloc: Global,
    lines: &mut Items<Text<'a>>,
    line: &Text<'a>,
) -> Result<(), OutOfMemory>
    ensures { OnOk result (lines.new ≡ lines.old ++ line.now ∷ []) }
{
    match line.try_clone(alloc) {
        Ok(line) => lines.push(line),
        Err(refused) => Err(refused),
    }
}

/// The same lines again.
fn clone_lines<'a>(alloc: Global, doc: &[Text<'a>]) -> Result<Items<Text<'a>>, OutOfMemory>
    ensures { IfOk result (λ copy. copy ≡ doc.now) }
{
    let mut copy = Items::new(alloc);
    'lines: for line in doc {
        push_copy(alloc, &mut copy, line)?;
    }
    Ok(copy)
}

fn clone_doc<'a>(
    alloc: Global,
    doc: &Option<Items<Text<'a>>>,
) -> Result<Option<Items<Text<'a>>>, OutOfMemory>
    ensures { IfOk result (λ copy. copy ≡ doc.now) }
{
    match doc {
        None => Ok(None),
        Some(doc) => match clone_lines(alloc, doc.as_slice()) {
            Ok(doc) => Ok(Some(doc)),
            Err(refused) => Err(refused),
        },
    }
}

/// The same text again, where there is one.
pub(crate) fn clone_text<'a>(
    alloc: Global,
    text: &Option<Text<'a>>,
) -> Result<Option<Text<'a>>, OutOfMemory>
    ensures { IfOk result (λ copy. copy ≡ text.now) }
{
    match text {
        None => Ok(None),
        Some(text) => match text.try_clone(alloc) {
            Ok(text) => Ok(Some(text)),
            Err(refused) => Err(refused),
        },
    }
}
