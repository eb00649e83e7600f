//! Reading a line: its event.
ghost use Rattle.std.specs.Prelude.{◌≡◌, [], Some, None, IfOk, MatchOption};
ghost use Rattle.std.specs.Option.{option_map};
ghost use Rattle.event_core.specs.Events.{event_of as view_of, event_from as kind_view};
ghost use Rattle.event_core.specs.Keys.{full_key, key_of};
ghost use Rattle.event_core.specs.Metadata.{span_view, metadata_of, note_view};
ghost use Rattle.semantics_lines.specs.Events.{Note, Span as Place};
ghost use Rattle.shape_types.specs.Texts.{phrase_of};
ghost use Rattle.tape_text.specs.Bodies.{names, takes_metadata};
ghost use Rattle.tape_text.specs.Reading.{told, noted, line_note, key_with, event_from, event_with, completed, event_of};
ghost use Rattle.tape_text.specs.Suffixes.{metadata};
ghost use Rattle.tape_text.specs.Views.{body_of};

use crate::body::LineBody;
use crate::letters::body_at;
use crate::suffix::metadata_at;
use event_core::{
    ContainerKind, FieldKey, FieldLocationHint, FullFieldKey, ParseEvent, ParseEventKind,
    ScalarValue, Span, ValueMeta,
};
use shape_types::{Boxed, OutOfMemory, Text};
use std::alloc::Global;

/// Metadata may stand behind the body.
fn takes_metadata(body: &LineBody<'_>) -> bool
    ensures { result ≡ takes_metadata (body_of body.now) }
{
    match body {
        LineBody::StructStart | LineBody::SequenceStart => true,
        LineBody::StructEnd | LineBody::SequenceEnd | LineBody::OrderedField => false,
        LineBody::Key(_) | LineBody::Tag(_) => true,
        LineBody::Scalar(ScalarValue::Bytes(bytes)) => !bytes.as_slice().is_empty(),
        LineBody::Scalar(_) => true,
    }
}

/// The metadata, where they tell something.
fn told(meta: ValueMeta<'_>) -> Option<ValueMeta<'_>>
    ensures { option_map metadata_of result ≡ told (metadata_of meta.entry) }
{
    if meta.is_empty() {
        drop(meta);
        None
    } else {
        Some(meta)
    }
}

/// An event with its metadata, where they tell something.
fn noted<'de>(kind: ParseEventKind<'de>, span: Span, meta: ValueMeta<'de>) -> ParseEvent<'de>
    ensures kind { result.kind ≡ kind.entry }
    ensures note { note_view result.span result.meta ≡ noted (span_view span) (metadata_of meta.entry) }
{
    ParseEvent {
        kind,
        span,
        meta: told(meta),
    }
}

/// A key with metadata, perhaps without a name.
fn full_key<'de>(
    alloc: Global,
    name: Option<Text<'de>>,
    meta: ValueMeta<'de>,
) -> Result<FieldKey<'de>, OutOfMemory>
    ensures { IfOk result (λ key. (n : Note) → key_of key n ≡ full_key (option_map phrase_of name.entry) (metadata_of meta.entry) n) }
{
    let full = FullFieldKey {
        name,
        location: FieldLocationHint::KeyValue,
        meta,
    };
    Ok(FieldKey::Full(Boxed::new(alloc, full)?))
}

/// A key with a name, which is the name alone where nothing is told beside it.
fn named<'de>(
    alloc: Global,
    name: Text<'de>,
    meta: ValueMeta<'de>,
) -> Result<FieldKey<'de>, OutOfMemory>
    ensures { IfOk result (λ key. (n : Note) → key_of key n ≡ key_with (Some (phrase_of name.entry)) (metadata_of meta.entry) n) }
{
    if meta.is_empty() {
        drop(meta);
        Ok(FieldKey::Name(name))
    } else {
        full_key(alloc, Some(name), meta)
    }
}

/// A key, which is a name alone where it has one and nothing is told beside it.
fn keyed<'de>(
    alloc: Global,
    name: Option<Text<'de>>,
    meta: ValueMeta<'de>,
) -> Result<FieldKey<'de>, OutOfMemory>
    ensures { IfOk result (λ key. (n : Note) → key_of key n ≡ key_with (option_map phrase_of name.entry) (metadata_of meta.entry) n) }
{
    match name {
        None => full_key(alloc, None, meta),
        Some(name) => named(alloc, name, meta),
    }
}

/// The event of a body and of what is told behind it.
fn event_from<'de>(
    alloc: Global,
    body: LineBody<'de>,
    meta: ValueMeta<'de>,
    span: Span,
) -> Result<ParseEvent<'de>, OutOfMemory>
    ensures { IfOk result (λ event. view_of event ≡ event_from (body_of body.entry) (span_view span) (metadata_of meta.entry)) }
{
    match body {
        LineBody::StructStart => {
            let kind = ParseEventKind::StructStart(ContainerKind::Object);
            Ok(noted(kind, span, meta))
        }
        LineBody::StructEnd => Ok(noted(ParseEventKind::StructEnd, span, meta)),
        LineBody::SequenceStart => {
            let kind = ParseEventKind::SequenceStart(ContainerKind::Array);
            Ok(noted(kind, span, meta))
        }
        LineBody::SequenceEnd => Ok(noted(ParseEventKind::SequenceEnd, span, meta)),
        LineBody::OrderedField => Ok(noted(ParseEventKind::OrderedField, span, meta)),
        LineBody::Key(name) => match keyed(alloc, name, meta) {
            Ok(key) => Ok(ParseEvent::new(ParseEventKind::FieldKey(key), span)),
            Err(refused) => Err(refused),
        },
        LineBody::Tag(name) => Ok(noted(ParseEventKind::VariantTag(name), span, meta)),
        LineBody::Scalar(value) => Ok(noted(ParseEventKind::Scalar(value), span, meta)),
    }
}

/// The event of a body and of the metadata behind it. None where no metadata may stand there.
fn event_with<'de>(
    alloc: Global,
    body: LineBody<'de>,
    meta: ValueMeta<'de>,
    span: Span,
) -> Result<Option<ParseEvent<'de>>, OutOfMemory>
    ensures { IfOk result (λ found. option_map view_of found ≡ event_with (body_of body.entry) (span_view span) (metadata_of meta.entry)) }
{
    if !takes_metadata(&body) && !meta.is_empty() {
        drop(body);
        drop(meta);
        return Ok(None);
    }
    match event_from(alloc, body, meta, span) {
        Ok(event) => Ok(Some(event)),
        Err(refused) => Err(refused),
    }
}

/// The event of a body alone.
fn bare<'de>(alloc: Global, body: LineBody<'de>, span: Span) -> Result<ParseEvent<'de>, OutOfMemory>
    ensures { IfOk result (λ event. view_of event ≡ event_from (body_of body.entry) (span_view span) (metadata None [])) }
{
    match bare_kind(body) {
        Some(kind) => Ok(ParseEvent::new(kind, span)),
        None => match full_key(alloc, None, ValueMeta::empty()) {
            Ok(key) => Ok(ParseEvent::new(ParseEventKind::FieldKey(key), span)),
            Err(refused) => Err(refused),
        },
    }
}

/// What a body alone is as an event. None for a key without a name.
fn bare_kind<'de>(body: LineBody<'de>) -> Option<ParseEventKind<'de>>
    ensures { MatchOption result (body_of body.entry ≡ names None) (λ kind. (span : Place) → kind_view kind (line_note span) ≡ event_from (body_of body.entry) span (metadata None [])) }
{
    match body {
        LineBody::StructStart => Some(ParseEventKind::StructStart(ContainerKind::Object)),
        LineBody::StructEnd => Some(ParseEventKind::StructEnd),
        LineBody::SequenceStart => Some(ParseEventKind::SequenceStart(ContainerKind::Array)),
        LineBody::SequenceEnd => Some(ParseEventKind::SequenceEnd),
        LineBody::OrderedField => Some(ParseEventKind::OrderedField),
        LineBody::Key(Some(name)) => Some(ParseEventKind::FieldKey(FieldKey::Name(name))),
        LineBody::Key(None) => None,
        LineBody::Tag(name) => Some(ParseEventKind::VariantTag(name)),
        LineBody::Scalar(value) => Some(ParseEventKind::Scalar(value)),
    }
}

/// The event of a body and of the text behind it. None where no metadata are spelled so, or may stand there.
fn completed<'de>(
    alloc: Global,
    body: LineBody<'de>,
    rest: &'de str,
    span: Span,
) -> Result<Option<ParseEvent<'de>>, OutOfMemory>
    ensures { IfOk result (λ found. option_map view_of found ≡ completed (span_view span) (body_of body.entry, rest.now)) }
{
    if rest.is_empty() {
        return match bare(alloc, body, span) {
            Ok(event) => Ok(Some(event)),
            Err(refused) => Err(refused),
        };
    }
    match metadata_at(alloc, rest) {
        Ok(Some(meta)) => event_with(alloc, body, meta, span),
        Ok(None) => {
            drop(body);
            Ok(None)
        }
        Err(refused) => {
            drop(body);
            Err(refused)
        }
    }
}

/// The event of the line that stands there, none where no event has this line.
///
/// Its texts lie in the line where they need no spelling.
#[tactic(auto, unfolding(crate::specs::Reading::event_of))]
pub fn event_of<'de>(
    alloc: Global,
    line: &'de str,
    span: Span,
) -> Result<Option<ParseEvent<'de>>, OutOfMemory>
    ensures { IfOk result (λ found. option_map view_of found ≡ event_of (span_view span) line.now) }
{
    match body_at(alloc, line) {
        Ok(Some((body, rest))) => completed(alloc, body, rest, span),
        Ok(None) => Ok(None),
        Err(refused) => Err(refused),
    }
}
