//! What a parser answers, in words.
use event_core::{FieldKey, FullFieldKey, ParseError, ParseEvent, ParseEventKind, Span, ValueMeta};
use format_traits::FormatParser;
use std::alloc::{AllocError, Global};
use std::process::Abort;
use tape_text::TapeParser;

/// What is told beside an event or a key.
fn put_meta(out: &mut String, meta: &ValueMeta<'_>) -> Result<(), AllocError> {
    if let Some(tag) = meta.tag() {
        write!(out, " tag {tag:?}")?;
    }
    if let Some(docs) = meta.doc() {
        'docs: for doc in docs {
            write!(out, " doc {doc:?}")?;
        }
    }
    if meta.span().is_some() {
        out.push_str(" and a place")?;
    }
    Ok(())
}

/// The name of a key with metadata, its place, and the metadata.
fn put_full_key(out: &mut String, key: &FullFieldKey<'_>, span: &Span) -> Result<(), AllocError> {
    let name = &key.name;
    write!(out, "Full({name:?})@{span}")?;
    put_meta(out, &key.meta)
}

/// An event, its place, and what is told beside it.
fn put_event(out: &mut String, event: &ParseEvent<'_>) -> Result<(), AllocError> {
    if let ParseEventKind::FieldKey(FieldKey::Full(key)) = &event.kind {
        return put_full_key(out, key.get(), &event.span);
    }
    write!(out, "{event:?}")?;
    match &event.meta {
        Some(meta) => put_meta(out, meta),
        None => Ok(()),
    }
}

fn put_answer(
    out: &mut String,
    answer: &Result<Option<ParseEvent<'_>>, ParseError<'_>>,
) -> Result<(), AllocError> {
    match answer {
        Ok(Some(event)) => put_event(out, event),
        Ok(None) => out.push_str("end"),
        Err(error) => write!(out, "{error}"),
    }
}

/// The next event.
pub fn taken(parser: &mut TapeParser<'_>, out: &mut String) -> Result<(), AllocError> {
    let answer = parser.next_event();
    let told = put_answer(out, &answer);
    drop(answer);
    told
}

/// The next event, which stays the next.
pub fn seen(parser: &mut TapeParser<'_>, out: &mut String) -> Result<(), AllocError> {
    let answer = parser.peek_event();
    let told = put_answer(out, &answer);
    drop(answer);
    told
}

/// What a parser told is this.
fn assert_told(rt: &impl Abort, out: &str, want: &str) {
    assert_eq!(rt; out, want);
}

/// The next event is looked at, and then taken.
fn tells(
    rt: &impl Abort,
    parser: &mut TapeParser<'_>,
    out: &mut String,
    want: &str,
) -> Result<(), AllocError> {
    seen(parser, out)?;
    assert_told(rt, out.as_str(), want);
    out.clear();
    taken(parser, out)?;
    assert_told(rt, out.as_str(), want);
    Ok(())
}

/// The next event is looked at, and then taken.
pub fn gives(
    rt: &impl Abort,
    alloc: Global,
    parser: &mut TapeParser<'_>,
    want: &str,
) -> Result<(), AllocError> {
    let mut out = String::new(alloc);
    let told = tells(rt, parser, &mut out, want);
    drop(out);
    told
}

/// These events come next.
pub fn gives_all(
    rt: &impl Abort,
    alloc: Global,
    parser: &mut TapeParser<'_>,
    wants: &[&str],
) -> Result<(), AllocError> {
    'events: for want in wants.iter() {
        gives(rt, alloc, parser, want)?;
    }
    Ok(())
}

/// These are the events of an input.
pub fn reads(
    rt: &impl Abort,
    alloc: Global,
    input: &[u8],
    wants: &[&str],
) -> Result<(), AllocError> {
    let mut parser = TapeParser::new(alloc, input);
    let given = gives_all(rt, alloc, &mut parser, wants);
    drop(parser);
    given
}
