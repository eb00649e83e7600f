//! Reading what stands after the body of a line: a tag, and then lines of documentation.
ghost use Rattle.std.specs.Prelude.{◌≡◌, IfOk, length, map};
ghost use Rattle.std.specs.Option.{option_map};
ghost use Rattle.shape_types.specs.Texts.{phrase_of};
ghost use Rattle.event_core.specs.Metadata.{metadata_of};
ghost use Rattle.tape_text.specs.Suffixes.{tag_at, doc_at, docs_at, with_docs, metadata_at};

use event_core::{Docs, ValueMeta};
use line_text::{after, text_at};
use shape_types::{Items, OutOfMemory, Text};
use std::alloc::Global;

/// A tag, where one stands there, and what stands after it.
#[tactic(auto, unfolding(crate::specs::Suffixes::tag_at))]
fn tag_at<'de>(
    alloc: Global,
    text: &'de str,
) -> Result<Option<(Option<Text<'de>>, &'de str)>, OutOfMemory>
    ensures { IfOk result (λ found. option_map (λ p. (option_map phrase_of p.0, p.1.now)) found ≡ tag_at text.now) }
{
    let Some(rest) = after(text, " tag ") else {
        return Ok(Some((None, text)));
    };
    match text_at(alloc, rest) {
        Ok(Some((tag, rest))) => Ok(Some((Some(tag), rest))),
        Ok(None) => Ok(None),
        Err(refused) => Err(refused),
    }
}

/// A line of documentation, and what stands after it.
#[tactic(auto, unfolding(crate::specs::Suffixes::doc_at))]
fn doc_at<'de>(alloc: Global, text: &'de str) -> Result<Option<(Text<'de>, &'de str)>, OutOfMemory>
    ensures { IfOk result (λ found. option_map (λ p. (phrase_of p.0, p.1.now)) found ≡ doc_at text.now) }
{
    match after(text, " doc ") {
        Some(rest) => text_at(alloc, rest),
        None => Ok(None),
    }
}

/// The lines of documentation that the text is.
fn docs_at<'de>(alloc: Global, text: &'de str) -> Result<Option<Docs<'de>>, OutOfMemory>
    ensures { IfOk result (λ found. option_map (λ docs. map phrase_of docs) found ≡ docs_at (length text.now) text.now) }
{
    let mut docs = Items::new(alloc);
    let mut rest = text;
    'docs: while !rest.is_empty() {
        match doc_at(alloc, rest) {
            Ok(Some((doc, later))) => {
                docs.push(doc)?;
                rest = later;
            }
            Ok(None) => return Ok(None),
            Err(refused) => return Err(refused),
        }
    }
    Ok(Some(docs))
}

/// The metadata of a tag, where there is one, and of the lines of documentation that the text is.
fn with_docs<'de>(
    alloc: Global,
    tag: Option<Text<'de>>,
    text: &'de str,
) -> Result<Option<ValueMeta<'de>>, OutOfMemory>
    ensures { IfOk result (λ found. option_map metadata_of found ≡ with_docs (option_map phrase_of tag.entry, text.now)) }
{
    match docs_at(alloc, text) {
        Ok(Some(docs)) => {
            let meta = ValueMeta::builder().maybe_tag(tag).doc(docs).build();
            Ok(Some(meta))
        }
        Ok(None) => {
            drop(tag);
            Ok(None)
        }
        Err(refused) => {
            drop(tag);
            Err(refused)
        }
    }
}

/// What the text tells beside an event: nothing where it is empty.
#[tactic(auto, unfolding(crate::specs::Suffixes::metadata_at))]
pub fn metadata_at<'de>(
    alloc: Global,
    text: &'de str,
) -> Result<Option<ValueMeta<'de>>, OutOfMemory>
    ensures { IfOk result (λ found. option_map metadata_of found ≡ metadata_at text.now) }
{
    match tag_at(alloc, text) {
        Ok(Some((tag, rest))) => with_docs(alloc, tag, rest),
        Ok(None) => Ok(None),
        Err(refused) => Err(refused),
    }
}
