//! What a line says of a field.
ghost use Rattle.std.specs.Prelude.{◌≡◌, unwrap_or, codes};
ghost use Rattle.semantics_lines.specs.Shapes.{skip_never};
ghost use Rattle.std.specs.Option.{option_map};
ghost use Rattle.shape_types.specs.Shapes.{skip_rule_of, meta_kind_of};
ghost use Rattle.laws_lines.specs.Quoted.{quoted_at};
ghost use Rattle.laws_lines.specs.ShapeLineReading.{behind, attribute, plain_literal, worded_literal, literal_at, skip_at, meta_at, attributed, field_of};
ghost use Rattle.shape_lines.specs.ShapeLines.{told, literal_view, field_view};

use crate::shape_line::{FieldLine, Literal};
use crate::shape_quoted::{Quoted, char_behind, quoted_behind};
use crate::shape_words::{flag_at, names_at, number_behind, signed_behind};
use line_text::after;
use shape_types::{MetaKind, SkipRule};

/// A text behind these words, where one stands there, and what stands behind it.
#[tactic(auto, unfolding(laws_lines::specs::ShapeLineReading::attribute))]
pub(crate) fn text_attribute<'a>(text: &'a str, words: &str) -> (Option<Quoted<'a>>, &'a str)
    ensures value { option_map told result.0 ≡ (attribute words.now quoted_at text.now).0 }
    ensures rest { result.1.now ≡ (attribute words.now quoted_at text.now).1 }
{
    match quoted_behind(text, words) {
        Some((quoted, rest)) => (Some(quoted), rest),
        None => (None, text),
    }
}

/// A default that is a word by itself, and what stands behind it.
#[tactic(auto, unfolding(laws_lines::specs::ShapeLineReading::plain_literal))]
fn plain_literal(text: &str) -> Option<(Literal<'_>, &str)>
    ensures { option_map (λ p. (literal_view p.0, p.1.now)) result ≡ plain_literal text.now }
{
    if let Some(rest) = after(text, "unit") {
        return Some((Literal::Unit, rest));
    }
    if let Some(rest) = after(text, "true") {
        return Some((Literal::Bool(true), rest));
    }
    if let Some(rest) = after(text, "false") {
        return Some((Literal::Bool(false), rest));
    }
    if let Some(rest) = after(text, "none") {
        return Some((Literal::None, rest));
    }
    if let Some(rest) = after(text, "empty") {
        return Some((Literal::Empty, rest));
    }
    match after(text, "own") {
        Some(rest) => Some((Literal::Own, rest)),
        None => None,
    }
}

/// A word and a default behind it, and what stands behind that.
#[tactic(auto, unfolding(laws_lines::specs::ShapeLineReading::worded_literal))]
fn worded_literal(text: &str) -> Option<(Literal<'_>, &str)>
    ensures { option_map (λ p. (literal_view p.0, p.1.now)) result ≡ worded_literal text.now }
{
    if let Some((c, rest)) = char_behind(text, "c ") {
        return Some((Literal::Char(c), rest));
    }
    if let Some((n, rest)) = number_behind(text, "u ") {
        return Some((Literal::Unsigned(n), rest));
    }
    if let Some((z, rest)) = signed_behind(text, "i ") {
        return Some((Literal::Signed(z), rest));
    }
    match quoted_behind(text, "s ") {
        Some((quoted, rest)) => Some((Literal::Text(quoted), rest)),
        None => None,
    }
}

/// A default, and what stands behind it.
#[tactic(auto, unfolding(laws_lines::specs::ShapeLineReading::literal_at))]
fn literal_at(text: &str) -> Option<(Literal<'_>, &str)>
    ensures { option_map (λ p. (literal_view p.0, p.1.now)) result ≡ literal_at text.now }
{
    match plain_literal(text) {
        Some(found) => Some(found),
        None => worded_literal(text),
    }
}

/// A default behind its word.
fn literal_behind(text: &str) -> Option<(Literal<'_>, &str)>
    ensures { option_map (λ p. (literal_view p.0, p.1.now)) result ≡ behind (codes " default ") literal_at text.now }
{
    literal_at(after(text, " default ")?)
}

/// The default, where one stands there, and what stands behind it.
#[tactic(auto, unfolding(laws_lines::specs::ShapeLineReading::attribute))]
fn default_attribute(text: &str) -> (Option<Literal<'_>>, &str)
    ensures value { option_map literal_view result.0 ≡ (attribute (codes " default ") literal_at text.now).0 }
    ensures rest { result.1.now ≡ (attribute (codes " default ") literal_at text.now).1 }
{
    match literal_behind(text) {
        Some((literal, rest)) => (Some(literal), rest),
        None => (None, text),
    }
}

/// A rule that skips, and what stands behind it.
#[tactic(auto, unfolding(laws_lines::specs::ShapeLineReading::skip_at))]
fn skip_at(text: &str) -> Option<(SkipRule, &str)>
    ensures { option_map (λ p. (skip_rule_of p.0, p.1.now)) result ≡ skip_at text.now }
{
    if let Some(rest) = after(text, "always") {
        return Some((SkipRule::Always, rest));
    }
    if let Some(rest) = after(text, "none") {
        return Some((SkipRule::None, rest));
    }
    if let Some(rest) = after(text, "empty") {
        return Some((SkipRule::Empty, rest));
    }
    match after(text, "default") {
        Some(rest) => Some((SkipRule::Default, rest)),
        None => None,
    }
}

/// A rule that skips behind its word.
fn skip_behind(text: &str) -> Option<(SkipRule, &str)>
    ensures { option_map (λ p. (skip_rule_of p.0, p.1.now)) result ≡ behind (codes " skip ") skip_at text.now }
{
    skip_at(after(text, " skip ")?)
}

/// The rule that skips, where one stands there, and what stands behind it.
#[tactic(auto, unfolding(laws_lines::specs::ShapeLineReading::attribute))]
fn skip_attribute(text: &str) -> (SkipRule, &str)
    ensures value { skip_rule_of result.0 ≡ unwrap_or (attribute (codes " skip ") skip_at text.now).0 skip_never }
    ensures rest { result.1.now ≡ (attribute (codes " skip ") skip_at text.now).1 }
{
    match skip_behind(text) {
        Some(found) => found,
        None => (SkipRule::Never, text),
    }
}

/// What a metadata field holds, and what stands behind it.
#[tactic(auto, unfolding(laws_lines::specs::ShapeLineReading::meta_at))]
fn meta_at(text: &str) -> Option<(MetaKind, &str)>
    ensures { option_map (λ p. (meta_kind_of p.0, p.1.now)) result ≡ meta_at text.now }
{
    if let Some(rest) = after(text, "span") {
        return Some((MetaKind::Span, rest));
    }
    if let Some(rest) = after(text, "doc") {
        return Some((MetaKind::Doc, rest));
    }
    match after(text, "tag") {
        Some(rest) => Some((MetaKind::Tag, rest)),
        None => None,
    }
}

/// What a metadata field holds, behind its word.
fn meta_behind(text: &str) -> Option<(MetaKind, &str)>
    ensures { option_map (λ p. (meta_kind_of p.0, p.1.now)) result ≡ behind (codes " meta ") meta_at text.now }
{
    meta_at(after(text, " meta ")?)
}

/// What a metadata field holds, where that stands there, and what stands behind it.
#[tactic(auto, unfolding(laws_lines::specs::ShapeLineReading::attribute))]
fn meta_attribute(text: &str) -> (Option<MetaKind>, &str)
    ensures value { option_map meta_kind_of result.0 ≡ (attribute (codes " meta ") meta_at text.now).0 }
    ensures rest { result.1.now ≡ (attribute (codes " meta ") meta_at text.now).1 }
{
    match meta_behind(text) {
        Some((kind, rest)) => (Some(kind), rest),
        None => (None, text),
    }
}

/// A field of this name and shape, with the attributes that stand there.
#[tactic(auto, unfolding(laws_lines::specs::ShapeLineReading::attributed))]
fn attributed<'a>(name: &'a str, shape: &'a str, text: &'a str) -> Option<FieldLine<'a>>
    ensures { option_map field_view result ≡ attributed name.now shape.now text.now }
{
    let (rename, rest) = text_attribute(text, " rename ");
    let (alias, rest) = text_attribute(rest, " alias ");
    let (default, rest) = default_attribute(rest);
    let (skip, rest) = skip_attribute(rest);
    let (flatten, rest) = flag_at(rest, " flatten");
    let (metadata, rest) = meta_attribute(rest);
    if rest == "" {
        Some(FieldLine {
            name,
            shape,
            rename,
            alias,
            default,
            skip,
            flatten,
            metadata,
        })
    } else {
        None
    }
}

/// A field: its name, its shape and its attributes.
#[tactic(auto, unfolding(laws_lines::specs::ShapeLineReading::field_of))]
pub(crate) fn field_of(text: &str) -> Option<FieldLine<'_>>
    ensures { option_map field_view result ≡ field_of text.now }
{
    let ((name, shape), rest) = names_at(text)?;
    attributed(name, shape, rest)
}
