//! What a line says of a variant.
ghost use Rattle.std.specs.Prelude.{◌≡◌, codes};
ghost use Rattle.std.specs.Option.{option_map};
ghost use Rattle.laws_lines.specs.Fronts.{signed_at};
ghost use Rattle.laws_lines.specs.ShapeLineReading.{behind, attribute, body_at, variant_behind, variant_of};
ghost use Rattle.shape_lines.specs.ShapeLines.{body_view, variant_view};

use crate::shape_field::text_attribute;
use crate::shape_line::{Body, VariantLine};
use crate::shape_words::name_at;
use line_text::{after, signed_at};

/// What belongs behind a variant, and what stands behind that word.
#[tactic(auto, unfolding(laws_lines::specs::ShapeLineReading::body_at))]
fn body_at(text: &str) -> Option<(Body, &str)>
    ensures { option_map (λ p. (body_view p.0, p.1.now)) result ≡ body_at text.now }
{
    if let Some(rest) = after(text, " unit") {
        return Some((Body::Nothing, rest));
    }
    if let Some(rest) = after(text, " tuple") {
        return Some((Body::Items, rest));
    }
    match after(text, " struct") {
        Some(rest) => Some((Body::Fields, rest)),
        None => None,
    }
}

/// A number behind its word.
fn discriminant_behind(text: &str) -> Option<(i64, &str)>
    ensures { option_map (λ p. (p.0, p.1.now)) result ≡ behind (codes " disc ") (signed_at 63 64) text.now }
{
    signed_at(after(text, " disc ")?)
}

/// The number, where one stands there, and what stands behind it.
#[tactic(auto, unfolding(laws_lines::specs::ShapeLineReading::attribute))]
fn discriminant_attribute(text: &str) -> (Option<i64>, &str)
    ensures value { result.0 ≡ (attribute (codes " disc ") (signed_at 63 64) text.now).0 }
    ensures rest { result.1.now ≡ (attribute (codes " disc ") (signed_at 63 64) text.now).1 }
{
    match discriminant_behind(text) {
        Some((z, rest)) => (Some(z), rest),
        None => (None, text),
    }
}

/// A variant of this name and body, with the attributes that stand there.
#[tactic(auto, unfolding(laws_lines::specs::ShapeLineReading::variant_behind))]
fn variant_behind<'a>(name: &'a str, body: Body, text: &'a str) -> Option<VariantLine<'a>>
    ensures { option_map variant_view result ≡ variant_behind name.now (body_view body) text.now }
{
    let (rename, rest) = text_attribute(text, " rename ");
    let (discriminant, rest) = discriminant_attribute(rest);
    if rest == "" {
        Some(VariantLine {
            name,
            body,
            rename,
            discriminant,
        })
    } else {
        None
    }
}

/// A variant: its name, its body and its attributes.
#[tactic(auto, unfolding(laws_lines::specs::ShapeLineReading::variant_of))]
pub(crate) fn variant_of(text: &str) -> Option<VariantLine<'_>>
    ensures { option_map variant_view result ≡ variant_of text.now }
{
    let (name, rest) = name_at(text)?;
    let (body, rest) = body_at(rest)?;
    variant_behind(name, body, rest)
}
