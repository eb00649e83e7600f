//! What a line of a shape text says.
ghost use Rattle.std.specs.Prelude.{◌≡◌};
ghost use Rattle.std.specs.Option.{option_map};
ghost use Rattle.laws_lines.specs.ShapeLineReading.{head_line_of, item_line_of, field_line_of, variant_line_of, line_of};
ghost use Rattle.shape_lines.specs.ShapeLines.{shape_line};

use crate::shape_field::field_of;
use crate::shape_head::head_of;
use crate::shape_line::ShapeLine;
use crate::shape_variant::variant_of;
use crate::shape_words::{name_behind, whole_name};
use line_text::after;

/// A shape begins.
#[tactic(auto, unfolding(laws_lines::specs::ShapeLineReading::head_line_of))]
fn head_line_of(line: &str) -> Option<ShapeLine<'_>>
    ensures { option_map shape_line result ≡ head_line_of line.now }
{
    let (name, rest) = name_behind(line, "shape ")?;
    let head = head_of(rest)?;
    Some(ShapeLine::Head { name, head })
}

#[tactic(auto, unfolding(laws_lines::specs::ShapeLineReading::item_line_of))]
fn item_line_of(line: &str) -> Option<ShapeLine<'_>>
    ensures { option_map shape_line result ≡ item_line_of line.now }
{
    let shape = whole_name(line, "item ")?;
    Some(ShapeLine::Item { shape })
}

#[tactic(auto, unfolding(laws_lines::specs::ShapeLineReading::field_line_of))]
fn field_line_of(line: &str) -> Option<ShapeLine<'_>>
    ensures { option_map shape_line result ≡ field_line_of line.now }
{
    Some(ShapeLine::Field(field_of(after(line, "field ")?)?))
}

#[tactic(auto, unfolding(laws_lines::specs::ShapeLineReading::variant_line_of))]
fn variant_line_of(line: &str) -> Option<ShapeLine<'_>>
    ensures { option_map shape_line result ≡ variant_line_of line.now }
{
    Some(ShapeLine::Variant(variant_of(after(line, "variant ")?)?))
}

/// What a line without its line feed says. None where it is no line of a shape text.
#[tactic(auto, unfolding(laws_lines::specs::ShapeLineReading::line_of))]
pub(crate) fn line_of(line: &str) -> Option<ShapeLine<'_>>
    ensures { option_map shape_line result ≡ line_of line.now }
{
    if let Some(found) = head_line_of(line) {
        return Some(found);
    }
    if let Some(found) = item_line_of(line) {
        return Some(found);
    }
    if let Some(found) = field_line_of(line) {
        return Some(found);
    }
    variant_line_of(line)
}
