//! What a line says of the shape that begins there.
ghost use Rattle.std.specs.Prelude.{◌≡◌};
ghost use Rattle.std.specs.Option.{option_map};
ghost use Rattle.laws_lines.specs.ShapeLineReading.{tag_kind_of, over_one, over_two, array_of, bare_of, struct_of, untagged_form, internal_form, adjacent_form, form_of, enum_of, head_of};
ghost use Rattle.shape_types.specs.Shapes.{tag_kind_of as tag_kind_view};
ghost use Rattle.shape_lines.specs.ShapeLines.{head_view, form_view};

use crate::shape_line::{FormLine, Head};
use crate::shape_quoted::{quoted_behind, quotes_at};
use crate::shape_words::{below_32, flag_at, number_behind, whole_name, whole_names};
use line_text::after;
use shape_types::TagKind;

/// A shape over another one.
#[tactic(auto, unfolding(laws_lines::specs::ShapeLineReading::over_one))]
fn over_one(text: &str) -> Option<Head<'_>>
    ensures { option_map head_view result ≡ over_one text.now }
{
    if let Some(shape) = whole_name(text, " option ") {
        return Some(Head::Option(shape));
    }
    if let Some(shape) = whole_name(text, " list ") {
        return Some(Head::List(shape));
    }
    if let Some(shape) = whole_name(text, " set ") {
        return Some(Head::Set(shape));
    }
    match whole_name(text, " transparent ") {
        Some(shape) => Some(Head::Transparent(shape)),
        None => None,
    }
}

/// A shape over two others.
#[tactic(auto, unfolding(laws_lines::specs::ShapeLineReading::over_two))]
fn over_two(text: &str) -> Option<Head<'_>>
    ensures { option_map head_view result ≡ over_two text.now }
{
    if let Some((shape, other)) = whole_names(text, " result ") {
        return Some(Head::Result(shape, other));
    }
    match whole_names(text, " map ") {
        Some((key, value)) => Some(Head::Map(key, value)),
        None => None,
    }
}

/// So many items.
#[tactic(auto, unfolding(laws_lines::specs::ShapeLineReading::array_of))]
fn array_of(text: &str) -> Option<Head<'_>>
    ensures { option_map head_view result ≡ array_of text.now }
{
    let (len, rest) = number_behind(text, " array ")?;
    let len = below_32(len)?;
    let shape = whole_name(rest, " ")?;
    Some(Head::Array(len, shape))
}

/// A struct without names.
#[tactic(auto, unfolding(laws_lines::specs::ShapeLineReading::bare_of))]
fn bare_of(text: &str) -> Option<Head<'_>>
    ensures { option_map head_view result ≡ bare_of text.now }
{
    if text == " unit" {
        Some(Head::Unit)
    } else if text == " tuple" {
        Some(Head::Tuple)
    } else {
        None
    }
}

/// A struct with names.
#[tactic(auto, unfolding(laws_lines::specs::ShapeLineReading::struct_of))]
fn struct_of(text: &str) -> Option<Head<'_>>
    ensures { option_map head_view result ≡ struct_of text.now }
{
    let (deny, rest) = flag_at(after(text, " struct")?, " deny");
    let (default, rest) = flag_at(rest, " default");
    let (container, rest) = flag_at(rest, " container");
    if rest == "" {
        Some(Head::Struct {
            deny,
            default,
            container,
        })
    } else {
        None
    }
}

/// How a tag names its variant, up to the end.
#[tactic(auto, unfolding(laws_lines::specs::ShapeLineReading::tag_kind_of))]
fn tag_kind_of(text: &str) -> Option<TagKind>
    ensures { option_map tag_kind_view result ≡ tag_kind_of text.now }
{
    if text == "" {
        Some(TagKind::Name)
    } else if text == " unsigned" {
        Some(TagKind::Unsigned)
    } else if text == " signed" {
        Some(TagKind::Signed)
    } else {
        None
    }
}

/// A form without a tag of its own.
#[tactic(auto, unfolding(laws_lines::specs::ShapeLineReading::untagged_form))]
fn untagged_form(text: &str) -> Option<FormLine<'_>>
    ensures { option_map form_view result ≡ untagged_form text.now }
{
    if text == " external" {
        Some(FormLine::External)
    } else if text == " numeric" {
        Some(FormLine::Numeric)
    } else if text == " untagged" {
        Some(FormLine::Untagged)
    } else if text == " cow" {
        Some(FormLine::Cow)
    } else {
        None
    }
}

/// A tag beside the fields.
#[tactic(auto, unfolding(laws_lines::specs::ShapeLineReading::internal_form))]
fn internal_form(text: &str) -> Option<FormLine<'_>>
    ensures { option_map form_view result ≡ internal_form text.now }
{
    let (tag, rest) = quoted_behind(text, " internal ")?;
    Some(FormLine::Internal(tag, tag_kind_of(rest)?))
}

/// A tag beside the content.
#[tactic(auto, unfolding(laws_lines::specs::ShapeLineReading::adjacent_form))]
fn adjacent_form(text: &str) -> Option<FormLine<'_>>
    ensures { option_map form_view result ≡ adjacent_form text.now }
{
    let ((tag, content), rest) = quotes_at(after(text, " adjacent ")?)?;
    Some(FormLine::Adjacent(tag, content, tag_kind_of(rest)?))
}

#[tactic(auto, unfolding(laws_lines::specs::ShapeLineReading::form_of))]
fn form_of(text: &str) -> Option<FormLine<'_>>
    ensures { option_map form_view result ≡ form_of text.now }
{
    if let Some(form) = untagged_form(text) {
        return Some(form);
    }
    if let Some(form) = internal_form(text) {
        return Some(form);
    }
    adjacent_form(text)
}

/// An enum.
#[tactic(auto, unfolding(laws_lines::specs::ShapeLineReading::enum_of))]
fn enum_of(text: &str) -> Option<Head<'_>>
    ensures { option_map head_view result ≡ enum_of text.now }
{
    Some(Head::Enum(form_of(after(text, " enum")?)?))
}

/// What is said of a shape behind its name.
#[tactic(auto, unfolding(laws_lines::specs::ShapeLineReading::head_of))]
pub(crate) fn head_of(text: &str) -> Option<Head<'_>>
    ensures { option_map head_view result ≡ head_of text.now }
{
    if let Some(head) = over_one(text) {
        return Some(head);
    }
    if let Some(head) = over_two(text) {
        return Some(head);
    }
    if let Some(head) = array_of(text) {
        return Some(head);
    }
    if let Some(head) = bare_of(text) {
        return Some(head);
    }
    if let Some(head) = struct_of(text) {
        return Some(head);
    }
    enum_of(text)
}
