ghost use Rattle.std.specs.Prelude.{◌≡◌, ◌≢◌, ◌+◌, [], ◌∷◌, ◌++◌, length, map, IfOk, IfErr, OnOk, IsTrue};
ghost use Rattle.semantics_lines.specs.Scalars.{scalar_drafts};
ghost use Rattle.semantics_lines.specs.ShapeLines.{is_line};
ghost use Rattle.semantics_lines.specs.ShapeText.{AreLines, first_place as first_mirror, place_after};
ghost use Rattle.shape_types.specs.Shapes.{drafts_of};
ghost use Rattle.shape_lines.specs.ShapeErrors.{text_kind};
ghost use Rattle.shape_lines.specs.ShapeLines.{shape_line, StandsAt, IsRefused};
ghost use Rattle.shape_lines.specs.ShapePlaces.{place_view};
ghost use Rattle.shape_lines.specs.ShapeReading.{named_drafts, IsNamed, IsFull, IsPlaceFault, IsLineFault, AreLinesOf};

use crate::shape_fault::{ReadShapesError, ShapeTextKind, fault};
use crate::shape_line::ShapeLine;
use crate::shape_place::{Place, first_place, may_stand, place_behind};
use crate::shape_reading::line_of;
use line_text::line_end;
use shape_types::{DraftsBuilder, Items, NameFault};
use std::alloc::Global;
use std::str;

/// What the first line says, and what stands behind it.
fn first_line(left: &[u8]) -> Result<(ShapeLine<'_>, &[u8]), ShapeTextKind>
    requires { left.now ≢ [] }
    ensures line { IfOk result (λ p. StandsAt left.now (shape_line p.0) p.1.now) }
    ensures refused { IfErr result (λ kind. IsRefused left.now (text_kind kind)) }
{
    let end = line_end(left);
    let Ok(line) = str::from_utf8(&left[..end.unwrap_or(left.len())]) else {
        return Err(ShapeTextKind::NotUtf8);
    };
    let Some(end) = end else {
        return Err(ShapeTextKind::BadLine);
    };
    match line_of(line) {
        Some(line) => Ok((line, &left[end + 1..])),
        None => Err(ShapeTextKind::BadLine),
    }
}

/// The number of the line behind these.
fn next_number(lines: &[ShapeLine<'_>]) -> usize
    ensures { result ≡ length (map shape_line lines.now) + 1 }
{
    lines.len() + 1
}

/// Gives a number to the shape that begins behind these lines.
fn name_shape(
    lines: &[ShapeLine<'_>],
    name: &str,
    builder: &mut DraftsBuilder,
) -> Result<(), ReadShapesError>
    requires { drafts_of builder.old ≡ named_drafts (map shape_line lines.now) }
    ensures named { OnOk result (IsNamed (map shape_line lines.now) name.now (drafts_of builder.new)) }
    ensures refused { IfErr result (λ error. IsFull (map shape_line lines.now) error) }
{
    match builder.name(name) {
        Ok(_) => Ok(()),
        Err(NameFault::TooMany) => Err(fault(next_number(lines), ShapeTextKind::TooMany)),
        Err(NameFault::Alloc) => Err(ReadShapesError::Alloc),
    }
}

/// Sees that the line may stand at its place, and gives a number to the shape that begins there.
fn place_line(
    lines: &[ShapeLine<'_>],
    place: Place,
    line: &ShapeLine<'_>,
    builder: &mut DraftsBuilder,
) -> Result<(), ReadShapesError>
    requires good { AreLines (map shape_line lines.now) }
    requires place { place_view place ≡ place_after first_mirror (map shape_line lines.now) }
    requires line { IsTrue (is_line (shape_line line.now)) }
    requires named { drafts_of builder.old ≡ named_drafts (map shape_line lines.now) }
    ensures good { OnOk result (AreLines (map shape_line lines.now ++ shape_line line.now ∷ [])) }
    ensures named { OnOk result (drafts_of builder.new ≡ named_drafts (map shape_line lines.now ++ shape_line line.now ∷ [])) }
    ensures refused { IfErr result (λ error. IsPlaceFault (map shape_line lines.now) (shape_line line.now) error) }
{
    if !may_stand(place, line) {
        return Err(fault(next_number(lines), ShapeTextKind::OutOfPlace));
    }
    match line {
        ShapeLine::Head { name, .. } => name_shape(lines, name, builder),
        _ => Ok(()),
    }
}

/// The lines of a text. The builder, which holds the scalars alone, gives a number to each shape.
pub fn read_lines<'a>(
    alloc: Global,
    text: &'a [u8],
    builder: &mut DraftsBuilder,
) -> Result<Items<ShapeLine<'a>>, ReadShapesError>
    requires { drafts_of builder.old ≡ scalar_drafts }
    ensures lines { IfOk result (λ lines. AreLinesOf text.now (map shape_line lines)) }
    ensures named { IfOk result (λ lines. drafts_of builder.new ≡ named_drafts (map shape_line lines)) }
    ensures refused { IfErr result (λ error. IsLineFault text.now error) }
{
    let mut lines = Items::new(alloc);
    let mut place = first_place();
    let mut left = text;
    'lines: while !left.is_empty() {
        let (line, rest) = match first_line(left) {
            Ok(found) => found,
            Err(kind) => return Err(fault(next_number(lines.as_slice()), kind)),
        };
        place_line(lines.as_slice(), place, &line, builder)?;
        place = place_behind(place, &line);
        lines.push(line)?;
        left = rest;
    }
    Ok(lines)
}
