//! Where a line of a shape text may stand.
ghost use Rattle.std.specs.Prelude.{◌≡◌};
ghost use Rattle.semantics_lines.specs.ShapeText.{place_of, place_behind, may_stand, first_place};
ghost use Rattle.shape_lines.specs.ShapeLines.{shape_line, head_view};
ghost use Rattle.shape_lines.specs.ShapePlaces.{place_view};

use crate::shape_line::{Body, Head, ShapeLine};

/// What may stand next, beside a line with which a shape begins.
#[derive(Clone, Copy)]
pub(crate) struct Place {
    body: Body,
    variants: bool,
}

/// The place of the first line.
pub(crate) fn first_place() -> Place
    ensures { place_view result ≡ first_place }
{
    Place {
        body: Body::Nothing,
        variants: false,
    }
}

/// The place behind the line of a shape.
fn place_of(head: &Head<'_>) -> Place
    ensures { place_view result ≡ place_of (head_view head.now) }
{
    let (body, variants) = match head {
        Head::Tuple => (Body::Items, false),
        Head::Struct { .. } => (Body::Fields, false),
        Head::Enum(_) => (Body::Nothing, true),
        _ => (Body::Nothing, false),
    };
    Place { body, variants }
}

/// The place behind a line that stands at this place.
pub(crate) fn place_behind(place: Place, line: &ShapeLine<'_>) -> Place
    ensures { place_view result ≡ place_behind (place_view place) (shape_line line.now) }
{
    match line {
        ShapeLine::Head { head, .. } => place_of(head),
        ShapeLine::Variant(variant) => Place {
            body: variant.body,
            variants: true,
        },
        _ => place,
    }
}

/// Whether the line may stand at this place.
pub(crate) fn may_stand(place: Place, line: &ShapeLine<'_>) -> bool
    ensures { result ≡ may_stand (place_view place) (shape_line line.now) }
{
    match line {
        ShapeLine::Head { .. } => true,
        ShapeLine::Item { .. } => matches!(place.body, Body::Items),
        ShapeLine::Field(_) => matches!(place.body, Body::Fields),
        ShapeLine::Variant(_) => place.variants,
    }
}
