//! The fields of a struct that were read so far.
ghost use Rattle.std.specs.Prelude.{◌≡◌, ◌≢◌, ◌<◌, ◌∷◌, [], length, map, ℕ, IfSome};
ghost use Rattle.std.specs.List.{position_from};
ghost use Rattle.std.specs.Option.{option_map};
ghost use Rattle.event_core.specs.Metadata.{span_view};
ghost use Rattle.semantics.specs.Places.{below};
ghost use Rattle.laws_reading.specs.Structs.{taken_span};
ghost use Rattle.shape_types.specs.Trees.{tree_of};
ghost use Rattle.read_steps.specs.Filled.{stands_at, taken_of, taken_view, or_twice};
ghost use Rattle.read_steps.specs.Views.{told_of};

use crate::key::KeyAt;
use event_core::Span;
use shape_core::Value;

/// A field that was read.
#[derive(Drop)]
pub struct Filled<'de> {
    /// The key that led to it.
    pub key: KeyAt,
    /// What stood behind the key.
    pub value: Value<'de>,
}

/// What was read of a field.
#[derive(Drop)]
pub enum Taken<'de> {
    /// Nothing.
    Nothing,
    /// A value.
    Once(Value<'de>),
    /// More than one, which no key leads to.
    Twice,
}

/// Where the key stands of the field at this place, if it was read.
pub fn first_key(filled: &[Filled<'_>], place: usize) -> Option<Span>
    ensures { option_map span_view result ≡ taken_span (place ∷ []) (map told_of filled.now) }
{
    match find_place(filled, place) {
        Some(at) => Some(filled[at].key.span),
        None => None,
    }
}

/// Takes what was read of the field at this place.
pub fn take_value<'de>(filled: &mut Vec<Filled<'de>>, place: usize) -> Taken<'de>
    ensures value { taken_view result ≡ taken_of (below place (map told_of filled.old.items)) }
    ensures others { (j : ℕ) → j ≢ place → below j (map told_of filled.new.items) ≡ below j (map told_of filled.old.items) }
{
    match find_place(filled.as_slice(), place) {
        Some(at) => {
            let value = filled.remove(at).value;
            or_twice(find_place(filled.as_slice(), place), value)
        }
        None => Taken::Nothing,
    }
}

/// The value, unless there is another one.
fn or_twice<'de>(other: Option<usize>, value: Value<'de>) -> Taken<'de>
    ensures { taken_view result ≡ or_twice other (tree_of value.entry) }
{
    match other {
        Some(_) => Taken::Twice,
        None => Taken::Once(value),
    }
}

/// The first that was read of the field at this place.
fn find_place(filled: &[Filled<'_>], place: usize) -> Option<usize>
    ensures first { result ≡ position_from (stands_at place) 0 filled.now }
    ensures within { IfSome result (λ at. at < length filled.now) }
{
    filled.iter().position(|filled| filled.key.place == place)
}
