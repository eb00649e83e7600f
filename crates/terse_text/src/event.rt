//! What a byte says.
ghost use Rattle.std.specs.Prelude.{◌≡◌, ◌<◌, ◌∷◌, [], length, slice_index, option_map};
ghost use Rattle.semantics_lines.specs.Events.{Note};
ghost use Rattle.event_core.specs.Events.{event_from};
ghost use Rattle.terse_text.specs.Terse.{event_at};

use event_core::{ContainerKind, FieldKey, ParseEventKind, ScalarValue};
use shape_types::Text;

/// What the first byte says. None where no event has it.
#[tactic(auto, unfolding(crate::specs::Terse::event_at))]
pub fn first_kind<'de>(rest: &'de [u8]) -> Option<ParseEventKind<'de>>
    requires { 0 < length rest.now }
    ensures { (n : Note) → option_map (λ kind. event_from kind n) result ≡ event_at (slice_index rest.now 0) n }
{
    match rest[0] {
        b'[' => Some(ParseEventKind::SequenceStart(ContainerKind::Array)),
        b']' => Some(ParseEventKind::SequenceEnd),
        b'{' => Some(ParseEventKind::StructStart(ContainerKind::Object)),
        b'}' => Some(ParseEventKind::StructEnd),
        b'-' => Some(ParseEventKind::Scalar(ScalarValue::Null)),
        byte @ b'0'..=b'9' => Some(ParseEventKind::Scalar(ScalarValue::U64((byte - b'0') as u64))),
        b'a'..=b'z' => {
            let key = Text::Borrowed(first_letter(rest));
            Some(ParseEventKind::FieldKey(FieldKey::Name(key)))
        }
        _ => None,
    }
}

/// The first letter, as a text.
#[tactic(auto, using(crate::proofs::Letters::one_letter, crate::proofs::Letters::letter_is_utf8))]
fn first_letter(rest: &[u8]) -> &str
    requires some { 0 < length rest.now }
    requires letter { slice_index rest.now 0 < 128 }
    ensures { result.now ≡ slice_index rest.now 0 ∷ [] }
{
    str::from_utf8(rest.split_at(1).0).unwrap()
}
