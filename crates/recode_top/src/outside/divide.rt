ghost use Rattle.std.specs.Prelude.{◌≡◌, ◌≢◌, ◌<◌, List, ℕ, length, get_or, MatchOption};
ghost use Rattle.semantics_lines.specs.Divided.{IsDivided, joined};

/// Where the first line feed stands.
fn line_end(bytes: &[u8]) -> Option<usize>
    ensures { MatchOption result ((k : ℕ) → k < length bytes.now → get_or bytes.now k 0 ≢ 10)
        (λ end. (end < length bytes.now) × (get_or bytes.now end 0 ≡ 10)
        × ((k : ℕ) → k < end → get_or bytes.now k 0 ≢ 10)) }
{
    bytes.iter().position(|b| *b == b'\n')
}

/// The bytes before the first line that is exactly `---`, and those behind it.
pub fn divided(input: &[u8]) -> Option<(&[u8], &[u8])>
    ensures { MatchOption result ((lines : List (List ℕ)) (rest : List ℕ) → IsDivided input.now lines rest → ⊥)
        (λ parts. (lines : List (List ℕ)) × (parts.0.now ≡ joined lines)
        × IsDivided input.now lines parts.1.now) }
{
    let mut at = 0;
    'lines: loop {
        let rest = &input[at..];
        let end = line_end(rest)?;
        let line = &rest[..end];
        if line == b"---".as_slice() {
            return Some((&input[..at], &rest[end + 1..]));
        }
        at += end + 1;
    }
}
