//! What the words of the command line ask for.
ghost use Rattle.std.specs.Prelude.{◌≡◌, ◌≢◌, ◌<◌, ◌≤◌, ◌^◌, ◌∷◌, [], ℕ, codes, MatchOption};
ghost use Rattle.std.specs.Fmt.{decimal};
ghost use Rattle.recode_top.specs.Requests.{Asks, AsksNothing, request_of};

use crate::outside::Words;
use line_text::wide_number;

/// How many events may be read ahead, where the words don't say.
const CAPACITY: usize = 512;

/// How deep values may nest, where the words don't say.
const DEPTH: usize = 128;

/// How deep values may nest at most.
const DEPTH_LIMIT: u128 = 4_096;

/// What the words ask for.
#[derive(Clone, Copy)]
pub struct Request<'w> {
    /// The name of the root's shape.
    pub root: &'w str,
    /// How many events may be read ahead.
    pub capacity: usize,
    /// How deep values may nest.
    pub depth: usize,
}

/// The request of the words `recode ROOT` or `recode ROOT CAPACITY DEPTH`. None where there are other words.
pub fn asked(words: &Words) -> Option<Request<'_>>
    ensures { MatchOption result (AsksNothing words.now) (λ asked. Asks words.now (request_of asked)) }
{
    let command = words.get(0)?;
    let root = words.get(1)?;
    if command != "recode" {
        return None;
    }
    if words.len() == 2 {
        return Some(Request {
            root,
            capacity: CAPACITY,
            depth: DEPTH,
        });
    }
    let capacity = words.get(2)?;
    let depth = words.get(3)?;
    if words.len() != 4 {
        return None;
    }
    Some(Request {
        root,
        capacity: capacity_of(capacity)?,
        depth: depth_of(depth)?,
    })
}

/// The number of 64 bits that this is the decimal of.
#[tactic(auto, using(crate::proofs::Commands::is_decimal, crate::proofs::Commands::no_decimal, crate::proofs::Commands::other_decimal))]
fn capacity_of(word: &str) -> Option<usize>
    ensures { MatchOption result ((n : ℕ) → n < 2 ^ 64 → word.now ≢ decimal n) (λ n. (word.now ≡ decimal n) × (n < 2 ^ 64)) }
{
    let Some(n) = wide_number(word) else {
        return None;
    };
    if n < 18_446_744_073_709_551_616 {
        Some(n as usize)
    } else {
        None
    }
}

/// The number that this is the decimal of, where values may nest so deep.
#[tactic(auto, using(crate::proofs::Commands::is_decimal, crate::proofs::Commands::no_decimal, crate::proofs::Commands::other_decimal))]
fn depth_of(word: &str) -> Option<usize>
    ensures { MatchOption result ((n : ℕ) → n ≤ 4096 → word.now ≢ decimal n) (λ n. (word.now ≡ decimal n) × (n ≤ 4096)) }
{
    let Some(n) = wide_number(word) else {
        return None;
    };
    if n <= DEPTH_LIMIT {
        Some(n as usize)
    } else {
        None
    }
}
