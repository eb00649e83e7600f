//! Reading a front of a line: some words that are known, or one word.
ghost use Rattle.std.specs.Prelude.{◌≡◌};
ghost use Rattle.std.specs.Option.{option_copied};
ghost use Rattle.laws_lines.specs.Fronts.{strip, until_space};

/// What stands after a front of the text, where the text begins with it.
pub fn after<'a>(text: &'a str, front: &str) -> Option<&'a str>
    ensures { option_copied result ≡ strip front.now text.now }
{
    text.strip_prefix(front)
}

/// The word up to the first space or the end, and what stands from there on.
pub fn word(text: &str) -> (&str, &str)
    ensures word { result.0.now ≡ (until_space text.now).0 }
    ensures rest { result.1.now ≡ (until_space text.now).1 }
{
    match text.find(' ') {
        Some(at) => text.split_at(at),
        None => (text, ""),
    }
}
