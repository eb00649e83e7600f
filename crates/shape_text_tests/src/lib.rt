//! Tests of `shape_text`, and what its definitions say of lines whose forms aren't built.
#![tactic(auto)]

ghost use Rattle.shape_text_tests.specs.Rows.{LineRows, VariantRows, DefaultRows};

#[cfg(test)]
mod tests;

/// How lines are spelled, each beside what it says.
pub fn line_rows()
    ensures { LineRows }
{}

/// The variants that the lines of an enum say.
pub fn variant_rows()
    ensures { VariantRows }
{}

/// The values that declared defaults say.
pub fn default_rows()
    ensures { DefaultRows }
{}
