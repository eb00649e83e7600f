//! What a run answers.

use shape_types::Items;

/// What a run answers.
#[derive(Drop)]
pub struct Outcome {
    /// The status.
    pub status: u8,
    /// The bytes that are said on the notes.
    pub notes: Items<u8>,
    /// The bytes that are written to the sink.
    pub output: Items<u8>,
}
