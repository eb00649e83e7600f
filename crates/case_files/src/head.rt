//! The words that lines of a case begin with.

/// What a head line tells of a case.
#[derive(Clone, Copy, PartialEq)]
pub(crate) enum Head {
    Case,
    Shows,
    Words,
    Shapes,
    Tape,
    Input,
    Status,
    Notes,
    Output,
    FailingReads,
    FailingWrites,
    Room,
}

/// The words of the heads.
const HEADS: [(&str, Head); 12] = [
    ("case", Head::Case),
    ("shows", Head::Shows),
    ("words", Head::Words),
    ("shapes", Head::Shapes),
    ("tape", Head::Tape),
    ("input", Head::Input),
    ("status", Head::Status),
    ("notes", Head::Notes),
    ("output", Head::Output),
    ("failing-reads", Head::FailingReads),
    ("failing-writes", Head::FailingWrites),
    ("room", Head::Room),
];

impl Head {
    /// The head of this word.
    pub(crate) fn of(word: &str) -> Option<Head> {
        match HEADS.iter().find(|known| known.0 == word) {
            Some(known) => Some(known.1),
            None => None,
        }
    }

    /// Whether lines of a block may stand behind it.
    pub(crate) fn has_block(self) -> bool {
        matches!(self, Head::Shapes | Head::Tape | Head::Input | Head::Output)
    }
}
