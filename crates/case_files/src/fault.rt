//! Why a file of cases is refused.
ghost use Rattle.std.specs.Prelude.{◌≡◌};
ghost use Rattle.case_files.specs.FaultTexts.{kind_text};

use shape_types::OutOfMemory;
use std::fmt;

/// What is wrong with a line of a file of cases.
#[derive(Debug, Clone, Copy)]
pub enum CaseFaultKind {
    /// It isn't UTF-8.
    NotUtf8,
    /// It begins with a tab.
    Tab,
    /// It is indented, and no head line stands before it.
    Stray,
    /// Its first word begins no line of a case.
    UnknownWord,
    /// It begins a case and has no name.
    NoName,
    /// It belongs to a case, and none has begun.
    Outside,
    /// Its case has such a line already.
    Repeated,
    /// It is a line of a block, and the head line before it has none.
    NoBlock,
    /// Behind a block's word stands something else than `raw` or `unended`.
    BadForm,
    /// A backslash in it begins no escape.
    BadEscape,
    /// A quote in it isn't closed.
    OpenQuote,
    /// A decimal that fits is wanted.
    BadNumber,
    /// The case that begins here has no words.
    NoWords,
    /// The case that begins here has no status.
    NoStatus,
    /// The case that begins here has no tape and no input.
    NoInput,
    /// The case that begins here has a tape and an input.
    TwoInputs,
}

impl CaseFaultKind {
    /// What is wrong, in a sentence's words.
    fn text<'t>(self) -> &'t str
        ensures { result.now ≡ kind_text self }
    {
        match self {
            CaseFaultKind::NotUtf8 => "the line isn't UTF-8",
            CaseFaultKind::Tab => "the line begins with a tab; blocks are indented by spaces",
            CaseFaultKind::Stray => "an indented line stands before any line that has a block",
            CaseFaultKind::UnknownWord => "no line of a case begins with this word",
            CaseFaultKind::NoName => "the case has no name",
            CaseFaultKind::Outside => "the line belongs to a case, and none has begun",
            CaseFaultKind::Repeated => "the case has such a line already",
            CaseFaultKind::NoBlock =>
                "the line is indented, but the head line before it has no block",
            CaseFaultKind::BadForm => "a block is plain, `raw` or `unended`",
            CaseFaultKind::BadEscape => "the escapes of a raw block are \\n, \\s, \\\\ and \\xHH",
            CaseFaultKind::OpenQuote => "a quote isn't closed",
            CaseFaultKind::BadNumber => "a decimal that fits is wanted",
            CaseFaultKind::NoWords => "the case has no line `words`",
            CaseFaultKind::NoStatus => "the case has no line `status`",
            CaseFaultKind::NoInput => "the case has neither `tape` nor `input`",
            CaseFaultKind::TwoInputs => "the case has both `tape` and `input`",
        }
    }
}

impl fmt::Display for CaseFaultKind {
    ghost use Rattle.case_files.specs.FaultTexts.{kind_shown};

    ghost output = { kind_shown };

    fn fmt<W: fmt::Write>(&self, f: &mut fmt::Formatter<W>) -> fmt::Result {
        f.write_str(self.text())
    }
}

/// What is wrong with a file of cases, and where.
#[derive(Debug, Clone, Copy)]
pub struct CaseFault {
    /// The line, from 1.
    pub line: usize,
    /// What is wrong with it.
    pub kind: CaseFaultKind,
}

impl fmt::Display for CaseFault {
    ghost use Rattle.case_files.specs.FaultTexts.{fault_shown};

    ghost output = { fault_shown };

    fn fmt<W: fmt::Write>(&self, f: &mut fmt::Formatter<W>) -> fmt::Result {
        let CaseFault { line, kind } = *self;
        write!(f, "line {line}: {kind}")
    }
}

/// Why cases weren't read.
#[derive(Debug, Clone, Copy)]
pub enum ReadCasesError {
    /// The file has this fault.
    Fault(CaseFault),
    /// Memory ran out.
    Alloc,
}

impl From<OutOfMemory> for ReadCasesError {
    ghost use Rattle.std.specs.Prelude.{◌≡◌};
    ghost use Rattle.case_files.specs.declared.fault.ReadCasesError.TheVariants.{Alloc};

    ghost from_gives = { λ _ error. error ≡ Alloc };

    fn from(_error: OutOfMemory) -> Self {
        ReadCasesError::Alloc
    }
}

/// A fault at this line.
pub(crate) fn fault(line: usize, kind: CaseFaultKind) -> ReadCasesError
    ensures { result ≡ ReadCasesError.Fault (record { line = line; kind = kind }) }
{
    ReadCasesError::Fault(CaseFault { line, kind })
}
