//! The parts of one case.

use crate::block::{add_block, add_line};
use crate::case::{Case, Given, Title};
use crate::fault::{CaseFaultKind, ReadCasesError, fault};
use crate::head::Head;
use crate::part::{Part, behind};
use case_answers::Outcome;
use shape_types::{Items, OutOfMemory};
use std::alloc::Global;

/// A case: its first part, the others, and the shapes in force.
#[derive(Clone, Copy)]
pub(crate) struct Section<'p, 'l, 'a> {
    pub first: &'p Part<'l, 'a>,
    pub others: &'p [Part<'l, 'a>],
    pub shapes: Option<&'p Part<'l, 'a>>,
}

impl<'p, 'l, 'a> Section<'p, 'l, 'a> {
    /// The part with this head.
    fn part(&self, head: Head) -> Option<&'p Part<'l, 'a>> {
        part_with(self.others, head)
    }

    /// What stands behind this head's word. Nothing where the case has no such line.
    fn text(&self, head: Head) -> &'a str {
        match self.part(head) {
            Some(part) => part.text,
            None => "",
        }
    }

    /// Sees that the case has a name, what it has to have, and no line twice.
    fn check(&self) -> Result<(), ReadCasesError> {
        no_repeats(self.others)?;
        match self.lacks() {
            Some(kind) => Err(fault(self.first.line, kind)),
            None => Ok(()),
        }
    }

    /// What the case lacks, or has too much.
    fn lacks(&self) -> Option<CaseFaultKind> {
        if self.first.text.trim_start_matches(' ').is_empty() {
            return Some(CaseFaultKind::NoName);
        }
        if self.part(Head::Words).is_none() {
            return Some(CaseFaultKind::NoWords);
        }
        if self.part(Head::Status).is_none() {
            return Some(CaseFaultKind::NoStatus);
        }
        match (
            self.part(Head::Tape).is_some(),
            self.part(Head::Input).is_some(),
        ) {
            (false, false) => Some(CaseFaultKind::NoInput),
            (true, true) => Some(CaseFaultKind::TwoInputs),
            _ => None,
        }
    }

    /// The case that the parts tell.
    pub(crate) fn case(&self, alloc: Global) -> Result<Case<'a>, ReadCasesError> {
        self.check()?;
        let words = self.words(alloc)?;
        let given = self.given(alloc)?;
        let wanted = self.wanted(alloc)?;
        Ok(Case {
            title: self.title(),
            words,
            given,
            wanted,
        })
    }

    /// What the case is called.
    fn title(&self) -> Title<'a> {
        Title {
            line: self.first.line,
            name: self.first.text,
            shows: self.text(Head::Shows),
        }
    }

    /// The words: those between quotes as they are, and the others parted by spaces.
    fn words(&self, alloc: Global) -> Result<Items<&'a str>, ReadCasesError> {
        let mut words = Items::new(alloc);
        let mut quoted = false;
        for piece in self.text(Head::Words).split('"') {
            add_words(piece, quoted, &mut words)?;
            quoted = !quoted;
        }
        if quoted {
            Ok(words)
        } else {
            Err(self.fault_at(Head::Words, CaseFaultKind::OpenQuote))
        }
    }

    /// A fault at the line of this head.
    fn fault_at(&self, head: Head, kind: CaseFaultKind) -> ReadCasesError {
        match self.part(head) {
            Some(part) => fault(part.line, kind),
            None => fault(self.first.line, kind),
        }
    }

    /// What the run is given beside its words.
    fn given(&self, alloc: Global) -> Result<Given, ReadCasesError> {
        let room = self.room()?;
        let failing_reads = self.numbers(alloc, Head::FailingReads)?;
        let failing_writes = self.numbers(alloc, Head::FailingWrites)?;
        let input = self.input(alloc)?;
        Ok(Given {
            input,
            failing_reads,
            failing_writes,
            room,
        })
    }

    /// The decimals behind this head's word.
    fn numbers(&self, alloc: Global, head: Head) -> Result<Items<usize>, ReadCasesError> {
        let mut numbers = Items::new(alloc);
        for word in self.text(head).split(' ') {
            self.add_number(head, word, &mut numbers)?;
        }
        Ok(numbers)
    }

    /// Adds the decimal of a word, unless it is empty.
    fn add_number(
        &self,
        head: Head,
        word: &str,
        numbers: &mut Items<usize>,
    ) -> Result<(), ReadCasesError> {
        if word.is_empty() {
            return Ok(());
        }
        let number = self.number(head, word)?;
        numbers.push(number)?;
        Ok(())
    }

    /// A decimal on the line of this head.
    fn number(&self, head: Head, word: &str) -> Result<usize, ReadCasesError> {
        match word.parse::<usize>() {
            Ok(number) => Ok(number),
            Err(_) => Err(self.fault_at(head, CaseFaultKind::BadNumber)),
        }
    }

    /// How many bytes the sink takes, where the case says so.
    fn room(&self) -> Result<Option<usize>, ReadCasesError> {
        match self.part(Head::Room) {
            Some(part) => Ok(Some(self.number(Head::Room, part.text)?)),
            None => Ok(None),
        }
    }

    /// The bytes of the source: the input, or the shapes, the line that divides, and the tape.
    fn input(&self, alloc: Global) -> Result<Items<u8>, ReadCasesError> {
        let mut bytes = Vec::new(alloc);
        self.add_input(&mut bytes)?;
        Ok(Items::from_vec(bytes))
    }

    fn add_input(&self, bytes: &mut Vec<u8>) -> Result<(), ReadCasesError> {
        if let Some(tape) = self.part(Head::Tape) {
            if let Some(shapes) = self.shapes {
                add_block(bytes, shapes)?;
            }
            add_line(bytes, "---")?;
            add_block(bytes, tape)?;
        }
        self.add_bytes(bytes, Head::Input)
    }

    /// Adds the bytes of this head's block, where the case has it.
    fn add_bytes(&self, bytes: &mut Vec<u8>, head: Head) -> Result<(), ReadCasesError> {
        match self.part(head) {
            Some(part) => add_block(bytes, part),
            None => Ok(()),
        }
    }

    /// What the run has to answer.
    fn wanted(&self, alloc: Global) -> Result<Outcome, ReadCasesError> {
        let status = self.status()?;
        let notes = self.notes(alloc)?;
        let output = self.output(alloc)?;
        Ok(Outcome {
            status,
            notes,
            output,
        })
    }

    /// The status.
    fn status(&self) -> Result<u8, ReadCasesError> {
        match self.text(Head::Status).parse::<u8>() {
            Ok(status) => Ok(status),
            Err(_) => Err(self.fault_at(Head::Status, CaseFaultKind::BadNumber)),
        }
    }

    /// The bytes of the notes: a line, or none.
    fn notes(&self, alloc: Global) -> Result<Items<u8>, ReadCasesError> {
        let mut bytes = Vec::new(alloc);
        if let Some(part) = self.part(Head::Notes) {
            add_line(&mut bytes, part.text)?;
        }
        Ok(Items::from_vec(bytes))
    }

    /// The bytes of the output.
    fn output(&self, alloc: Global) -> Result<Items<u8>, ReadCasesError> {
        let mut bytes = Vec::new(alloc);
        self.add_bytes(&mut bytes, Head::Output)?;
        Ok(Items::from_vec(bytes))
    }
}

/// Adds a word that was quoted, or words parted by spaces.
fn add_words<'a>(
    text: &'a str,
    quoted: bool,
    words: &mut Items<&'a str>,
) -> Result<(), OutOfMemory> {
    if quoted {
        return words.push(text);
    }
    for word in text.split(' ') {
        if !word.is_empty() {
            words.push(word)?;
        }
    }
    Ok(())
}

/// The first part with this head.
fn part_with<'p, 'l, 'a>(parts: &'p [Part<'l, 'a>], head: Head) -> Option<&'p Part<'l, 'a>> {
    parts.iter().find(|part| part.head == head)
}

/// Sees that no line stands twice.
fn no_repeats(parts: &[Part<'_, '_>]) -> Result<(), ReadCasesError> {
    for (at, first) in parts.iter().enumerate() {
        if let Some(second) = second_of(first.head, behind(parts, at)) {
            return Err(fault(second.line, CaseFaultKind::Repeated));
        }
    }
    Ok(())
}

/// The part that has this head too. Shapes may stand again, for the cases behind.
fn second_of<'p, 'l, 'a>(head: Head, parts: &'p [Part<'l, 'a>]) -> Option<&'p Part<'l, 'a>> {
    if head == Head::Shapes {
        return None;
    }
    part_with(parts, head)
}
