//! A serializer that keeps a word of each call, and fails after some.
ghost use Rattle.std.specs.Prelude.{◌≡◌, ◌≤◌, IfErr, OnOk};
ghost use Rattle.semantics_lines.specs.Calls.{default_settings};
ghost use Rattle.format_traits.specs.Writing.{Writing, Stops};

use event_core::ScalarValue;
use format_traits::{FormatSerializer, WriteStop};
use shape_core::OutOfMemory;
use std::alloc::Global;

#[derive(Debug, Drop)]
pub(super) struct Broken;

/// Keeps a word of each call, takes so many calls, and then refuses them.
#[derive(Drop)]
pub(super) struct Recorder {
    pub(super) calls: String,
    left: usize,
    faults: u64,
}

impl Recorder {
    pub(super) fn new(alloc: Global, left: usize) -> Recorder {
        Recorder {
            calls: String::new(alloc),
            left,
            faults: 0,
        }
    }

    fn spend(&mut self) -> Result<(), WriteStop<Broken>>
        ensures taken { OnOk result (self.new.faults ≡ self.old.faults) }
        ensures refused { IfErr result (λ stop. (self.old.faults ≤ self.new.faults) × Stops (record { settings = default_settings; faults = self.old.faults }) (record { settings = default_settings; faults = self.new.faults }) stop) }
    {
        if self.left == 0 {
            self.faults = self.faults.saturating_add(1);
            return Err(WriteStop::Fault(Broken));
        }
        self.left -= 1;
        Ok(())
    }

    fn add(&mut self, word: &str, text: &str) -> Result<(), WriteStop<Broken>>
        ensures taken { OnOk result (self.new.faults ≡ self.old.faults) }
        ensures refused { IfErr result (λ stop. (self.old.faults ≤ self.new.faults) × Stops (record { settings = default_settings; faults = self.old.faults }) (record { settings = default_settings; faults = self.new.faults }) stop) }
    {
        self.spend()?;
        if note(&mut self.calls, word, text).is_err() {
            return Err(WriteStop::Alloc);
        }
        Ok(())
    }

    fn add_scalar(&mut self, scalar: &ScalarValue<'_>) -> Result<(), WriteStop<Broken>>
        ensures taken { OnOk result (self.new.faults ≡ self.old.faults) }
        ensures refused { IfErr result (λ stop. (self.old.faults ≤ self.new.faults) × Stops (record { settings = default_settings; faults = self.old.faults }) (record { settings = default_settings; faults = self.new.faults }) stop) }
    {
        self.spend()?;
        if shown(&mut self.calls, scalar).is_err() {
            return Err(WriteStop::Alloc);
        }
        Ok(())
    }
}

/// Adds a word.
pub(super) fn note(calls: &mut String, word: &str, text: &str) -> Result<(), OutOfMemory> {
    if !calls.is_empty() {
        calls.push(' ')?;
    }
    calls.push_str(word)?;
    calls.push_str(text)?;
    Ok(())
}

fn shown(calls: &mut String, scalar: &ScalarValue<'_>) -> Result<(), OutOfMemory> {
    if !calls.is_empty() {
        calls.push(' ')?;
    }
    write!(calls, "{scalar:?}")?;
    Ok(())
}

impl FormatSerializer for Recorder {
    type Error = Broken;

    ghost writing = { λ s. record { settings = default_settings; faults = s.faults } };

    ghost made = { λ a b calls. Unit {0} };

    fn begin_struct(&mut self) -> Result<(), WriteStop<Broken>> {
        self.add("{", "")
    }

    fn field_key(&mut self, key: &str) -> Result<(), WriteStop<Broken>> {
        self.add("key:", key)
    }

    fn end_struct(&mut self) -> Result<(), WriteStop<Broken>> {
        self.add("}", "")
    }

    fn begin_seq(&mut self) -> Result<(), WriteStop<Broken>> {
        self.add("[", "")
    }

    fn end_seq(&mut self) -> Result<(), WriteStop<Broken>> {
        self.add("]", "")
    }

    fn scalar(&mut self, scalar: ScalarValue<'_>) -> Result<(), WriteStop<Broken>> {
        let answer = self.add_scalar(&scalar);
        drop(scalar);
        answer
    }

    ghost starts = { λ a. tt };

    ghost joins = { λ a b c xs ys x y. tt };
}
