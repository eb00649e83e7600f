//! The numbers of shapes by their names.
ghost use Rattle.std.specs.Prelude.{◌≡◌, IfOk, OnOk};
ghost use Rattle.semantics_lines.specs.ShapeText.{number_of};
ghost use Rattle.shape_lines.specs.ShapeLines.{texts};
ghost use Rattle.shape_lines.specs.ShapeNumbers.{AreNumbers, IsNumbered};

use shape_types::{Items, OutOfMemory};
use std::alloc::Global;
use std::collections::BTreeMap;
use std::marker::Model;

/// The names of all shapes, by their numbers.
///
/// The table beside them keeps them in order, so that a name is found by few comparisons, whoever chose the names.
#[derive(Drop)]
pub(crate) struct Names<'a> {
    names: Items<&'a str>,
    numbers: BTreeMap<&'a str, usize>,
}

impl<'a> Model for Names<'a> {
    ghost use Rattle.std.specs.Prelude.{List, ℕ};
    ghost use Rattle.shape_lines.specs.ShapeLines.{texts};
    ghost use Rattle.shape_lines.specs.ShapeNumbers.{AreNumbers};

    ghost Value = { List (List ℕ) };

    ghost view = { λ n. texts n.names };

    ghost invariant = { λ n. AreNumbers n.numbers (texts n.names) };
}

impl<'a> Names<'a> {
    /// These names, with their table.
    pub(crate) fn new(alloc: Global, names: Items<&'a str>) -> Result<Names<'a>, OutOfMemory>
        ensures { IfOk result (λ made. made ≡ texts names.entry) }
    {
        let numbers = numbers_of(alloc, names.as_slice())?;
        Ok(Names { names, numbers })
    }

    /// The number of the first shape of this name.
    pub(crate) fn number_of(&self, name: &str) -> Option<usize>
        ensures { result ≡ number_of self.now name.now }
    {
        self.numbers.get(name).copied()
    }
}

/// Gives the name this number, where it has none.
fn add_number<'a>(
    numbers: &mut BTreeMap<&'a str, usize>,
    name: &'a str,
    number: usize,
) -> Result<(), OutOfMemory>
    ensures { OnOk result (IsNumbered numbers.old name.now number numbers.new) }
{
    if numbers.contains_key(name) {
        return Ok(());
    }
    numbers.insert(name, number)?;
    Ok(())
}

/// The number of the first of each name.
fn numbers_of<'a>(alloc: Global, names: &[&'a str]) -> Result<BTreeMap<&'a str, usize>, OutOfMemory>
    ensures { IfOk result (λ numbers. AreNumbers numbers (texts names.now)) }
{
    let mut numbers = BTreeMap::new(alloc);
    'names: for (number, name) in names.iter().enumerate() {
        add_number(&mut numbers, *name, number)?;
    }
    Ok(numbers)
}
