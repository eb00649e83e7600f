//! Names that stand twice, and shapes found by their names.
//!
//! Tables keep their names in order, so that one is found by few comparisons, whoever chose the names.
ghost use Rattle.std.specs.Prelude.{◌≡◌, ◌≤◌, length, map, bytes_eq, IfOk, OnOk};
ghost use Rattle.semantics.specs.Registry.{has_pair};
ghost use Rattle.semantics_lines.specs.ShapeFaults.{shape_limit};
ghost use Rattle.shape_core.specs.Names.{texts, AreRepeats, FindsShapes, IsNumbered};

use shape_types::{Draft, Field, Items, OutOfMemory, Shape, Variant};
use std::alloc::Global;
use std::collections::{BTreeMap, BTreeSet};

/// Whether a name equals an earlier one.
pub fn some_repeat(alloc: Global, names: &[&str]) -> Result<bool, OutOfMemory>
    ensures { IfOk result (λ found. found ≡ has_pair bytes_eq (texts names.now)) }
{
    let mut seen = BTreeSet::new(alloc);
    'names: for name in names {
        if !seen.insert(*name)? {
            return Ok(true);
        }
    }
    Ok(false)
}

fn field_names<'a>(alloc: Global, fields: &'a [Field<'_>]) -> Result<Items<&'a str>, OutOfMemory>
    ensures { IfOk result (λ names. texts names ≡ map (λ f. f.name) fields.now) }
{
    let mut names = Items::new(alloc);
    'fields: for field in fields {
        names.push(field.name.as_str())?;
    }
    Ok(names)
}

fn variant_names<'a>(
    alloc: Global,
    variants: &'a [Variant<'_>],
) -> Result<Items<&'a str>, OutOfMemory>
    ensures { IfOk result (λ names. texts names ≡ map (λ v. v.name) variants.now) }
{
    let mut names = Items::new(alloc);
    'variants: for variant in variants {
        names.push(variant.name.as_str())?;
    }
    Ok(names)
}

/// Two of the fields have one name.
pub fn fields_repeat(alloc: Global, fields: &[Field]) -> Result<bool, OutOfMemory>
    ensures { IfOk result (λ found. found ≡ has_pair (λ f e. bytes_eq f.name e.name) fields.now) }
{
    let names = field_names(alloc, fields)?;
    some_repeat(alloc, names.as_slice())
}

/// Two of the variants have one name.
pub fn variants_repeat(alloc: Global, variants: &[Variant]) -> Result<bool, OutOfMemory>
    ensures { IfOk result (λ found. found ≡ has_pair (λ v w. bytes_eq v.name w.name) variants.now) }
{
    let names = variant_names(alloc, variants)?;
    some_repeat(alloc, names.as_slice())
}

/// For each shape, whether an earlier one has its name.
pub fn repeated_shapes(alloc: Global, drafts: &[Draft]) -> Result<Items<bool>, OutOfMemory>
    ensures { IfOk result (λ repeats. AreRepeats drafts.now repeats) }
{
    let mut seen = BTreeSet::new(alloc);
    let mut repeats = Items::new(alloc);
    'drafts: for draft in drafts {
        let is_new = seen.insert(draft.name.as_str())?;
        repeats.push(!is_new)?;
    }
    Ok(repeats)
}

/// The numbers of shapes by their names.
pub type Numbers = BTreeMap<String, u32>;

/// Gives the name this number, where it has none.
fn add_number(
    alloc: Global,
    numbers: &mut Numbers,
    name: &str,
    number: u32,
) -> Result<(), OutOfMemory>
    ensures { OnOk result (IsNumbered numbers.old name.now number numbers.new) }
{
    if numbers.contains_key(name) {
        return Ok(());
    }
    let name = String::from_str(alloc, name)?;
    numbers.insert(name, number)?;
    Ok(())
}

/// The number of the first shape of each name.
pub fn numbers_of(alloc: Global, shapes: &[Shape]) -> Result<Numbers, OutOfMemory>
    requires { length shapes.now ≤ shape_limit }
    ensures { IfOk result (λ numbers. FindsShapes numbers shapes.now) }
{
    let mut numbers = BTreeMap::new(alloc);
    'shapes: for (at, shape) in shapes.iter().enumerate() {
        add_number(alloc, &mut numbers, shape.name.as_str(), at as u32)?;
    }
    Ok(numbers)
}
