//! The shapes of a text by their names.
ghost use Rattle.std.specs.Prelude.{◌≡◌, ◌≤◌, map, length, IfOk, IfErr, OnOk, IsTrue};
ghost use Rattle.std.specs.List.{list_all};
ghost use Rattle.semantics_lines.specs.ShapeLines.{head_references};
ghost use Rattle.semantics_lines.specs.ShapeText.{all_names, is_there, is_known, number_in, is_map_at};
ghost use Rattle.shape_lines.specs.ShapeLines.{shape_line, head_view, texts, scalar_texts};
ghost use Rattle.shape_lines.specs.ShapeScopes.{scope_view, all_maps, scalar_maps, IsReferenceFault};

use crate::shape_fault::{ReadShapesError, ShapeTextKind, fault};
use crate::shape_line::{Head, ShapeLine};
use crate::shape_numbers::Names;
use shape_types::{Items, OutOfMemory, ScalarType, ShapeId};
use std::alloc::Global;

/// What is known of all shapes, by their numbers.
#[derive(Clone, Copy)]
pub(crate) struct Scope<'s, 'a> {
    /// Their names.
    pub names: &'s Names<'a>,
    /// For each, whether it is a map.
    pub maps: &'s [bool],
}

/// The names of the scalars, in the order of their numbers.
fn scalar_names<'a>(alloc: Global) -> Result<Items<&'a str>, OutOfMemory>
    ensures { IfOk result (λ names. texts names ≡ scalar_texts) }
{
    let mut names = Items::new(alloc);
    for scalar in ScalarType::ALL.iter() {
        names.push(scalar.name())?;
    }
    Ok(names)
}

/// The names of all shapes by their numbers, those of the scalars first.
fn listed_names<'a>(alloc: Global, lines: &[ShapeLine<'a>]) -> Result<Items<&'a str>, OutOfMemory>
    ensures { IfOk result (λ names. texts names ≡ all_names (map shape_line lines.now)) }
{
    let mut names = scalar_names(alloc)?;
    'lines: for line in lines {
        if let ShapeLine::Head { name, .. } = line {
            names.push(*name)?;
        }
    }
    Ok(names)
}

/// The names of all shapes, with the table by which they are found.
pub(crate) fn all_names<'a>(
    alloc: Global,
    lines: &[ShapeLine<'a>],
) -> Result<Names<'a>, OutOfMemory>
    ensures { IfOk result (λ names. names ≡ all_names (map shape_line lines.now)) }
{
    let names = listed_names(alloc, lines)?;
    Names::new(alloc, names)
}

/// For each of the seventeen scalars, that it is no map.
#[tactic(auto, unfolding(semantics_lines::specs::Scalars::scalar_drafts))]
fn scalar_maps(alloc: Global) -> Result<Items<bool>, OutOfMemory>
    ensures { IfOk result (λ maps. maps ≡ scalar_maps) }
{
    Items::from_slice(alloc, &[false; 17])
}

/// For each shape by its number, whether it is a map.
pub(crate) fn all_maps(alloc: Global, lines: &[ShapeLine<'_>]) -> Result<Items<bool>, OutOfMemory>
    ensures { IfOk result (λ maps. maps ≡ all_maps (map shape_line lines.now)) }
{
    let mut maps = scalar_maps(alloc)?;
    'lines: for line in lines {
        if let ShapeLine::Head { head, .. } = line {
            maps.push(matches!(head, Head::Map(_, _)))?;
        }
    }
    Ok(maps)
}

/// Whether there is a shape of this name.
fn is_there(names: &Names<'_>, name: &str) -> bool
    ensures { result ≡ is_there names.now name.now }
{
    names.number_of(name).is_some()
}

/// Whether the shapes are there over which a shape stands.
fn head_is_known(names: &Names<'_>, head: &Head<'_>) -> bool
    ensures { result ≡ list_all (is_there names.now) (head_references (head_view head.now)) }
{
    match head {
        Head::Option(shape) => is_there(names, shape),
        Head::List(shape) => is_there(names, shape),
        Head::Set(shape) => is_there(names, shape),
        Head::Transparent(shape) => is_there(names, shape),
        Head::Result(shape, other) => is_there(names, shape) && is_there(names, other),
        Head::Map(key, value) => is_there(names, key) && is_there(names, value),
        Head::Array(_, shape) => is_there(names, shape),
        _ => true,
    }
}

/// Whether the shapes are there to which a line refers.
fn is_known(names: &Names<'_>, line: &ShapeLine<'_>) -> bool
    ensures { result ≡ is_known names.now (shape_line line.now) }
{
    match line {
        ShapeLine::Head { head, .. } => head_is_known(names, head),
        ShapeLine::Item { shape } => is_there(names, shape),
        ShapeLine::Field(field) => is_there(names, field.shape),
        ShapeLine::Variant(_) => true,
    }
}

/// Sees that each shape is there to which a line refers.
pub(crate) fn check_references(
    names: &Names<'_>,
    lines: &[ShapeLine<'_>],
) -> Result<(), ReadShapesError>
    ensures known { OnOk result (IsTrue (list_all (is_known names.now) (map shape_line lines.now))) }
    ensures refused { IfErr result (λ error. IsReferenceFault names.now (map shape_line lines.now) error) }
{
    'lines: for (at, line) in lines.iter().enumerate() {
        if !is_known(names, line) {
            return Err(fault(at + 1, ShapeTextKind::UnknownRef));
        }
    }
    Ok(())
}

/// The number of the first shape of this name, and 0 where there is none.
pub(crate) fn number_in(scope: Scope<'_, '_>, name: &str) -> ShapeId
    requires { length scope.names.now ≤ 65535 }
    ensures { result.0 ≡ number_in (scope_view scope.entry) name.now }
{
    let at = scope.names.number_of(name).unwrap_or(0);
    ShapeId(at as u32)
}

/// Whether the shape of this number is a map.
pub(crate) fn is_map_at(scope: Scope<'_, '_>, number: ShapeId) -> bool
    ensures { result ≡ is_map_at (scope_view scope.entry) number.0 }
{
    match scope.maps.get(number.0 as usize) {
        Some(is_map) => *is_map,
        None => false,
    }
}
