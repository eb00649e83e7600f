use crate::definition::Def;
use crate::name::Name;
use std::fmt;

/// The number of a shape in its registry, from 0.
#[derive(Debug, Clone, Copy, PartialEq, Eq)]
pub struct ShapeId(pub u32);

/// What describes a type. `'v` is how long texts of declared defaults are borrowed.
#[derive(Debug, Drop)]
pub struct Shape<'v> {
    /// Its name, which no other shape of the registry has.
    pub name: Name,
    /// What it is made of.
    pub def: Def<'v>,
    /// The number of the proxy that stands for it.
    pub proxy: Option<u32>,
}

/// A shape's number with its name, for messages. It prints as the name.
#[derive(Debug, Drop)]
pub struct ShapeName {
    /// The number.
    pub id: ShapeId,
    /// The name.
    pub name: Name,
}

impl fmt::Display for ShapeName {
    ghost use Rattle.std.specs.Prelude.{Some};

    ghost output = { λ s. Some s.name };

    fn fmt<W: fmt::Write>(&self, f: &mut fmt::Formatter<W>) -> fmt::Result {
        f.pad(self.name.as_str())
    }
}
