ghost use Rattle.std.specs.Prelude.{◌≡◌, length, nat_lt, slice_get, option_map, bytes_eq, IfOk};
ghost use Rattle.std.specs.List.{position};
ghost use Rattle.std.specs.Option.{option_copied};
ghost use Rattle.semantics.specs.Registry.{IsRegistry};
ghost use Rattle.shape_types.specs.Shapes.{shape_of, registry};

use crate::names::{Numbers, numbers_of};
use shape_types::{Items, OutOfMemory, Shape, ShapeId};
use std::alloc::Global;
use std::marker::Model;

/// A checked registry: shapes by their numbers, which keep every rule of [`crate::ShapeFaultKind`].
///
/// The first seventeen are the scalars, in the order of [`crate::ScalarType::ALL`]. `'v` is how long texts of declared
/// defaults are borrowed.
#[derive(Drop)]
pub struct Shapes<'v> {
    shapes: Items<Shape<'v>>,
    numbers: Numbers,
}

impl<'v> Model for Shapes<'v> {
    ghost use mir.Syntax.{static};
    ghost use Rattle.std.specs.Prelude.{List, []};
    ghost use Rattle.std.specs.Coded.{coded_list};
    ghost use Rattle.shape_types.specs.declared.shape.Shape.{Shape};
    ghost use Rattle.shape_types.specs.contracts.shape.Shape.{the_row};
    ghost use Rattle.shape_core.specs.Names.{AreShapes};

    ghost Value = { List Shape };

    ghost coded = { coded_list (the_row (record { mir = static; lft = [] })).coded };

    ghost view = { λ s. s.shapes };

    ghost invariant = { λ s. AreShapes s.shapes s.numbers };
}

impl<'v> Shapes<'v> {
    /// The shapes of a registry that keeps every rule.
    pub(crate) fn from_items(
        alloc: Global,
        shapes: Items<Shape<'v>>,
    ) -> Result<Shapes<'v>, OutOfMemory>
        requires { IsRegistry (registry shapes) }
        ensures { IfOk result (λ made. made ≡ shapes.entry) }
    {
        let numbers = numbers_of(alloc, shapes.as_slice())?;
        Ok(Shapes { shapes, numbers })
    }

    /// The shape of this number. None where there is no such shape.
    pub fn get(&self, id: ShapeId) -> Option<&Shape<'v>>
        ensures declared { option_copied result ≡ slice_get self.now id.0 }
        ensures shape { option_map shape_of (option_copied result) ≡ slice_get (registry self.now) id.0 }
    {
        self.shapes.get(id.0 as usize)
    }

    /// Whether there is a shape of this number.
    pub fn has(&self, id: ShapeId) -> bool
        ensures { result ≡ nat_lt id.0 (length (registry self.now)) }
    {
        (id.0 as usize) < self.shapes.len()
    }

    /// The shape of this name. None where there is no such shape.
    #[tactic(auto, using(crate::proofs::Lists::position_map))]
    pub fn find(&self, name: &str) -> Option<ShapeId>
        ensures { option_map (λ id. id.0) result ≡ position (λ s. bytes_eq s.name name.now) (registry self.now) }
    {
        let number = self.numbers.get(name)?;
        Some(ShapeId(*number))
    }

    /// The shapes in the order of their numbers.
    pub fn as_slice(&self) -> &[Shape<'v>]
        ensures { result.now ≡ self.now }
    {
        self.shapes.as_slice()
    }

    /// What every registry keeps. It does nothing when it runs.
    pub fn rules(&self)
        ensures { IsRegistry (registry self.now) }
    {
        let _ = &self.shapes;
    }
}
