//! The plans of all shapes of a registry.
ghost use Rattle.std.specs.Prelude.{◌≡◌, ◌<◌, Some, length, option_map, IfOk};
ghost use Rattle.semantics_lines.specs.Shapes.{definition_at};
ghost use Rattle.shape_types.specs.Shapes.{registry};
ghost use Rattle.plan_core.specs.Strategies.{strategy_in, strategy_view};

use crate::strategy::{DeserStrategy, strategy_of};
use shape_core::{OutOfMemory, ShapeId, Shapes};
use std::alloc::Global;

/// What a reader needs to know of the shapes of a registry.
///
/// `'s` is how long they are borrowed, and `'v` how long texts of their declared defaults are.
#[derive(Drop)]
pub struct TypePlans<'s, 'v> {
    shapes: &'s Shapes<'v>,
}

impl<'s, 'v> TypePlans<'s, 'v> {
    /// The plans of these shapes. It is refused for want of memory alone.
    pub fn new(_alloc: Global, shapes: &'s Shapes<'v>) -> Result<TypePlans<'s, 'v>, OutOfMemory>
        ensures { IfOk result (λ plans. plans.shapes ≡ shapes.entry) }
    {
        Ok(TypePlans { shapes })
    }

    /// The registry that the plans were made of.
    pub fn shapes(&self) -> &'s Shapes<'v>
        ensures { result ≡ self.now.shapes }
    {
        self.shapes
    }

    /// How the values of this shape are read.
    pub fn strategy(&self, id: ShapeId) -> DeserStrategy
        requires { id.0 < length (registry self.now.shapes.now) }
        ensures { option_map (strategy_in (registry self.now.shapes.now)) (definition_at (registry self.now.shapes.now) id.0) ≡ Some (strategy_view result) }
    {
        strategy_of(self.shapes, &self.shapes.as_slice()[id.0 as usize].def)
    }
}
