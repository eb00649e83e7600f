//! Shape texts: the registry that a text describes, or the first fault and its line.
//!
//! The lines are read by `shape_lines`, and the shapes that they describe are checked here.
#![tactic(auto)]

mod text;

pub use shape_lines::{ReadShapesError, ShapeTextFault, ShapeTextKind};
pub use text::read_shapes;
