//! The lines of a shape text: what each says, and the drafts of shapes that they describe.
//!
//! Lines are read one by one, then their references are checked, and then each shape is defined from its lines. That the
//! shapes keep the rules of a registry is seen above, in `shape_text`.
#![tactic(auto)]

mod description;
mod shape_definitions;
mod shape_fault;
mod shape_field;
mod shape_head;
mod shape_line;
mod shape_lines;
mod shape_members;
mod shape_names;
mod shape_numbers;
mod shape_place;
mod shape_quoted;
mod shape_reading;
mod shape_variant;
mod shape_words;

pub use description::describe;
pub use shape_definitions::line_of_shape;
pub use shape_fault::{ReadShapesError, ShapeTextFault, ShapeTextKind, fault};
pub use shape_line::ShapeLine;
pub use shape_lines::read_lines;
