//! The checked registry of shapes, the builder that it is made by, and whether a value is of a shape.
//!
//! The types of shapes and values are those of `shape_types`, and stand here under the same names. Contracts speak of the
//! definitions of `semantics`, through the views in `shape_types`.
#![tactic(auto)]

mod builder;
mod built;
mod check;
mod defaults;
mod effective;
mod forms;
mod keys;
mod kinds;
mod names;
mod rules;
mod shapes;
mod steps;
mod types;
mod utf8;

pub use builder::ShapesBuilder;
pub use effective::effective_name;
pub use shape_types::{
    Boxed, Bytes, CheckFault, Def, Draft, DraftsBuilder, EnumDef, EnumForm, FacetFault, Field,
    Items, MetaKind, Name, NameFault, OutOfMemory, Pair, ScalarType, Shape, ShapeFault,
    ShapeFaultKind, ShapeId, ShapeName, SkipRule, StructDef, StructKind, TagKind, Text, Value,
    Variant, VariantMode,
};
pub use shapes::Shapes;
