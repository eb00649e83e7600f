//! Texts, values, and what shapes are made of: the types that events, errors and texts of shapes are made of too.
//!
//! Contracts speak of the definitions of `semantics_lines`, through the views in `specs/`.
#![tactic(auto)]

mod boxed;
mod builder;
mod bytes;
mod copy;
mod defaults;
mod definition;
mod draft;
mod enums;
mod fault;
mod field;
mod items;
mod memory;
mod name;
mod scalar;
mod shape;
mod text;
mod value;

pub use boxed::Boxed;
pub use builder::DraftsBuilder;
pub use bytes::Bytes;
pub use definition::Def;
pub use draft::Draft;
pub use enums::{EnumDef, EnumForm, TagKind, Variant, VariantMode};
pub use fault::{CheckFault, FacetFault, NameFault, ShapeFault, ShapeFaultKind};
pub use field::{Field, MetaKind, SkipRule, StructDef, StructKind};
pub use items::Items;
pub use memory::OutOfMemory;
pub use name::Name;
pub use scalar::ScalarType;
pub use shape::{Shape, ShapeId, ShapeName};
pub use text::Text;
pub use value::{Pair, Value};
