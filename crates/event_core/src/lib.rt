//! Events of a parser, keys, metadata, places and errors.
//!
//! Clauses speak of an event as `event_of` sees it, and of an error as `fault_of` does.
#![tactic(auto)]

mod error;
mod error_text;
mod event;
mod evidence;
mod key;
mod metadata;
mod path;
mod queue;
mod reflect;
mod reflect_text;
mod scalar;
mod span;
mod steps;

pub use error::{DeserializeError, DeserializeErrorKind, ParseError, SerializeError};
pub use event::{ContainerKind, ParseEvent, ParseEventKind};
pub use evidence::{FieldEvidence, ValueTypeHint};
pub use key::{FieldKey, FieldLocationHint, FullFieldKey};
pub use metadata::{Docs, MetaSource, ValueMeta, ValueMetaBuilder};
pub use path::{Path, PathSegment};
pub use queue::EventQueue;
pub use reflect::{ReflectError, ReflectErrorKind};
pub use scalar::ScalarValue;
pub use span::Span;
pub use steps::Steps;
