//! Reads values by what is open of them: frames on the heap, and what one event does to these.
//!
//! Frames know no parser: each call is handed one event, or the place behind which a value has to come. Clauses see the
//! frames as `laws_machine` defines them, and each step as its step of the machine there.
#![tactic(auto)]

mod awaiting;
mod begin;
mod delivery;
mod expected;
mod fields;
mod fill;
mod filled;
mod fits;
mod form;
mod frames;
mod items;
mod key;
mod kind;
mod leaving;
mod left;
mod node;
mod object;
mod opened;
mod order;
mod outcome;
mod parts;
mod pass;
mod path;
mod refusal;
mod scalar;
mod stack;
mod steps;
mod stop;
mod task;
mod tuple;
mod waiting;

pub use awaiting::await_value;
pub use expected::{Expected, Unfit};
pub use frames::Frames;
pub use leaving::leaves;
pub use left::refuse_left;
pub use steps::{Status, step};
pub use stop::{ReadStop, is_memory};
pub use task::Task;
pub use waiting::expected_at_end;
