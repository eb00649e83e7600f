//! Files of cases: what a program is given, and what it has to answer.
//!
//! A file is read whole, or refused with a line and what is wrong with it. Blocks of text are put together as bytes.
#![tactic(auto)]

mod block;
mod case;
mod escape;
mod fault;
mod head;
mod line;
mod part;
mod reading;
mod reporting;
mod section;

pub use case::{Case, Given, Title};
pub use fault::{CaseFault, CaseFaultKind, ReadCasesError};
pub use reading::read_cases;
pub use reporting::report;
