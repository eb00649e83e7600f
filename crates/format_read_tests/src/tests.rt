//! How far events are read ahead, and what is answered where they stop.
mod ahead;
mod asking;
mod behind;
mod listed;
mod outcome;
mod refused;
mod registry;
mod row;
mod told;
