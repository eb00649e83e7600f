//! What no program tells: which event a line is, what the calls of a parser answer, and which lines a writer writes.
mod calls;
mod damaged;
mod lines;
mod shown;
mod written;
