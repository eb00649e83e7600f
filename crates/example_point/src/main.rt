//! Reads a point from standard input by its shape, moves it up, and prints its tape.
//!
//! The input is a shape text, a line `---` and a tape, as in `examples/point.txt`.
#![tactic(auto)]

use anyhow::{Context, Result, anyhow};
use format_read::FormatDeserializer;
use format_write::serialize_root;
use plan_core::TypePlans;
use shape_core::{Shapes, Value};
use shape_text::read_shapes;
use std::alloc::Global;
use std::io::{Write, read_to_string};
use tape_text::{TapeBytes, TapeParser, TapeWriter};

fn main(rt: HostRuntime) -> Result<()> {
    let alloc = rt.alloc();
    let input = read_to_string(alloc, rt.stdin())?;
    let (shapes, tape) = input.split_once("---\n").context("no line `---`")?;
    let shapes = read_shapes(alloc, shapes.as_bytes()).map_err(|error| anyhow!("{error:?}"))?;
    let moved = moved(alloc, &shapes, tape.as_bytes())?;
    rt.stdout().write_all(moved.as_slice())?;
    Ok(())
}

/// The tape of a point that is moved up. A struct holds its fields in the order of its shape: the last one is `y`.
fn moved(alloc: Global, shapes: &Shapes<'_>, tape: &[u8]) -> Result<TapeBytes> {
    let root = shapes.find("Point").context("no shape `Point`")?;
    let plans = TypePlans::new(alloc, shapes)?;
    let mut parser = TapeParser::new(alloc, tape);
    let mut reader = FormatDeserializer::new(alloc, &mut parser, &plans, 128);
    let mut point = reader.deserialize_value(root)?;
    if let Value::Struct(fields) = &mut point {
        fields.pop();
        fields.push(Value::Unsigned(20))?;
    }
    let mut writer = TapeWriter::new(alloc);
    serialize_root(alloc, shapes, root, &point, &mut writer)?;
    Ok(writer.into_bytes())
}
