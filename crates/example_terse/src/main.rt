//! Reads a list of points from a terse text by their shape, and prints its tape.
#![tactic(auto)]

use anyhow::{Context, Result, anyhow};
use format_read::FormatDeserializer;
use format_write::serialize_root;
use plan_core::TypePlans;
use shape_core::Shapes;
use shape_text::read_shapes;
use std::alloc::Global;
use std::io::Write;
use tape_text::{TapeBytes, TapeWriter};
use terse_text::TerseParser;

const SHAPES: &str = "shape Route list Point
shape Point struct
field x u64
field y Height
shape Height option u64
";

fn main(rt: HostRuntime) -> Result<()> {
    let alloc = rt.alloc();
    let shapes = read_shapes(alloc, SHAPES.as_bytes()).map_err(|error| anyhow!("{error:?}"))?;
    let tape = tape_of(alloc, &shapes, b"[{y2x1}{x3y-}]")?;
    rt.stdout().write_all(tape.as_slice())?;
    Ok(())
}

/// The tape of a route that is told tersely.
fn tape_of(alloc: Global, shapes: &Shapes<'_>, terse: &[u8]) -> Result<TapeBytes> {
    let root = shapes.find("Route").context("no shape `Route`")?;
    let plans = TypePlans::new(alloc, shapes)?;
    let mut parser = TerseParser::new(terse);
    let mut reader = FormatDeserializer::new(alloc, &mut parser, &plans, 128);
    let route = reader.deserialize_value(root)?;

    let mut writer = TapeWriter::new(alloc);
    serialize_root(alloc, shapes, root, &route, &mut writer)?;
    Ok(writer.into_bytes())
}
