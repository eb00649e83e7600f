//! Where the writing stops, and that a context writes one value behind another.
ghost use Rattle.semantics.specs.Calling.{calls_of};
ghost use Rattle.shape_types.specs.Trees.{tree_of};
ghost use Rattle.format_write.specs.Wrote.{Wrote, writer};

mod recorder;
mod samples;

use event_core::SerializeError;
use format_traits::FormatSerializer;
use format_write::{SerializeContext, serialize_root};
use recorder::{Broken, Recorder, note};
use samples::{Leaf, Made, shapes, value};
use shape_core::{OutOfMemory, ShapeId, Shapes, Value};
use std::alloc::Global;
use std::process::Abort;

/// The name of a shape, a value and the calls that are made. Behind those that end in `!` a part without a form comes.
type Row = (&'static str, Made, &'static str);

static STOPPED: [Row; 11] = [
    ("u8", Made::Leaf(Leaf::Unsigned(256)), "!"),
    ("i8", Made::Leaf(Leaf::Signed(-129)), "!"),
    ("i8", Made::Leaf(Leaf::Signed(128)), "!"),
    ("u64", Made::Leaf(Leaf::Bool(true)), "!"),
    ("List", Made::Map, "!"),
    ("Array", Made::List(&[Leaf::Unsigned(1)]), "!"),
    (
        "List",
        Made::List(&[Leaf::Unsigned(1), Leaf::Bool(true)]),
        "[ U64(1) !",
    ),
    ("Pair", Made::Struct(&[Leaf::Unsigned(1)]), "[ U64(1) !"),
    (
        "Pair",
        Made::Struct(&[Leaf::Unsigned(1), Leaf::Bool(true), Leaf::Unit]),
        "[ U64(1) Bool(true) !",
    ),
    (
        "Point",
        Made::Struct(&[Leaf::Unsigned(1)]),
        "{ key:x U64(1) !",
    ),
    (
        "Point",
        Made::Struct(&[Leaf::Unsigned(1), Leaf::Unsigned(1)]),
        "{ key:x U64(1) key:y !",
    ),
];

/// A word for how the writing ended.
fn end_of(answer: &Result<(), SerializeError<Broken>>) -> &'static str {
    match answer {
        Ok(()) => ".",
        Err(SerializeError::Unsupported(_)) => "!",
        Err(SerializeError::Backend(Broken)) => "broken",
        Err(_) => "?",
    }
}

/// Writes a value, and answers how that ended.
fn write(
    alloc: Global,
    shapes: &Shapes,
    shape: ShapeId,
    value: &Value<'_>,
    recorder: &mut Recorder,
) -> &'static str {
    let answer = serialize_root(alloc, shapes, shape, value, recorder);
    let end = end_of(&answer);
    drop(answer);
    end
}

/// The number of the shape of a name.
fn shape_of(rt: &impl Abort, shapes: &Shapes, name: &str) -> ShapeId {
    shapes.find(name).expect(rt, "a shape")
}

/// Writes a value into the recorder, and notes how that ended.
fn write_made(
    alloc: Global,
    shapes: &Shapes,
    shape: ShapeId,
    made: Made,
    recorder: &mut Recorder,
) -> Result<(), OutOfMemory> {
    let value = value(alloc, made)?;
    let end = write(alloc, shapes, shape, &value, recorder);
    drop(value);
    note(&mut recorder.calls, end, "")
}

/// The recorder has these calls.
fn assert_calls(rt: &impl Abort, recorder: &Recorder, calls: &str) {
    assert_eq!(rt; recorder.calls.as_str(), calls);
}

/// The calls of a row are made.
fn makes(rt: &impl Abort, alloc: Global, shapes: &Shapes, row: &Row) -> Result<(), OutOfMemory> {
    let (name, made, calls) = *row;
    let shape = shape_of(rt, shapes, name);
    let mut recorder = Recorder::new(alloc, 100);
    let written = write_made(alloc, shapes, shape, made, &mut recorder);
    assert_calls(rt, &recorder, calls);
    drop(recorder);
    written
}

fn make_all(rt: &impl Abort, alloc: Global, shapes: &Shapes) -> Result<(), OutOfMemory> {
    'rows: for row in STOPPED.iter() {
        makes(rt, alloc, shapes, row)?;
    }
    Ok(())
}

#[test]
fn a_part_without_a_form_ends_the_writing(rt: HostRuntime) -> Result<(), OutOfMemory> {
    let shapes = shapes(rt.alloc())?;
    let made = make_all(&rt, rt.alloc(), &shapes);
    drop(shapes);
    made
}

const POINT: Made = Made::Struct(&[Leaf::Unsigned(1), Leaf::None]);

/// Writes a point of six calls, of which so many aren't refused.
fn written_within(
    alloc: Global,
    shapes: &Shapes,
    point: ShapeId,
    left: usize,
) -> Result<&'static str, OutOfMemory> {
    let value = value(alloc, POINT)?;
    let mut recorder = Recorder::new(alloc, left);
    let end = write(alloc, shapes, point, &value, &mut recorder);
    drop(recorder);
    drop(value);
    Ok(end)
}

/// How the writing ends where so many calls aren't refused.
static ENDS: [&str; 7] = [
    "broken", "broken", "broken", "broken", "broken", "broken", ".",
];

fn refuse_each(rt: &impl Abort, alloc: Global, shapes: &Shapes) -> Result<(), OutOfMemory> {
    let point = shape_of(rt, shapes, "Point");
    'calls: for (left, want) in ENDS.iter().enumerate() {
        let end = written_within(alloc, shapes, point, left)?;
        assert_eq!(rt; end, *want, "row {left}");
    }
    Ok(())
}

#[test]
fn a_refused_call_ends_the_writing(rt: HostRuntime) -> Result<(), OutOfMemory> {
    let shapes = shapes(rt.alloc())?;
    let refused = refuse_each(&rt, rt.alloc(), &shapes);
    drop(shapes);
    refused
}

/// Writes one value by a context of its own.
fn written_once<S: FormatSerializer>(
    alloc: Global,
    shapes: &Shapes,
    shape: ShapeId,
    value: &Value<'_>,
    serializer: &mut S,
) -> Result<(), SerializeError<S::Error>>
    ensures { Wrote (calls_of (writer (S.writing serializer.old).settings shapes.now) shape.0 (tree_of value.now)) (S.made serializer.old serializer.new) (S.writing serializer.old) (S.writing serializer.new) result }
{
    let mut context = SerializeContext::new(alloc, shapes, serializer);
    context.serialize(shape, value)
}

/// Writes the number 1 by a context.
fn write_one(
    alloc: Global,
    shapes: &Shapes,
    shape: ShapeId,
    recorder: &mut Recorder,
) -> &'static str {
    let one = Value::Unsigned(1);
    let answer = written_once(alloc, shapes, shape, &one, recorder);
    let end = end_of(&answer);
    drop(answer);
    drop(one);
    end
}

fn write_two(rt: &impl Abort, alloc: Global, shapes: &Shapes, recorder: &mut Recorder) {
    let number = shape_of(rt, shapes, "u64");
    'values: for _ in 0..2 {
        let end = write_one(alloc, shapes, number, recorder);
        assert_eq!(rt; end, ".");
    }
}

fn record_two(rt: &impl Abort, alloc: Global, shapes: &Shapes) {
    let mut recorder = Recorder::new(alloc, 100);
    write_two(rt, alloc, shapes, &mut recorder);
    assert_calls(rt, &recorder, "U64(1) U64(1)");
    drop(recorder);
}

#[test]
fn contexts_write_one_value_behind_another(rt: HostRuntime) -> Result<(), OutOfMemory> {
    let shapes = shapes(rt.alloc())?;
    record_two(&rt, rt.alloc(), &shapes);
    drop(shapes);
    Ok(())
}
