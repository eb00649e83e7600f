//! A tape that was written, and what is read of it.
use super::shown::reads;
use event_core::ScalarValue;
use format_traits::{FormatSerializer, WriteStop};
use shape_types::{Bytes, Text};
use std::alloc::{AllocError, Global};
use std::process::Abort;
use tape_text::{NoFault, TapeBytes, TapeWriter};

/// A scalar of each kind.
fn scalar(at: usize) -> ScalarValue<'static> {
    match at {
        0 => ScalarValue::Unit,
        1 => ScalarValue::Null,
        2 => ScalarValue::Bool(true),
        3 => ScalarValue::Bool(false),
        4 => ScalarValue::Char('\u{20ac}'),
        5 => ScalarValue::I64(-9_223_372_036_854_775_808),
        6 => ScalarValue::U64(18_446_744_073_709_551_615),
        7 => ScalarValue::I128(-1),
        8 => ScalarValue::U128(340_282_366_920_938_463_463_374_607_431_768_211_455),
        9 => ScalarValue::Str(Text::Borrowed("a\nb")),
        10 => ScalarValue::Bytes(Bytes::Borrowed(b"\x00\xa9\xff")),
        _ => ScalarValue::Bytes(Bytes::Borrowed(b"")),
    }
}

fn write_lines(tape: &mut TapeWriter) -> Result<(), WriteStop<NoFault>> {
    tape.begin_struct()?;
    tape.field_key("x")?;
    tape.field_key("\"\\\n")?;
    tape.begin_seq()?;
    'scalars: for at in 0..12 {
        tape.scalar(scalar(at))?;
    }
    tape.end_seq()?;
    tape.end_struct()
}

const LINES: &[u8] = b"{
k \"x\"
k \"\\\"\\\\\\n\"
[
unit
null
true
false
c \"\xe2\x82\xac\"
i -9223372036854775808
u 18446744073709551615
I -1
U 340282366920938463463374607431768211455
s \"a\\nb\"
b 00a9ff
b 
]
}
";

static EVENTS: [&str; 19] = [
    "StructStart(Object)@[0..1)",
    "FieldKey(Name(Borrowed(\"x\")))@[2..7)",
    "FieldKey(Name(Owned(Name { text: \"\\\"\\\\\\n\" })))@[8..18)",
    "SequenceStart(Array)@[19..20)",
    "Scalar(Unit)@[21..25)",
    "Scalar(Null)@[26..30)",
    "Scalar(Bool(true))@[31..35)",
    "Scalar(Bool(false))@[36..41)",
    "Scalar(Char('\u{20ac}'))@[42..49)",
    "Scalar(I64(-9223372036854775808))@[50..72)",
    "Scalar(U64(18446744073709551615))@[73..95)",
    "Scalar(I128(-1))@[96..100)",
    "Scalar(U128(340282366920938463463374607431768211455))@[101..142)",
    "Scalar(Str(Owned(Name { text: \"a\\nb\" })))@[143..151)",
    "Scalar(Bytes(Owned(Items { items: [0, 169, 255] })))@[152..160)",
    "Scalar(Bytes(Owned(Items { items: [] })))@[161..163)",
    "SequenceEnd@[164..165)",
    "StructEnd@[166..167)",
    "end",
];

/// What was written is these lines, which are read as these events.
fn is_read(rt: &impl Abort, alloc: Global, bytes: &[u8]) -> Result<(), AllocError> {
    assert_eq!(rt; bytes, LINES);
    reads(rt, alloc, bytes, &EVENTS)
}

#[test]
fn what_was_written_is_read(rt: HostRuntime) -> Result<(), AllocError> {
    let mut tape = TapeWriter::new(rt.alloc());
    let is_written = write_lines(&mut tape).is_ok();
    let bytes = tape.into_bytes();
    let read = is_read(&rt, rt.alloc(), bytes.as_slice());
    drop(bytes);
    assert!(rt; is_written);
    read
}
