//! One line each, with its event.
use super::shown::{reads, taken};
use std::alloc::{AllocError, Global};
use tape_text::TapeParser;

/// Lines that no value is made of, or of which a value doesn't tell all.
static LINES: [(&[u8], &str); 27] = [
    (b"{\n", "StructStart(Object)@[0..1)"),
    (b"[\n", "SequenceStart(Array)@[0..1)"),
    (b"o\n", "OrderedField@[0..1)"),
    (b"unit\n", "Scalar(Unit)@[0..4)"),
    (b"null\n", "Scalar(Null)@[0..4)"),
    (b"U 5\n", "Scalar(U128(5))@[0..3)"),
    (b"I -5\n", "Scalar(I128(-5))@[0..4)"),
    (b"k -\n", "Full(None)@[0..3)"),
    (b"k \"\"\n", "FieldKey(Name(Borrowed(\"\")))@[0..4)"),
    (b"k \"a b\"\n", "FieldKey(Name(Borrowed(\"a b\")))@[0..7)"),
    (
        b"k \"a\\nb\"\n",
        "FieldKey(Name(Owned(Name { text: \"a\\nb\" })))@[0..8)",
    ),
    (
        b"k \"a\" tag \"t\"\n",
        "Full(Some(Borrowed(\"a\")))@[0..13) tag Borrowed(\"t\")",
    ),
    (b"k - doc \"d\"\n", "Full(None)@[0..11) doc Borrowed(\"d\")"),
    (b"s \"\"\n", "Scalar(Str(Borrowed(\"\")))@[0..4)"),
    (
        b"s \"\xc3\xa9\\n\xe2\x82\xac\"\n",
        "Scalar(Str(Owned(Name { text: \"\u{e9}\\n\u{20ac}\" })))@[0..11)",
    ),
    (b"b \n", "Scalar(Bytes(Owned(Items { items: [] })))@[0..2)"),
    (
        b"b 00a9ff\n",
        "Scalar(Bytes(Owned(Items { items: [0, 169, 255] })))@[0..8)",
    ),
    (
        b"b 7f tag \"t\"\n",
        "Scalar(Bytes(Owned(Items { items: [127] })))@[0..12) tag Borrowed(\"t\")",
    ),
    (b"v -\n", "VariantTag(None)@[0..3)"),
    (b"v \"\"\n", "VariantTag(Some(\"\"))@[0..4)"),
    (b"v \"Some\"\n", "VariantTag(Some(\"Some\"))@[0..8)"),
    (
        b"v - doc \"d\"\n",
        "VariantTag(None)@[0..11) doc Borrowed(\"d\")",
    ),
    (
        b"{ tag \"t\"\n",
        "StructStart(Object)@[0..9) tag Borrowed(\"t\")",
    ),
    (
        b"[ doc \"\"\n",
        "SequenceStart(Array)@[0..8) doc Borrowed(\"\")",
    ),
    (
        b"null doc \"a\\nb\"\n",
        "Scalar(Null)@[0..15) doc Owned(Name { text: \"a\\nb\" })",
    ),
    (
        b"u 1 tag \"t\" doc \"a\" doc \"b\"\n",
        "Scalar(U64(1))@[0..27) tag Borrowed(\"t\") doc Borrowed(\"a\") doc Borrowed(\"b\")",
    ),
    (
        b"s \"a\" tag \" doc \" doc \" tag \"\n",
        "Scalar(Str(Borrowed(\"a\")))@[0..29) tag Borrowed(\" doc \") doc Borrowed(\" tag \")",
    ),
];

#[test]
fn each_line_has_its_event(rt: HostRuntime) -> Result<(), AllocError> {
    'lines: for (input, want) in LINES.iter() {
        reads(&rt, rt.alloc(), input, &[want, "end"])?;
    }
    Ok(())
}

fn push_long(line: &mut String) -> Result<(), AllocError> {
    line.push_str("s \"")?;
    'parts: for _ in 0..2000 {
        line.push_str("0123456789abcdef")?;
    }
    line.push_str("\\n\"\n")
}

fn is_long(told: &str) -> bool {
    told.starts_with("Scalar(Str(Owned(Name { text: \"0123456789abcdef0123")
        && told.ends_with("cdef\\n\" })))@[0..32006)")
}

/// The line has the event of the long text.
fn tells_long(alloc: Global, line: &str) -> Result<bool, AllocError> {
    let mut parser = TapeParser::new(alloc, line.as_bytes());
    let mut out = String::new(alloc);
    let told = taken(&mut parser, &mut out);
    let is_long = is_long(out.as_str());
    drop(out);
    drop(parser);
    told?;
    Ok(is_long)
}

/// A long line is made, and has its event.
fn reads_long(alloc: Global, line: &mut String) -> Result<bool, AllocError> {
    push_long(line)?;
    tells_long(alloc, line.as_str())
}

#[test]
fn a_long_line_is_read(rt: HostRuntime) -> Result<(), AllocError> {
    let mut line = String::new(rt.alloc());
    let is_long = reads_long(rt.alloc(), &mut line);
    drop(line);
    let is_long = is_long?;
    assert!(rt; is_long);
    Ok(())
}
