//! The writer of a tape.
ghost use Rattle.std.specs.Prelude.{◌≡◌, ◌++◌, [], true, nat_lt, codes, encode_utf8};
ghost use Rattle.std.specs.List.{list_all};
ghost use Rattle.semantics_lines.specs.Lines.{quoted, hex};
ghost use Rattle.semantics_lines.specs.Calls.{write_scalar, literal_of};
ghost use Rattle.semantics_lines.specs.Tapes.{calls_tape};
ghost use Rattle.event_core.specs.Events.{scalar_of};
ghost use Rattle.format_traits.specs.Writing.{Answers};
ghost use Rattle.tape_text.specs.Joining.{tape_starts, tape_joins};
ghost use Rattle.tape_text.specs.Writer.{Writes, body_text, plain_writing};

use crate::bytes::TapeBytes;
use crate::spelling::{Body, put_line};
use event_core::ScalarValue;
use format_traits::{FormatSerializer, WriteStop};
use itoa::{Buffer, Integer};
use std::alloc::Global;
use std::convert::Infallible;
use std::marker::Model;

/// The fault of a writer that never fails: there is none.
pub type NoFault = Infallible;

/// A writer of a tape. Contracts see the bytes written.
///
/// A call that is refused for want of memory leaves them as they were.
#[derive(Drop)]
pub struct TapeWriter {
    bytes: Vec<u8>,
}

impl Model for TapeWriter {
    ghost use Rattle.std.specs.Prelude.{List, ℕ};

    ghost Value = { List ℕ };

    ghost view = { λ w. w.bytes.items };
}

impl TapeWriter {
    /// A writer of an empty tape. This takes no memory.
    pub fn new(alloc: Global) -> TapeWriter
        ensures { result ≡ [] }
    {
        TapeWriter {
            bytes: Vec::new(alloc),
        }
    }

    /// The tape.
    pub fn into_bytes(self) -> TapeBytes
        ensures { result ≡ self }
    {
        let TapeWriter { bytes } = self;
        TapeBytes::from_vec(bytes)
    }

    fn add(&mut self, body: Body<'_>) -> Result<(), WriteStop<NoFault>>
        ensures { Writes (body_text body.entry) self.old self.new result }
    {
        let len = self.bytes.len();
        match put_line(&mut self.bytes, body) {
            Ok(()) => Ok(()),
            Err(_) => {
                self.bytes.truncate(len);
                Err(WriteStop::Alloc)
            }
        }
    }

    fn add_number<I: Integer>(&mut self, word: &str, n: I) -> Result<(), WriteStop<NoFault>>
        ensures { Writes (word.now ++ I.text n) self.old self.new result }
    {
        let mut buffer = Buffer::new();
        let digits = buffer.format(n);
        self.add(Body::Number(word, digits))
    }

    fn add_char(&mut self, c: char) -> Result<(), WriteStop<NoFault>>
        ensures { Writes (codes "c " ++ quoted (encode_utf8 c)) self.old self.new result }
    {
        let mut buffer = [0; 4];
        let text = c.encode_utf8(&mut buffer);
        self.add(Body::Text("c ", text))
    }

    fn add_bytes(&mut self, items: &[u8]) -> Result<(), WriteStop<NoFault>>
        ensures added { Writes (codes "b " ++ hex items.now) self.old self.new result }
        ensures small { list_all (λ b. nat_lt b 256) items.now ≡ true }
    {
        self.add(Body::Hex(items))
    }

    fn add_scalar(&mut self, scalar: &ScalarValue<'_>) -> Result<(), WriteStop<NoFault>>
        ensures { Answers (λ calls. self.new ≡ self.old ++ calls_tape calls) plain_writing plain_writing (write_scalar (literal_of (scalar_of scalar.now))) result }
    {
        match scalar {
            ScalarValue::Unit => self.add(Body::Word("unit")),
            ScalarValue::Null => self.add(Body::Word("null")),
            ScalarValue::Bool(true) => self.add(Body::Word("true")),
            ScalarValue::Bool(false) => self.add(Body::Word("false")),
            ScalarValue::Char(c) => self.add_char(*c),
            ScalarValue::I64(n) => self.add_number("i ", *n),
            ScalarValue::U64(n) => self.add_number("u ", *n),
            ScalarValue::I128(n) => self.add_number("I ", *n),
            ScalarValue::U128(n) => self.add_number("U ", *n),
            ScalarValue::Str(text) => self.add(Body::Text("s ", text.as_str())),
            ScalarValue::Bytes(bytes) => self.add_bytes(bytes.as_slice()),
        }
    }
}

impl FormatSerializer for TapeWriter {
    type Error = NoFault;

    ghost writing = { λ w. plain_writing };

    ghost made = { λ a b calls. b ≡ a ++ calls_tape calls };

    fn begin_struct(&mut self) -> Result<(), WriteStop<NoFault>> {
        self.add(Body::Word("{"))
    }

    fn field_key(&mut self, key: &str) -> Result<(), WriteStop<NoFault>> {
        self.add(Body::Text("k ", key))
    }

    fn end_struct(&mut self) -> Result<(), WriteStop<NoFault>> {
        self.add(Body::Word("}"))
    }

    fn begin_seq(&mut self) -> Result<(), WriteStop<NoFault>> {
        self.add(Body::Word("["))
    }

    fn end_seq(&mut self) -> Result<(), WriteStop<NoFault>> {
        self.add(Body::Word("]"))
    }

    fn scalar(&mut self, scalar: ScalarValue<'_>) -> Result<(), WriteStop<NoFault>> {
        let added = self.add_scalar(&scalar);
        drop(scalar);
        added
    }

    ghost starts = { λ a. tape_starts a };

    ghost joins = { λ a b c xs ys. tape_joins a b c xs ys };
}
