//! Files that are read.
use case_files::{Case, read_cases};
use std::alloc::{AllocError, Global};
use std::test::*;

/// Three cases: with what each line may tell, with an input of its own, and after other shapes.
static FILE: &str = "# cases
shapes
  shape A list u8
   shape B option A

case all that may stand
shows what is told
words recode \"A B\" \"\" 7
tape raw
  \\x5b\\n\\s
  \\\\\\xfF
status 1
notes error: none
failing-reads 0 3
failing-writes 2
room 9
output unended
  [
  ]

shapes unended
  shape C unit
case an input
words
input
  - -
status 2
case no tape lines
words recode C
tape
status 0
";

/// A case in words.
fn put_case(out: &mut String, case: &Case<'_>) -> Result<(), AllocError> {
    let title = case.title;
    let (line, name, shows) = (title.line, title.name, title.shows);
    write!(out, "{line} {name}/{shows}")?;
    'words: for word in case.words.as_slice() {
        write!(out, "/{word}")?;
    }
    let input = case.given.input.as_slice();
    let reads = case.given.failing_reads.as_slice();
    let writes = case.given.failing_writes.as_slice();
    let room = case.given.room;
    write!(out, "|{input:?}|{reads:?}|{writes:?}|{room:?}")?;
    let status = case.wanted.status;
    let notes = case.wanted.notes.as_slice();
    let output = case.wanted.output.as_slice();
    write!(out, "|{status}|{notes:?}|{output:?}")
}

/// The cases of the file in words, and how many there are.
fn told(alloc: Global) -> Result<Vec<String>, Fail> {
    let Ok(cases) = read_cases(alloc, FILE.as_bytes()) else {
        return Err("the file is refused".into());
    };
    let mut rows = Vec::new(alloc);
    'cases: for case in cases.as_slice() {
        let mut out = String::new(alloc);
        put_case(&mut out, case)?;
        rows.push(out)?;
    }
    Ok(rows)
}

/// What the cases are: the bytes of `shape A list u8` and `shape B option A` with their ends, of the line `---`, and of
/// the raw tape; of the line `- -`; and of `shape C unit`, to which the dividing line is joined.
static WANT: [&str; 3] = [
    "6 all that may stand/what is told/recode/A B//7|[115, 104, 97, 112, 101, 32, 65, 32, 108, 105, 115, 116, 32, 117, 56, 10, 115, 104, 97, 112, 101, 32, 66, 32, 111, 112, 116, 105, 111, 110, 32, 65, 10, 45, 45, 45, 10, 91, 10, 32, 92, 255]|[0, 3]|[2]|Some(9)|1|[101, 114, 114, 111, 114, 58, 32, 110, 111, 110, 101, 10]|[91, 10, 93]",
    "23 an input/|[45, 32, 45, 10]|[]|[]|None|2|[]|[]",
    "28 no tape lines//recode/C|[115, 104, 97, 112, 101, 32, 67, 32, 117, 110, 105, 116, 45, 45, 45, 10]|[]|[]|None|0|[]|[]",
];

#[test]
fn a_file_is_read_case_by_case(rt: HostRuntime) -> Result<(), Fail> {
    let rows = told(rt.alloc())?;
    assert_eq!(rt; rows.len(), WANT.len());
    'rows: for (row, want) in rows.iter().zip(&WANT) {
        assert_eq!(rt; row.as_str(), *want);
    }
    Ok(())
}
