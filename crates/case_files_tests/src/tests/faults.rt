//! Files that are refused.
use case_files::{ReadCasesError, read_cases};
use std::alloc::Global;
use std::test::*;

/// Files, each with what its refusal tells: the line, and what is wrong with it.
static FAULTS: [(&[u8], &str); 24] = [
    (b"case a\n\xff\n", "2 the line isn't UTF-8"),
    (
        b"# none\n\ttape\n",
        "2 the line begins with a tab; blocks are indented by spaces",
    ),
    (
        b"\n  {\n",
        "2 an indented line stands before any line that has a block",
    ),
    (
        b"case a\nword recode\n",
        "2 no line of a case begins with this word",
    ),
    (b"case\nwords\nstatus 2\ntape\n", "1 the case has no name"),
    (
        b"shapes\nwords recode\ncase a\n",
        "2 the line belongs to a case, and none has begun",
    ),
    (
        b"case a\nwords\nstatus 2\ntape\nstatus 2\n",
        "5 the case has such a line already",
    ),
    (
        b"case a\nwords\n  recode\n",
        "3 the line is indented, but the head line before it has no block",
    ),
    (
        b"case a\nwords\nstatus 2\ntape whole\n",
        "4 a block is plain, `raw` or `unended`",
    ),
    (
        b"case a\nwords\nstatus 2\ntape raw\n  {\\n\n  \\t\n",
        "6 the escapes of a raw block are \\n, \\s, \\\\ and \\xHH",
    ),
    (
        b"case a\nwords\nstatus 2\ntape raw\n  \\x0g\n",
        "5 the escapes of a raw block are \\n, \\s, \\\\ and \\xHH",
    ),
    (
        b"case a\nwords\nstatus 2\ntape raw\n  \\x0\n",
        "5 the escapes of a raw block are \\n, \\s, \\\\ and \\xHH",
    ),
    (
        b"case a\nwords recode \"Point\nstatus 2\ntape\n",
        "2 a quote isn't closed",
    ),
    (
        b"case a\nwords\nstatus 256\ntape\n",
        "3 a decimal that fits is wanted",
    ),
    (
        b"case a\nwords\nstatus\ntape\n",
        "3 a decimal that fits is wanted",
    ),
    (
        b"case a\nwords\nstatus 2\ntape\nroom many\n",
        "5 a decimal that fits is wanted",
    ),
    (
        b"case a\nwords\nstatus 2\ntape\nfailing-reads 0 x\n",
        "5 a decimal that fits is wanted",
    ),
    (
        b"case a\nwords\nstatus 2\ntape\nfailing-writes 18446744073709551616\n",
        "5 a decimal that fits is wanted",
    ),
    (
        b"case a\nstatus 2\ntape\n",
        "1 the case has no line `words`",
    ),
    (b"case a\nwords\ntape\n", "1 the case has no line `status`"),
    (
        b"case a\nwords\nstatus 2\n",
        "1 the case has neither `tape` nor `input`",
    ),
    (
        b"case a\nwords\nstatus 2\ntape\ninput\n",
        "1 the case has both `tape` and `input`",
    ),
    (
        b"case a\nwords\nstatus 2\ntape\ncase b\nwords\n",
        "5 the case has no line `status`",
    ),
    (
        b"# the second fault\ncase a\nstatus 2\ntape\nstatus x\n",
        "5 the case has such a line already",
    ),
];

/// What the refusal of a file tells. Nothing where it isn't refused.
fn refusal(alloc: Global, file: &[u8]) -> Result<String, Fail> {
    match read_cases(alloc, file) {
        Err(ReadCasesError::Fault(fault)) => {
            let line = fault.line;
            let kind = fault.kind;
            Ok(format!(in alloc; "{line} {kind}")?)
        }
        Err(ReadCasesError::Alloc) => Err("out of memory".into()),
        Ok(cases) => {
            drop(cases);
            Ok(String::new(alloc))
        }
    }
}

#[test]
fn a_bad_file_is_refused_with_its_line(rt: HostRuntime) -> Result<(), Fail> {
    'files: for (file, want) in &FAULTS {
        let found = refusal(rt.alloc(), file)?;
        assert_eq!(rt; found.as_str(), *want);
    }
    Ok(())
}
