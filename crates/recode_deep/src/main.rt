//! Recodes tapes that are nested as deep as the program lets them, and refuses those that are nested a level deeper.
#![tactic(auto)]

use event_core::DeserializeErrorKind;
use recode_top::{RecodeError, read_shapes, recode};
use shape_core::{OutOfMemory, Shapes};
use std::alloc::Global;
use std::io;

/// How deep values may nest.
const DEPTH: usize = 4_096;

/// Shapes that stand in themselves: a struct and a list, a list and an option, a tuple and an option, and a result.
const SHAPES: &str = "shape Tree struct
field kids Kids
shape Kids list Tree
shape Rows list Maybe
shape Maybe option Rows
shape Chain tuple
item Rest
shape Rest option Chain
shape Outcome result Outcome u8
";

/// A value that is nested: lines that stand so often before the innermost value, and as often behind it.
#[derive(Clone, Copy)]
struct Nest {
    levels: usize,
    root: &'static str,
    count: usize,
    open: &'static str,
    inner: &'static str,
    close: &'static str,
}

impl Nest {
    /// The tape of the nested value.
    fn tape(self, alloc: Global) -> Result<String, OutOfMemory> {
        let mut tape = String::new(alloc);
        for _ in 0..self.count {
            tape.push_str(self.open)?;
        }
        tape.push_str(self.inner)?;
        for _ in 0..self.count {
            tape.push_str(self.close)?;
        }
        Ok(tape)
    }
}

/// How a nested value is recoded, whose tape is its own canonical form.
fn outcome(alloc: Global, shapes: &Shapes, nest: Nest) -> &'static str {
    let Ok(tape) = nest.tape(alloc) else {
        return "out of memory";
    };
    let outcome = recoded(alloc, shapes, nest.root, tape.as_bytes());
    drop(tape);
    outcome
}

/// How a tape is recoded at this root.
fn recoded(alloc: Global, shapes: &Shapes, root: &str, tape: &[u8]) -> &'static str {
    let Some(root) = shapes.find(root) else {
        return "no root";
    };
    let answer = recode(alloc, shapes, root, 512, DEPTH, tape);
    let told = match &answer {
        Ok(out) => compared(out.as_slice(), tape),
        Err(error) => refusal(error),
    };
    drop(answer);
    told
}

/// Whether a tape came back as it was.
fn compared(out: &[u8], tape: &[u8]) -> &'static str {
    if out == tape { "recoded" } else { "changed" }
}

/// Why a tape is refused, in a word or two.
fn refusal(error: &RecodeError<'_>) -> &'static str {
    match error {
        RecodeError::Deserialize(error) => match &error.kind {
            DeserializeErrorKind::TooDeep { limit: _ } => "too deep",
            _ => "refused",
        },
        RecodeError::Alloc => "out of memory",
        _ => "refused",
    }
}

/// The values, each at the greatest depth or a level deeper.
static NESTS: [Nest; 8] = [
    Nest {
        levels: 4_096,
        root: "Tree",
        count: 2_048,
        open: "{\nk \"kids\"\n[\n",
        inner: "",
        close: "]\n}\n",
    },
    Nest {
        levels: 4_097,
        root: "Kids",
        count: 2_048,
        open: "[\n{\nk \"kids\"\n",
        inner: "[\n]\n",
        close: "}\n]\n",
    },
    Nest {
        levels: 4_096,
        root: "Maybe",
        count: 2_048,
        open: "[\n",
        inner: "",
        close: "]\n",
    },
    Nest {
        levels: 4_097,
        root: "Rows",
        count: 2_049,
        open: "[\n",
        inner: "",
        close: "]\n",
    },
    Nest {
        levels: 4_096,
        root: "Chain",
        count: 2_048,
        open: "[\n",
        inner: "null\n",
        close: "]\n",
    },
    Nest {
        levels: 4_097,
        root: "Rest",
        count: 2_048,
        open: "[\n",
        inner: "null\n",
        close: "]\n",
    },
    Nest {
        levels: 4_096,
        root: "Outcome",
        count: 4_094,
        open: "{\nk \"Ok\"\n",
        inner: "{\nk \"Err\"\nu 0\n}\n",
        close: "}\n",
    },
    Nest {
        levels: 4_097,
        root: "Outcome",
        count: 4_095,
        open: "{\nk \"Ok\"\n",
        inner: "{\nk \"Err\"\nu 0\n}\n",
        close: "}\n",
    },
];

fn main(rt: HostRuntime) -> io::Result<()> {
    let Ok(shapes) = read_shapes(rt.alloc(), SHAPES.as_bytes()) else {
        return println!(rt; "no shapes");
    };
    show(&rt, &shapes)
}

/// Prints how each value is recoded.
fn show(rt: &HostRuntime, shapes: &Shapes) -> io::Result<()> {
    for nest in &NESTS {
        let Nest { levels, root, .. } = *nest;
        let outcome = outcome(rt.alloc(), shapes, *nest);
        println!(rt; "{levels} levels of {root}: {outcome}")?;
    }
    Ok(())
}
