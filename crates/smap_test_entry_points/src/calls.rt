//! One call of the libraries, made twice. `tests/allocation_failures/run` refuses each request for memory
//! that the call makes in turn.

use crate::answers::{Answer, answer_of};
use std::io::{self, Write};

/// Prints an answer.
fn print<W: Write>(out: &mut W, answer: &Answer) -> io::Result<()> {
    match answer {
        Ok(bytes) => {
            out.write_all(b"answer ")?;
            out.write_all(bytes)?;
        }
        Err(_) => out.write_all(b"memory")?,
    }
    out.write_all(b"\n")
}

/// Makes the call with this name on a text, twice, prints both answers, or `memory` for one that ran out of
/// memory, and answers the exit status.
pub(crate) fn call(rt: &HostRuntime, name: &str, text: &[u8]) -> u8 {
    let mut out = io::writer(rt);
    for _ in 0..2 {
        let Some(answer) = answer_of(rt.alloc(), name, text) else {
            return 2;
        };
        if print(&mut out, &answer).is_err() {
            return 3;
        }
    }
    0
}
