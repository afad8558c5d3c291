//! The console: reads a script from standard input, a command a line, and writes each line's answer.
//!
//! All that it answers is said by `script::answer_line`; here is only the reading and the writing.
//! With the argument `--echo` each line of the script is written before its answer.
#![tactic(auto)]

use script::{answer_line, transcript_line};
use std::io::{BufRead, BufReader, Write};
use std::{env, io};

// Whether the lines of the script are to be shown too.
fn wants_echo(rt: &HostRuntime) -> io::Result<bool> {
    Ok(env::args(rt)?.any(|word| word.as_str() == "--echo"))
}

fn main(rt: HostRuntime) -> io::Result<()> {
    let heap = rt.alloc();
    let echo = wants_echo(&rt)?;
    for line in BufReader::new(heap, rt.stdin())?.split(heap, b'\n') {
        let line = line?;
        // Two calls in two arms say it plainly; a function kept in a variable would not.
        let answer = if echo {
            transcript_line(heap, line.as_slice())?
        } else {
            answer_line(heap, line.as_slice())?
        };
        rt.stdout().write_all(answer.as_slice())?;
    }
    Ok(())
}
