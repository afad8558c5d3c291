//! What a script of the console says, and what each of its lines is answered.
//!
//! A script is lines of words; a line is one command. Every line gets its answer, whatever bytes it
//! has: what is no command is answered by one line that begins `error: `, and the next line goes on.
#![tactic(auto)]

mod answer;
mod blob;
mod command;
mod report;

pub use answer::{answer_line, transcript_line};
pub use command::{Command, KindName, MAX_LINE, ScriptFault, read_command};
pub use report::ItemText;
