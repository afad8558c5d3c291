//! The text of answers: how an order ended, and what a blob holds.

ghost use Rattle.std.specs.Prelude.{◌≡◌, [], ◌∷◌, ◌++◌, OnOk};
ghost use Rattle.shelf_script.specs.Outcomes.{outcome_line, outcome_text};

use faults::ShelfFault;
use std::alloc::AllocError;
use text::shown::write_shown;

// Appends how an order ended, and ends its line.
fn push_ending(out: &mut Vec<u8>, outcome: Result<(), ShelfFault>) -> Result<(), AllocError>
    ensures { OnOk result (out.new.items ≡ out.old.items ++ (outcome_text outcome ++ (10 ∷ []))) }
{
    match outcome {
        Ok(()) => out.extend_from_slice(b" -> ok\n"),
        Err(ShelfFault { cause, .. }) => {
            let cause = cause.name();
            write_shown(out, format_args!(" -> refused {cause}\n"))
        }
    }
}

/// Appends a line and how it ended: `LINE -> ok`, or `LINE -> refused NAME`.
pub fn push_outcome(
    out: &mut Vec<u8>,
    line: &[u8],
    outcome: Result<(), ShelfFault>,
) -> Result<(), AllocError>
    ensures { OnOk result (out.new.items ≡ out.old.items ++ outcome_line line.now outcome) }
{
    out.extend_from_slice(line)?;
    push_ending(out, outcome)
}
