//! What a script of the console asks of a shelf, and what each of its lines is answered.
#![tactic(auto)]

mod answer;
mod opening;
mod order;
mod outcome;
mod print;

pub use answer::{answer_order, error_text};
pub use opening::{Opening, Stack, is_opening, read_opening};
pub use order::{LineFault, Order, Verb, is_order, read_order};
pub use outcome::push_outcome;
pub use print::{PrintFault, push_blobs};

#[cfg(test)]
mod tests {
    use super::*;
    use std::test::Fail;

    #[test]
    fn a_line_to_no_shelf(rt: HostRuntime) -> Result<(), Fail> {
        let text = error_text(rt.alloc(), LineFault::NoShelf)?;
        assert!(rt; text.as_slice() == b"error: no shelf is open\n".as_slice());
        Ok(())
    }
}
