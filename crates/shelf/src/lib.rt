//! Shelves: stores of numbered blobs, and what a power failure may leave of them.
//!
//! `specs::Shelves` says what a shelf is and what each call does, `specs::Outcomes` what a restart may leave,
//! `specs::Laws` what is true of every shelf over any run, `specs::Questions` what each question tells. `Shelf` is the trait
//! with these promises on its calls, `judge` asks in advance whether a call would be refused. The functions of `theorems` do
//! nothing: each holds one theorem about the definitions on its contract, so that the crate is proved only with it.
#![tactic(auto)]

mod judge;
mod shelf;
mod theorems;

pub use judge::{holds, test_add, test_make};
pub use power::MAX_NUMBER;
pub use shelf::Shelf;
pub use theorems::{
    failed_as_restart, outcomes_as_allowed, restarts_once, safe_bytes_stay, states_stay_good,
};
