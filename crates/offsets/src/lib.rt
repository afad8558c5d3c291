//! Offsets journals: the index beside the data, from a position to the byte where its frame begins.
//!
//! `specs::Entries` says what an offsets journal is and what each call does, `specs::Outcomes` what a restart may leave,
//! `specs::Laws` what is true of every one over any run, `specs::Questions` what each question tells. `Offsets` is the trait
//! with these promises on its calls, `MemoryOffsets` the one in memory. The functions of `theorems` do nothing: each holds
//! one theorem about the definitions on its contract, so that the crate is proved only with it.
#![tactic(auto)]

mod journal;
mod memory;
mod theorems;

pub use journal::Offsets;
pub use memory::MemoryOffsets;
pub use theorems::{entries_stay, outcomes_as_allowed, restarts_once, states_stay_good};
