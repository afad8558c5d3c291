//! What a store is under power failures, said once over the rules of any kind of store.
//!
//! Nearly all of it is definitions: `specs::Rules` (what a kind of store is), `specs::Sights` (what each call of a store promises),
//! `specs::Known` (a store as its writer knows it), `specs::Runs` (runs of calls, failures and restarts), `specs::Laws` (what is
//! true of a kind of store over any run). `proofs::Bridge` leads from the promises to what is known, `proofs::Runs` from each
//! call to whole runs. The only code is the largest number, `specs::Numbers` in words; the traits of stores cite the other words
//! in their contracts.
#![tactic(auto)]

/// The largest number of a blob, the largest position and the largest offset: 2^56.
pub const MAX_NUMBER: u64 = 1 << 56;
