//! An ordered table for any kind of row that has a number as its key, over a slice of rows that is changed in place.
//!
//! The rows in use are the first of the slice, and their keys rise strictly. The functions over a slice and a count
//! (`rows`, `edits`) answer for any slice whatever; where its rows in use rise, each edit leaves them rising, and
//! each key but the one edited tells the same row as before. A table over a lent slice (`lent`) keeps the count too.
#![tactic(auto)]

mod edits;
mod lent;
mod rows;

pub use edits::{change_in, insert_in, remove_in};
pub use lent::Table;
pub use rows::{Row, TableFault, find_in, get_in};
