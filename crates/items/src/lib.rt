//! Item kinds of a journal of flood-gate events.
//!
//! A journal holds byte strings, its items. A kind of item says which strings a journal takes at a position, and
//! gives the one number of the reason where it refuses one. Two kinds stand here: spoken lines, which are short
//! printable texts, and events, which are records of 16 bytes about a gate.
#![tactic(auto)]

mod event;
mod kind;
mod spoken;

pub use event::{Cause, Event, EventReason, Events};
pub use kind::{ItemKind, MAX_ITEM};
pub use spoken::{SpokenLines, SpokenReason};
