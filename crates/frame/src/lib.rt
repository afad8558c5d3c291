//! Frames: how an item stands in a blob, byte by byte, and what a reader meets there.
//!
//! A frame is a length prefix (`prefix`) and as many bytes of payload as it says. What is written
//! (`write`) reads back as the same item, whatever follows it, and a frame that was cut short reads as a
//! torn end. Reading at a byte (`piece`) and reading a whole blob (`scan`) answer for any bytes whatever,
//! and never read past the bytes that they are given.
#![tactic(auto)]

mod piece;
mod prefix;
mod scan;
mod worked;
mod write;

pub use piece::{Cursor, Piece, PrefixAt, piece_at, read_piece};
pub use prefix::{MAX_PREFIX, Prefix, PrefixFault, prefix_size, read_prefix, write_prefix};
pub use scan::{BlobScan, scan_blob};
pub use worked::worked_frames;
pub use write::write_frame;
