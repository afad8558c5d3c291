//! Worked cases of prefixes and frames, as one theorem.

ghost use Rattle.frame.specs.Worked.{WorkedFrames};

/// Holds the worked cases of prefixes and frames; it does nothing.
pub fn worked_frames()
    ensures { WorkedFrames }
{}
