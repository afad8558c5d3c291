//! Worked cases of the rules, as one theorem.

ghost use Rattle.rules.specs.Worked.{WorkedCases};

/// Holds the worked cases of prefixes, frames and openings, evaluated on the definitions; it does nothing.
pub fn worked_cases()
    ensures { WorkedCases }
{}
