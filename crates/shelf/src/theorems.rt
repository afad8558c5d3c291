//! What is true of every shelf, over its meaning alone.
// The laws of every kind of store are said once, in `power`; a function holds one for one kind, since a contract holds no law over any rules.
// What a restart may leave is said of each kind by itself: the statements differ in more than the store.

ghost use Rattle.power.specs.Laws.{RestartsOnce, StatesStayGood};
ghost use Rattle.shelf.specs.Laws.{shelf_rules, FailedAsRestart, SafeBytesStay};
ghost use Rattle.shelf.specs.Outcomes.{OutcomesAsAllowed};

/// What a restart may leave, blob by blob, is what the rule in words allows: every outcome keeps the
/// rule, and whatever keeps it is an outcome.
pub fn outcomes_as_allowed()
    ensures { OutcomesAsAllowed }
{}

/// Over any run of calls, power failures and restarts, every byte that was safe is there at its
/// place, and safe, unless a call cut or removed it.
pub fn safe_bytes_stay()
    ensures { SafeBytesStay }
{}

/// A restart after a restart changes nothing.
pub fn restarts_once()
    ensures { RestartsOnce shelf_rules }
{}

/// From a state of a shelf, no call, power failure or restart leads to anything but a state: numbers
/// rise and are at most 2^56, no blob is longer than the blob size or more safe than long, and there are
/// no more blobs than the maximum.
pub fn states_stay_good()
    ensures { StatesStayGood shelf_rules }
{}

/// A restart after a failed call leaves what a restart with no failed call leaves of one state, or for a
/// make or a remove of one of two.
pub fn failed_as_restart()
    ensures { FailedAsRestart }
{}
