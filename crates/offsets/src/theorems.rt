//! What is true of every offsets journal, over its meaning alone.
// The laws of every kind of store are said once, in `power`; a function holds one for one kind, since a contract holds no law over any rules.
// What a restart may leave is said of each kind by itself: the statements differ in more than the store.

ghost use Rattle.power.specs.Laws.{RestartsOnce, StatesStayGood};
ghost use Rattle.offsets.specs.Laws.{offsets_rules, EntriesStay};
ghost use Rattle.offsets.specs.Outcomes.{OutcomesAsAllowed};

/// What a restart may leave, by lists of entries, is what the rule in words allows, by positions: every
/// outcome keeps the rule, and whatever keeps it is an outcome.
pub fn outcomes_as_allowed()
    ensures { OutcomesAsAllowed }
{}

/// From a state, no call, power failure or restart leads to anything but a state; so the watermark never
/// exceeds the size that survives.
pub fn states_stay_good()
    ensures { StatesStayGood offsets_rules }
{}

/// Over any run of calls, power failures and restarts, every safe entry that no call cut, pruned or
/// cleared away is there, the same, and safe; so is every entry below the watermark.
pub fn entries_stay()
    ensures { EntriesStay }
{}

/// A restart after a restart changes nothing.
pub fn restarts_once()
    ensures { RestartsOnce offsets_rules }
{}
