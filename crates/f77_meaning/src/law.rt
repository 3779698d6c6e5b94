//! Laws of the steps and runs of every program.

ghost use Rattle.f77_meaning.specs.{ActiveByPlace, Starts, LeadsOn, ComesBack, MeetsLimits, OneAnswer, OneSuccessor};
ghost use Rattle.f77_meaning.specs.{OneOutcome, MayBeAnother};

/// A configuration leads to at most one configuration or end, a run ends in at most one way within each limit on steps,
/// and a run with given arguments has at most one outcome.
#[tactic(auto, using(crate::proofs::OneWay::one_successor, crate::proofs::OneWay::one_outcome))]
pub fn one_outcome()
    ensures successor { OneSuccessor }
    ensures outcome { OneOutcome }
    ensures answer { OneAnswer }
{}

/// Control is never lost: a run of a legal program starts, and each configuration that it comes to leads to another or
/// to an end.
#[tactic(auto, using(crate::proofs::NeverLost::starts, crate::proofs::NeverLost::leads_on))]
pub fn control_is_never_lost()
    ensures starts { Starts }
    ensures leads_on { LeadsOn }
{}

/// The place of control decides which DOs are active: those whose range holds the statement that is to be executed.
/// Where a DO is to be incremented, they are that DO and those whose range holds it (11.10.2 to 11.10.5).
#[tactic(auto, using(crate::proofs::Active::active_by_place))]
pub fn active_loops()
    ensures { ActiveByPlace }
{}

/// A run that comes back to a configuration never ends, and the outcome of a run that never ends is StepLimit within
/// every limit.
pub fn endless_runs()
    ensures comes_back { ComesBack }
    ensures limits { MeetsLimits }
{}

/// Programs of one frame that differ in one statement have the same outcome if control does not come to that statement.
pub fn unreached_statement()
    ensures { MayBeAnother }
{}
