//! Theorems on mutants that are proved equivalent.

ghost use Rattle.equivalents_app.specs.{NoTestKills};

use f77_meaning::law::one_outcome;

/// No test of a job kills a mutant that is named for that job, with its limit on steps.
pub fn no_test_kills()
    ensures { NoTestKills }
{
    one_outcome();
}
