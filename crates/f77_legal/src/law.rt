//! A law on legality.

ghost use Rattle.std.specs.Prelude.{List};
ghost use Rattle.f77_program.specs.Program.{LineFields};
ghost use Rattle.f77_legal.specs.{KeepsEveryRule, IsLegal};

/// A program is legal exactly where no statement breaks a clause, and its names, labels, DATA statements and sizes are
/// right.
#[tactic(auto, using(crate::proofs::Rules::keeps_every_rule, crate::proofs::Rules::legal_by_rules))]
pub fn legal_programs_keep_every_rule()
    ensures keeps { (program : List LineFields) → IsLegal program → KeepsEveryRule program }
    ensures legal { (program : List LineFields) → KeepsEveryRule program → IsLegal program }
{}
