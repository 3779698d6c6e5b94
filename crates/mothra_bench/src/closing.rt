//! Operators are closed.

ghost use Rattle.std.specs.Prelude.{◌≡◌, true, false};
ghost use Rattle.mothra_bench.specs.{OnlyGave};
ghost use Rattle.mothra_bench.specs.code.{AreClosed, Closes};

use mothra_codes::Op;
use mothra_exchange::{Close, Gate};
use std::sync::Wait;

/// Closes an operator, and tries again as long as the close is lost. False where the gate gave up.
pub(crate) fn close_one<G: Gate, R: Wait>(rt: &R, gate: &G, pass: &mut G::Pass, op: Op) -> bool
    requires { G.is_pass gate.now pass.old }
    ensures own { G.is_pass gate.now pass.new }
    ensures gives_up { result ≡ false → G.may_give_up ≡ true }
    ensures part { G.needs_parts ≡ true → (G.view pass.new).part ≡ (G.view pass.old).part }
    ensures records { G.keeps_records ≡ true → OnlyGave (G.view pass.old) (G.view pass.new) }
    ensures closed { G.keeps_records ≡ true → result ≡ true → Closes op (G.view pass.old) (G.view pass.new) }
{
    for _ in rt.forever() {
        match gate.close(rt, pass, op) {
            Close::Busy => {}
            Close::GaveUp => return false,
            Close::Already | Close::Done => return true,
        }
    }
    unreachable!()
}

/// Closes the operators of a feeder that was not started.
pub(crate) fn close_each<G: Gate, R: Wait>(rt: &R, gate: &G, pass: &mut G::Pass, ops: &[Op])
    requires { G.is_pass gate.now pass.old }
    ensures own { G.is_pass gate.now pass.new }
    ensures part { G.needs_parts ≡ true → (G.view pass.new).part ≡ (G.view pass.old).part }
    ensures records { G.keeps_records ≡ true → OnlyGave (G.view pass.old) (G.view pass.new) }
    ensures closed { G.keeps_records ≡ true → G.may_give_up ≡ false → AreClosed ops.now (G.view pass.new) }
{
    for op in ops {
        close_one(rt, gate, pass, *op);
    }
}
