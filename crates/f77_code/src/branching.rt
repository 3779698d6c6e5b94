//! The execution of branches: a value decides where control goes (ANSI X3.9-1978, 11.2 to 11.7).

ghost use Rattle.std.specs.Prelude.{◌≡◌, ◌<◌, ◌+◌, ◌≤ℤ◌, pos, true, length, unwrap_or, List, ℤ};
ghost use Rattle.std.specs.Prelude.{Result};
ghost use Rattle.f77_actions.specs.declared.finish.Fault.{Fault};
ghost use Rattle.f77_code.specs.Choice as choice;
ghost use Rattle.f77_code.specs.declared.control.Turn.{Turn};
ghost use Rattle.f77_code.specs.Operation as meaning;
ghost use Rattle.f77_actions.specs.Encoded.{Encodes, IsValueOrFault};
ghost use Rattle.f77_code.specs.{point, used_in_code, are_held, term_value, term_within};

use crate::ending::failed;
use crate::evaluate::operand;
use crate::term::Term;
use f77_actions::encoded::UNDEFINED;

/// The place to which a truth value leads: `there` for true, `next` for false.
#[inline(always)]
#[tactic(auto, using(crate::proofs::Points::least_from))]
pub(crate) fn branch(x: i64, there: u32, next: u32) -> usize
    requires { IsValueOrFault x }
    ensures { (r : Result ℤ Fault) (registers : List ℤ) (turns : List Turn) → Encodes x r
        → point result registers turns ≡ meaning.branch r there next registers turns }
{
    if UNDEFINED <= x {
        return failed(x);
    }
    if x == 0 {
        return next as usize;
    }
    there as usize
}

/// One of three places, by the sign of a value.
#[inline(always)]
fn by_sign(x: i64, negative: u32, zero: u32, positive: u32) -> usize
    ensures { result ≡ choice.by_sign x negative zero positive }
{
    if x < 0 {
        return negative as usize;
    }
    if x == 0 {
        return zero as usize;
    }
    positive as usize
}

#[inline(never)]
#[tactic(auto, using(crate::proofs::Points::least_from))]
pub(crate) fn sign(negative: u32, zero: u32, positive: u32, term: &Term, registers: &[i64]) -> usize
    requires held { are_held registers.now ≡ true }
    requires within { term_within (length registers.now) term.now ≡ true }
    ensures { (turns : List Turn)
        → point result registers.now turns ≡ used_in_code (term_value registers.now term.now) registers.now turns
        (λ z. point (choice.by_sign z negative zero positive) registers.now turns) }
{
    let x = operand(term, registers);
    if UNDEFINED <= x {
        return failed(x);
    }
    by_sign(x, negative, zero, positive)
}

/// The number minus 1, for a number above 0.
#[inline(always)]
fn before(number: i64) -> usize
    requires { pos 1 ≤ℤ number }
    ensures { number ≡ pos (result + 1) }
{
    (number - 1) as usize
}

/// The place with this number, counted from 1, or `next` if there is none.
#[inline(always)]
fn numbered(places: &[u32], number: i64, next: u32) -> usize
    ensures { result ≡ unwrap_or (choice.item_chosen places.now number) next }
{
    if number < 1 {
        return next as usize;
    }
    let index = before(number);
    match places.get(index) {
        Some(place) => *place as usize,
        None => next as usize,
    }
}

#[inline(never)]
#[tactic(auto, using(crate::proofs::Points::least_from))]
pub(crate) fn select(term: &Term, places: &[u32], next: u32, registers: &[i64]) -> usize
    requires held { are_held registers.now ≡ true }
    requires within { term_within (length registers.now) term.now ≡ true }
    ensures { (turns : List Turn)
        → point result registers.now turns ≡ used_in_code (term_value registers.now term.now) registers.now turns
        (λ z. point (unwrap_or (choice.item_chosen places.now z) next) registers.now turns) }
{
    let x = operand(term, registers);
    if UNDEFINED <= x {
        return failed(x);
    }
    numbered(places, x, next)
}
