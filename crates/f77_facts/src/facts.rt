//! What is known of what slots hold.

ghost use Rattle.std.specs.Prelude.{◌≡◌, true, slice_set, Option, Some, IfSome, IsSome};
ghost use Rattle.f77_facts.specs.Prelude.{Value, Cells, IsIn};
ghost use Rattle.f77_actions.specs.Number.{fits};
ghost use Rattle.f77_facts.specs.{SuitsFact, Implies, AreIn, Lies, kind_of_value, number_of};

use f77_terms::{Range, hull};
use f77_tree::Kind;

/// What is known of a slot: of which kind its value is, the range of its number (a truth value is 1 or 0), and whether
/// it may hold none.
#[derive(Clone, Copy, Debug, PartialEq, Eq)]
pub struct Fact {
    pub kind: Kind,
    pub may_lack: bool,
    pub range: Range,
}

/// What is known of a slot that holds a value of this kind, whose number is in the range.
pub fn filled(kind: Kind, range: Range) -> Fact
    ensures { (value : Value) → kind_of_value value ≡ kind → IsIn range (number_of (Some value))
        → SuitsFact result (Some value) }
{
    Fact {
        kind,
        may_lack: false,
        range,
    }
}

/// The numbers that values of this kind have where INTEGER holds them.
pub fn numbers_of(kind: Kind) -> Range
    ensures { (value : Value) → kind_of_value value ≡ kind → fits (number_of (Some value)) ≡ true
        → IsIn result (number_of (Some value)) }
{
    let (low, high) = match kind {
        Kind::Integer => (i64::from(i32::MIN), i64::from(i32::MAX)),
        Kind::Logical => (0, 1),
    };
    Range { low, high }
}

/// Gives a slot another fact, if there is such a slot.
pub fn set(facts: &mut [Fact], slot: usize, fact: Fact)
    ensures { facts.new ≡ slice_set facts.old slot fact }
{
    if slot < facts.len() {
        facts[slot] = fact;
    }
}

/// What is known where one of the two holds, if they are of one kind.
pub fn hull_of(a: Fact, b: Fact) -> Option<Fact>
    ensures first { IfSome result (λ fact. Implies a fact) }
    ensures second { IfSome result (λ fact. Implies b fact) }
    ensures told { a.kind ≡ b.kind → IsSome result }
{
    (a.kind == b.kind).then(|| Fact {
        kind: a.kind,
        may_lack: a.may_lack || b.may_lack,
        range: hull(a.range, b.range),
    })
}

fn is_within(a: Fact, b: Fact) -> bool
    ensures { result ≡ true → Implies a b }
{
    (b.may_lack || !a.may_lack) && a.kind == b.kind && f77_terms::is_within(a.range, b.range)
}

/// No cells suit these facts.
pub fn is_empty(facts: &[Fact]) -> bool
    ensures { result ≡ true → (cells : Cells) → ¬ (AreIn facts.now cells) }
{
    facts
        .iter()
        .any(|fact| !fact.may_lack && f77_terms::is_empty(fact.range))
}

/// The cells that suit the first facts suit the second.
pub fn is_inside(inner: &[Fact], outer: &[Fact]) -> bool
    ensures { result ≡ true → Lies inner.now outer.now }
{
    inner.len() == outer.len() && inner.iter().zip(outer).all(|(a, b)| is_within(*a, *b))
}
