//! What is known where runs start, whatever their arguments.

ghost use Rattle.std.specs.Prelude.{◌≡◌, true, length, map, option_map, List, IfOk};
ghost use Rattle.f77_equivalence.specs.Prelude.{zip, Cells, AreIn, SuitsFact, Arg, AreFitting};
ghost use Rattle.f77_equivalence.specs.Prelude.{all_filled, size_of, constant_value};
ghost use Rattle.f77_equivalence.specs.{HoldsStart, IsStartEntry, AreStorable};
ghost use Rattle.f77_equivalence.specs.code.{facts_given};

use f77_check::{Checked, Shape, Start};
use f77_code::Place;
use f77_facts::{Entry, Fact, LoopFact, filled, is_covered, numbers_of};
use f77_terms::Range;
use f77_tree::{Constant, Kind};
use std::alloc::{AllocError, Global};

/// How many elements a dummy argument of this shape has.
pub fn size(shape: Shape) -> usize
    ensures { result ≡ size_of shape }
{
    shape.elements.map_or(1, |count| count as usize)
}

/// What is known of a slot of this kind to which DATA gives this value, if any.
fn initial_fact(kind: Kind, initial: Option<Constant>) -> Fact
    ensures { SuitsFact result (option_map constant_value initial) }
{
    let (kind, low) = match initial {
        Some(Constant::Number(number)) => (Kind::Integer, i64::from(number)),
        Some(Constant::Truth(truth)) => (Kind::Logical, i64::from(truth)),
        None => {
            return Fact {
                kind,
                may_lack: true,
                range: Range { low: 1, high: 0 },
            };
        }
    };
    filled(kind, Range { low, high: low })
}

/// What is known of the slots before arguments are put into them.
fn initial_facts(alloc: Global, start: &Start) -> Result<Vec<Fact>, AllocError>
    requires { length start.now.kinds.items ≡ length start.now.initial.items }
    ensures { IfOk result (λ facts. AreIn facts.items (map (option_map constant_value) start.now.initial.items)) }
{
    let slots = start.kinds.iter().zip(&start.initial);
    slots
        .map(|(kind, initial)| initial_fact(*kind, *initial))
        .collect(alloc)
}

/// Each of so many slots from the first on is given what suits the fact.
fn give(facts: &mut Vec<Fact>, first: usize, count: usize, fact: Fact)
    ensures { facts.new.items ≡ facts_given facts.old.items first count fact }
{
    for slot in first..first.saturating_add(count).min(facts.len()) {
        facts[slot] = fact;
    }
}

/// Arguments of these shapes are put into the slots of their dummy arguments.
fn give_arguments(facts: &mut Vec<Fact>, dummies: &[usize], shapes: &[Shape])
    ensures { (cells : Cells) (arguments : List Arg) → AreIn facts.old.items cells → AreFitting shapes.now arguments
        → AreStorable arguments → AreIn facts.new.items (all_filled cells (zip dummies.now arguments)) }
{
    let Some((first, dummies)) = dummies.split_first() else {
        return;
    };
    let Some((shape, shapes)) = shapes.split_first() else {
        return;
    };
    let fact = filled(shape.kind, numbers_of(shape.kind));
    give(facts, *first, size(*shape), fact);
    give_arguments(facts, dummies, shapes);
}

/// What is known where a run of the program starts, whatever its arguments.
pub fn starting_entry(alloc: Global, checked: &Checked) -> Result<Entry, AllocError>
    ensures { IfOk result (λ entry. IsStartEntry checked.now entry) }
{
    let start = checked.start();
    let mut facts = initial_facts(alloc, start)?;
    give_arguments(&mut facts, &start.dummies, checked.arguments());
    Ok(Entry {
        place: Place::Execute(start.entry),
        facts,
        loops: vec![in alloc; LoopFact::Inactive; checked.count()]?,
    })
}

/// Entries say what is known where a run starts, whatever its arguments.
pub fn holds_start(alloc: Global, checked: &Checked, entries: &[Entry]) -> Result<bool, AllocError>
    ensures { IfOk result (λ holds. holds ≡ true → HoldsStart checked.now entries.now) }
{
    let start = starting_entry(alloc, checked)?;
    Ok(is_covered(entries, start.place, &start.facts, &start.loops))
}
