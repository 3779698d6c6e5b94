//! Where the program comes by itself: it is walked alone once, for all its mutants.

ghost use Rattle.std.specs.Prelude.{All, IfOk};
ghost use Rattle.f77_symbolic.specs.code.{Extends, AreExplored, GivesWayAlone, Whichever};
ghost use Rattle.f77_symbolic.specs.{AreVisits, IsToured};

use crate::cuts::is_cut;
use crate::evaluator::{Atoms, Evaluator};
use crate::halt::{Halt, told, unless_unknown};
use crate::samples::first_samples;
use crate::sides::{Side, Step};
use f77_actions::Resolved;
use f77_code::Place;
use f77_facts::{Entry, are_covered, is_inside};
use f77_terms::{Path, law_of_atoms, new_path, new_table};
use f77_tree::Shared;
use std::alloc::{AllocError, Global};

/// A state to which the program comes.
#[derive(Drop)]
pub struct Visit {
    pub path: Path,
    pub side: Side,
}

/// A walk of the program: the visits to come and those that were made, and what is known where it came to cuts.
#[derive(Drop)]
pub struct Walk {
    pub todo: Vec<Visit>,
    pub list: Vec<Visit>,
    pub arrivals: Vec<Entry>,
}

/// A walk of the program from one cut that came to an end, and what it knows.
#[derive(Drop)]
pub struct Visits {
    pub known: Evaluator,
    pub walk: Walk,
}

#[tactic(auto, using(crate::proofs::Extending::extending))]
impl Evaluator {
    /// The program makes a step alone, and the visit is noted. Where that is no end, and the path may hold, it leads to
    /// a side: what is known there is noted at a cut, and else the visit there is to come. Or the visit is split, or
    /// its path does not hold.
    fn step_alone(
        &mut self,
        statements: &[Shared<Resolved>],
        cuts: &[Place],
        mut visit: Visit,
        walk: &mut Walk,
    ) -> Result<(), Halt>
        ensures gives { IfOk result
            (λ _. GivesWayAlone self.new.atoms statements.now cuts.now walk.old walk.new visit) }
        ensures extends { Extends self.old.atoms self.new.atoms }
    {
        match self.step_from(&visit.path, true, &visit.side, statements) {
            Ok((step, side)) => {
                walk.list.push(visit)?;
                if step != Step::Moves || self.is_dead()? {
                    return Ok(());
                }
                if is_cut(cuts, side.place) {
                    walk.arrivals.push(self.settled_entry(&side)?)?;
                    return Ok(());
                }
                let path = self.taken_path();
                walk.todo.push(Visit { path, side })?;
                Ok(())
            }
            Err(halt) => {
                let Some((path, other)) = self.ways_of(halt, &visit.path)? else {
                    return Ok(());
                };
                let side = visit.side.clone()?;
                walk.todo.push(Visit { path, side })?;
                visit.path = other;
                walk.todo.push(visit)?;
                Ok(())
            }
        }
    }

    /// The program is walked from a visit on, by the work that is left at most.
    fn walk_alone(
        &mut self,
        statements: &[Shared<Resolved>],
        cuts: &[Place],
        first: Visit,
        work: &mut u64,
    ) -> Result<Walk, Halt>
        ensures walks { IfOk result (λ walk. Whichever self.new.atoms
            (λ start v. AreExplored statements.now cuts.now walk start v first)) }
        ensures extends { Extends self.old.atoms self.new.atoms }
    {
        let mut walk = Walk {
            todo: Vec::new(self.alloc),
            list: Vec::new(self.alloc),
            arrivals: Vec::new(self.alloc),
        };
        walk.todo.push(first)?;
        while *work > 0 {
            let Some(visit) = walk.todo.pop() else {
                return Ok(walk);
            };
            *work = work.saturating_sub(self.samples.cost(&visit.path, &visit.side));
            self.step_alone(statements, cuts, visit, &mut walk)?;
        }
        Err(Halt::Unknown)
    }
}

/// To begin a walk with so many statements costs one unit.
const STATEMENTS: u64 = 8;

/// What a walk of the program from an entry comes to.
fn visits_from(
    alloc: Global,
    statements: &[Shared<Resolved>],
    cuts: &[Place],
    entry: &Entry,
    work: &mut u64,
    seeks: bool,
) -> Result<Visits, Halt>
    ensures { IfOk result (λ visits. AreVisits statements.now cuts.now entry.now visits) }
{
    unless_unknown(entry.loops.len() == statements.len())?;
    *work = work.saturating_sub(statements.len() as u64 / STATEMENTS);
    let samples = first_samples(alloc, &entry.facts, statements.len(), seeks)?;
    let facts = entry.facts.to_vec(alloc)?;
    let table = new_table(alloc);
    let mut known = Evaluator {
        alloc,
        atoms: Atoms { facts, table },
        path: new_path(alloc),
        own: true,
        samples,
    };
    let first = known.first_visit(statements.len(), entry.place, &entry.loops)?;
    let walk = known.walk_alone(statements, cuts, first, work)?;
    unless_unknown(is_inside(&entry.facts, &known.atoms.facts))?;
    law_of_atoms(&known.atoms.table);
    Ok(Visits { known, walk })
}

/// What is known where a walk of the program from an entry comes to cuts, by so much work at most. None where it does
/// not come so far.
pub fn entries_behind(
    alloc: Global,
    statements: &[Shared<Resolved>],
    cuts: &[Place],
    entry: &Entry,
    work: &mut u64,
) -> Result<Option<Vec<Entry>>, AllocError> {
    let visits = told(visits_from(alloc, statements, cuts, entry, work, false))?;
    Ok(visits.map(|Visits { walk, .. }| walk.arrivals))
}

/// The walks from all entries of these places, by so much work at most. Where rows are to be sought, samples are.
pub(crate) fn tour_of(
    alloc: Global,
    statements: &[Shared<Resolved>],
    cuts: &[Place],
    entries: &[Entry],
    mut work: u64,
    seeks: bool,
) -> Result<Vec<Visits>, Halt>
    ensures { IfOk result (λ tour. All (IsToured statements.now cuts.now entries.now tour.items) entries.now) }
{
    let mut tour = Vec::new(alloc);
    for entry in entries {
        if is_cut(cuts, entry.place) {
            let visits = visits_from(alloc, statements, cuts, entry, &mut work, seeks)?;
            unless_unknown(are_covered(entries, &visits.walk.arrivals))?;
            tour.push(visits)?;
        }
    }
    Ok(tour)
}
