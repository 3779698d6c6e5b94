//! Whether a program with one statement changed is equivalent, and how many steps are to be spared.

ghost use Rattle.std.specs.Prelude.{◌≡◌, All, map, IfOk, IfSome};
ghost use Rattle.f77_symbolic.specs.Prelude.{CheckedFields, IsEquivalentWithin, line_of};
ghost use Rattle.f77_check.specs.Patching.{IsInPlace};
ghost use Rattle.f77_legal.specs.Legal.{IsLegal};
ghost use Rattle.f77_program.specs.Patching.{Fits, patched};
ghost use Rattle.f77_tree.specs.Statement.{statement_of};
ghost use Rattle.f77_symbolic.specs.code.{Extends, FollowsThere, HavePairs, IsBehindBy};
ghost use Rattle.f77_symbolic.specs.{IsTourOf};

use crate::change::{Change, change_of};
use crate::cuts::cuts_of;
use crate::evaluator::{Atoms, Evaluator};
use crate::halt::{Halt, told, unless_unknown};
use crate::rows::Rows;
use crate::sides::statement_of;
use crate::visiting::{Visit, Visits, tour_of};
use crate::walking::Pair;
use crate::work::Work;
use f77_actions::Resolved;
use f77_check::Checked;
use f77_equivalence::start::holds_start;
use f77_facts::{Entry, is_inside};
use f77_terms::{Table, copied_path, law_of_atoms, new_path};
use f77_tree::{Shared, Stmt};
use std::alloc::{AllocError, Global};
use std::marker::Model;

/// For each visit to the statement of this number the pair in which the changed program is to follow the program from
/// there. Each takes of the work, and none is made where none is left.
fn pairs_at(
    alloc: Global,
    visits: &[Visit],
    place: usize,
    work: &mut Work,
) -> Result<Vec<Pair>, Halt>
    ensures { IfOk result (λ pairs. HavePairs place pairs.items visits.now) }
{
    let mut pairs = Vec::new(alloc);
    for visit in visits {
        if statement_of(visit.side.place) == place {
            unless_unknown(work.is_left())?;
            let cost = visit.path.cost_to_copy().saturating_add(1);
            work.left = work.left.saturating_sub(cost);
            pairs.push(Pair {
                path: copied_path(&visit.path)?,
                left: visit.side.clone()?,
                right: visit.side.clone()?,
                credit: 0,
                fresh: true,
            })?;
        }
    }
    Ok(pairs)
}

impl Visits {
    /// An evaluator that knows what the visits know, in memory of its own.
    #[tactic(auto, using(crate::proofs::Extending::extending))]
    fn evaluator(&self, alloc: Global) -> Result<Evaluator, AllocError>
        ensures { IfOk result (λ evaluator. Extends self.now.known.atoms evaluator.atoms) }
    {
        let facts = self.known.atoms.facts.to_vec(alloc)?;
        let table = Table {
            keys: self.known.atoms.table.keys.to_vec(alloc)?,
        };
        Ok(Evaluator {
            alloc,
            atoms: Atoms { facts, table },
            path: new_path(alloc),
            own: true,
            samples: self.known.samples.copied()?,
        })
    }

    /// The changed program follows the program from wherever that comes to the changed statement. Gives by how many
    /// steps it is behind at most; where that is not told there may be rows.
    fn steps_behind(
        &self,
        alloc: Global,
        change: &Change,
        work: &mut Work,
        rows: &mut Rows,
    ) -> Result<u64, Halt>
        ensures { IfOk result (λ behind. IsBehindBy change.now behind self.now) }
    {
        law_of_atoms(&self.known.atoms.table);
        let todo = pairs_at(alloc, &self.walk.list, change.place, work)?;
        if todo.len() == 0 {
            return Ok(0);
        }
        work.left = work.left.saturating_sub(self.known.samples.cost_to_copy()?);
        let mut evaluator = self.evaluator(alloc)?;
        let followed = evaluator.follow(change, todo, work);
        work.left = work.left.saturating_sub(evaluator.samples.spent.take());
        if followed.is_err() {
            rows.add_all(&evaluator.samples, &change.dummies)?;
        }
        let behind = followed?;
        unless_unknown(is_inside(&self.known.atoms.facts, &evaluator.atoms.facts))?;
        law_of_atoms(&evaluator.atoms.table);
        Ok(behind)
    }
}

/// The changed program follows the program from each cut. Gives by how many steps it is behind at most.
fn most_behind(
    alloc: Global,
    tour: &[Visits],
    change: &Change,
    work: &mut Work,
    rows: &mut Rows,
) -> Result<u64, Halt>
    ensures { IfOk result (λ behind. (checked : CheckedFields) → IsTourOf checked tour.now
        → FollowsThere checked change.now behind) }
{
    let mut most = 0;
    for visits in tour {
        let behind = visits.steps_behind(alloc, change, work, rows)?;
        most = behind.max(most);
    }
    Ok(most)
}

/// By how many steps the changed program is behind at most, on the tour on which these are fewest.
fn fewest_behind(
    alloc: Global,
    tours: &[Vec<Visits>],
    change: &Change,
    work: &mut Work,
    rows: &mut Rows,
) -> Result<Option<u64>, AllocError>
    ensures { IfOk result (λ found. IfSome found (λ behind. (checked : CheckedFields)
        → All (λ tour. IsTourOf checked tour.items) tours.now → FollowsThere checked change.now behind)) }
{
    let mut fewest: Option<u64> = None;
    for tour in tours {
        match told(most_behind(alloc, tour, change, work, rows))? {
            Some(0) => return Ok(Some(0)),
            Some(behind) if fewest.map_or(true, |least| behind < least) => fewest = Some(behind),
            _ => {}
        }
    }
    Ok(fewest)
}

/// The tours of a program that came to an end: from its start and each place to which control comes on more than one
/// way, and from its start alone.
#[derive(Drop)]
pub struct Tours<'a> {
    checked: &'a Checked,
    list: Vec<Vec<Visits>>,
}

impl<'a> Model for Tours<'a> {
    ghost use Rattle.std.specs.Prelude.{All};
    ghost use Rattle.f77_check.specs.Checked.{CheckedFields};
    ghost use Rattle.f77_check.specs.contracts.checked.Checked as legal;
    ghost use Rattle.f77_symbolic.specs.Visits.{IsTourOf};

    ghost Value = { CheckedFields };

    ghost coded = { legal.the_row.coded };

    ghost view = { λ tours. tours.checked.now };

    ghost invariant = { λ tours. All (λ tour. IsTourOf tours.checked.now tour.items) tours.list.items };
}

impl<'a> Tours<'a> {
    /// The tours of a program from these entries, where they say what is known where runs start: by so much `work` from
    /// all cuts at most, and by so much `from_start` from the start alone. Where that is the only entry there is one
    /// tour, from there, by so much `work`. `seeks` says whether rows will be asked for.
    pub fn of(
        alloc: Global,
        checked: &'a Checked,
        entries: &[Entry],
        work: u64,
        from_start: u64,
        seeks: bool,
    ) -> Result<Tours<'a>, AllocError>
        ensures { IfOk result (λ tours. tours ≡ checked.now) }
    {
        let mut list = Vec::new(alloc);
        if !holds_start(alloc, checked, entries)? {
            return Ok(Tours { checked, list });
        }
        let statements = checked.statements();
        let entry = checked.start().entry;
        let both = [(true, work), (false, from_start)];
        let alone = [(false, work)];
        let ways = if entries.len() == 1 {
            &alone[..]
        } else {
            &both[..]
        };
        for (joins, work) in ways.iter().copied() {
            let cuts = cuts_of(alloc, statements, entry, joins)?;
            if let Some(tour) = told(tour_of(alloc, statements, &cuts, entries, work, seeks))? {
                list.push(tour)?;
            }
        }
        Ok(Tours { checked, list })
    }

    /// No walk of the program came to an end.
    pub fn is_empty(&self) -> bool {
        self.list.len() == 0
    }

    /// By how many steps a limit is to be larger for the program with this statement in the place of the one of this
    /// number, from 1, to come to what the program comes to wherever that returns or stops. None where that was not
    /// shown by the work that may be taken: no more is left than is kept where it did not do. Then there may be rows.
    pub fn steps_to_spare(
        &self,
        alloc: Global,
        number: usize,
        stmt: &Stmt,
        resolved: &Shared<Resolved>,
        work: &mut Work,
        rows: &mut Rows,
    ) -> Result<Option<u64>, AllocError>
        requires fits { Fits (map line_of self.now.program) number (statement_of stmt.now) }
        requires legal { IsLegal (patched (map line_of self.now.program) number (statement_of stmt.now)) }
        requires in_place { IsInPlace self.now number (statement_of stmt.now) resolved.now }
        ensures { IfOk result (λ found. IfSome found (λ spare.
            IsEquivalentWithin spare (map line_of self.now.program)
            (patched (map line_of self.now.program) number (statement_of stmt.now)))) }
    {
        let place = number - 1;
        if place >= self.checked.statements().len() {
            return Ok(None);
        }
        let Some(change) = told(change_of(alloc, self.checked, place, resolved))? else {
            return Ok(None);
        };
        fewest_behind(alloc, &self.list, &change, work, rows)
    }
}
