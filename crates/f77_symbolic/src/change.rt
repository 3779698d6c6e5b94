//! A program with one statement changed.

ghost use Rattle.std.specs.Prelude.{◌≡◌, ◌<◌, length, slice_set, IfOk};
ghost use Rattle.f77_symbolic.specs.code.{HaveDummies, IsReady};

use crate::halt::{Halt, unless_unknown};
use f77_actions::Resolved;
use f77_check::Checked;
use f77_equivalence::start::size;
use f77_equivalence::ways::{goes_on_alike, resolved_in};
use f77_facts::assigning::Slots;
use f77_terms::item_at;
use f77_tree::Shared;
use std::alloc::{AllocError, Global};

/// The statements of both programs, and the dummy arguments.
#[derive(Drop)]
pub struct Change {
    /// The statement that is changed. Statements are numbered from 0 here.
    pub place: usize,
    pub own: Vec<Shared<Resolved>>,
    pub statements: Vec<Shared<Resolved>>,
    pub dummies: Vec<Slots>,
}

/// The slots of all dummy arguments.
fn dummies_of(alloc: Global, checked: &Checked) -> Result<Vec<Slots>, AllocError>
    ensures { IfOk result (λ list. HaveDummies checked.now list.items) }
{
    let start = checked.start();
    let shapes = checked.arguments();
    let mut list = Vec::new(alloc);
    for n in 0..start.dummies.len().min(shapes.len()) {
        let first = *item_at(&start.dummies, n);
        let count = size(*item_at(shapes, n));
        list.push(Slots { first, count })?;
    }
    Ok(list)
}

/// The program with this statement in that `place`. There is none where control does not go on from both in one way.
pub(crate) fn change_of(
    alloc: Global,
    checked: &Checked,
    place: usize,
    resolved: &Shared<Resolved>,
) -> Result<Change, Halt>
    requires { place < length checked.now.statements }
    ensures ready { IfOk result (λ change. IsReady checked.now change) }
    ensures place { IfOk result (λ change. change.place ≡ place) }
    ensures statements { IfOk result (λ change.
        change.statements.items ≡ slice_set checked.now.statements place resolved.now) }
{
    let own = checked.statements();
    unless_unknown(goes_on_alike(resolved_in(item_at(own, place)), resolved_in(resolved)))?;
    let mut statements = own.to_vec(alloc)?;
    statements[place] = resolved.clone()?;
    Ok(Change {
        place,
        own: own.to_vec(alloc)?,
        statements,
        dummies: dummies_of(alloc, checked)?,
    })
}
