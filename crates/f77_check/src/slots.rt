//! Slots: the places in which a run keeps the values of variables and array elements.

ghost use Rattle.std.specs.Prelude.{◌≡◌, ◌<◌, ◌^◌, true, Some, IfOk};
ghost use Rattle.indexmap.specs.IndexMap.{keys};
ghost use Rattle.f77_legal.specs.NameTable.{array_bounds};
ghost use Rattle.f77_check.specs.{slot_count, first_slot, IsSlotTable};
ghost use Rattle.f77_check.specs.code.{is_kept};

use f77_legal::names::{Names, product};
use f77_tree::Name;
use std::alloc::{AllocError, Global};

/// The first slot of each name, in order of first appearance, and the number of all slots.
#[derive(Drop)]
pub(crate) struct Slots {
    pub(crate) first: Vec<usize>,
    pub(crate) count: usize,
}

impl Slots {
    /// The slots of these names, name by name.
    pub(crate) fn of(alloc: Global, names: &Names) -> Result<Slots, AllocError>
        requires { slot_count (array_bounds names.now) (keys names.now.facts) < 2 ^ 32 }
        ensures { IfOk result (λ slots. IsSlotTable slots names.now) }
    {
        let mut first = Vec::new(alloc);
        let mut count: usize = 0;
        for name in names.facts.keys() {
            first.push(count)?;
            count += product(names.bounds(name)) as usize;
        }
        Ok(Slots { first, count })
    }

    /// The first slot of a name that is in the table.
    pub(crate) fn first(&self, names: &Names, name: &Name) -> usize
        requires table { IsSlotTable self.now names.now }
        requires kept { is_kept names.now name.now ≡ true }
        ensures { first_slot (array_bounds names.now) (keys names.now.facts) name.now ≡ Some result }
    {
        self.first[names.place(name).unwrap()]
    }
}
