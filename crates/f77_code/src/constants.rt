//! The constants that code names, in the registers behind those of slots.
//!
//! Constants are registers, so that an operand has one form. New constants of a changed statement stand behind those of
//! the program, and go when the statement does; `law::more_registers` says that they make no difference.

ghost use Rattle.std.specs.Prelude.{◌≡◌, ◌≤◌, ◌<◌, [], length, take, Some, IfOk, slice_get};

use std::alloc::{AllocError, Global};

/// A table of constants: the number of slots, which have the first registers, and the constants in the registers behind
/// them.
#[derive(Drop)]
pub struct Constants {
    slots: u32,
    values: Vec<i32>,
}

/// The place of a constant in this list, or the length of the list if it is not there.
fn place(values: &[i32], value: i32) -> usize
    ensures within { result ≤ length values.now }
    ensures found { result < length values.now → slice_get values.now result ≡ Some value }
{
    for (place, known) in values.iter().enumerate() {
        if *known == value {
            return place;
        }
    }
    values.len()
}

impl Constants {
    ghost use Rattle.f77_code.specs.code.Constants.{HasRegister, GrowsPlan};

    /// A table without constants, for this number of slots.
    pub fn new(alloc: Global, slots: u32) -> Constants
        ensures slots { result.slots ≡ slots }
        ensures values { result.values.items ≡ [] }
    {
        Constants {
            slots,
            values: Vec::new(alloc),
        }
    }

    /// The number of slots, and so of registers before the constants.
    #[inline]
    pub fn slots(&self) -> u32
        ensures { result ≡ self.now.slots }
    {
        self.slots
    }

    /// The constants, in the order of their registers.
    pub fn values(&self) -> &[i32]
        ensures { result.now ≡ self.now.values.items }
    {
        &self.values
    }

    /// Keeps the first `count` constants alone.
    pub(crate) fn forget(&mut self, count: usize)
        ensures slots { self.new.slots ≡ self.old.slots }
        ensures values { self.new.values.items ≡ take count self.old.values.items }
    {
        self.values.truncate(count);
    }

    /// The register of a constant. If it has none, it gets a new one.
    pub(crate) fn register(&mut self, value: i32) -> Result<u32, AllocError>
        ensures kept { IfOk result (λ r. HasRegister self.new r value) }
        ensures grown { GrowsPlan self.old self.new }
    {
        let place = place(&self.values, value);
        if place == self.values.len() {
            self.values.push(value)?;
        }
        match u32::try_from(self.slots as usize + place) {
            Ok(register) => Ok(register),
            Err(_) => Err(AllocError),
        }
    }
}
