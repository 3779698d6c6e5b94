//! The code of a program, and its making.

ghost use Rattle.std.specs.Prelude.{◌≡◌, ◌<◌, ◌+◌, length, true, IfOk};
ghost use Rattle.f77_code.specs.declared.constants.Constants.{Constants};
ghost use Rattle.f77_actions.specs.declared.resolved.Resolved.{Resolved};
ghost use Rattle.f77_code.specs.{are_ready, ArePlaces, have_places, IsCode};
ghost use Rattle.f77_code.specs.code.{AreExecuted, AreFollowed};

use crate::compile::register_of;
use crate::constants::Constants;
use crate::instruction::{Instruction, Operation};
use crate::places::Places;
use f77_actions::{Action, Resolved};
use f77_tree::Shared;
use std::alloc::{AllocError, Global};

/// The code of a program: an instruction for each statement, behind these one for the incrementation of each DO, and
/// the constants that they name.
#[derive(Drop)]
pub struct Code {
    pub(crate) instructions: Vec<Instruction>,
    pub(crate) places: Places,
    pub(crate) constants: Constants,
}

/// The instructions of all statements, in order. Their constants are added to the table.
fn executed(
    alloc: Global,
    places: &Places,
    statements: &[Shared<Resolved>],
    constants: &mut Constants,
) -> Result<Vec<Instruction>, AllocError>
    requires places { ArePlaces statements.now places.now }
    requires have { have_places statements.now ≡ true }
    requires few { length statements.now < 2147483648 }
    requires ready { are_ready constants.old.slots statements.now ≡ true }
    ensures executed { IfOk result
        (λ list. AreExecuted constants.new statements.now (length statements.now) list.items) }
    ensures slots { IfOk result (λ list. constants.new.slots ≡ constants.old.slots) }
{
    let mut list = Vec::with_capacity(alloc, statements.len())?;
    for i in 0..statements.len() {
        let instruction = constants.instruction(alloc, places, statements, i, &statements[i])?;
        list.push(instruction)?;
    }
    Ok(list)
}

/// Adds the incrementation of statement `d`, if that is a DO (11.10.7).
fn add_increment(
    alloc: Global,
    slots: u32,
    places: &Places,
    statements: &[Shared<Resolved>],
    d: usize,
    list: &mut Vec<Instruction>,
) -> Result<(), AllocError>
    requires places { ArePlaces statements.now places.now }
    requires have { have_places statements.now ≡ true }
    requires few { length statements.now < 2147483648 }
    requires d { d < length statements.now }
    requires ready { are_ready slots statements.now ≡ true }
    ensures { (table : Constants) → IfOk result
        (λ _. AreFollowed table statements.now d list.old.items
        → AreFollowed table statements.now (d + 1) list.new.items) }
{
    if let Action::Loop {
        variable,
        terminal,
        ..
    } = &statements[d].action
    {
        list.push(Instruction {
            operation: Operation::Next {
                variable: register_of(*variable, slots),
                counter: places.counter(d),
                body: d as u32 + 1,
            },
            next: places.left(statements, d, *terminal),
        })?;
    }
    Ok(())
}

/// The code of a program with this number of slots. Memory is also reported where registers have more numbers than 32
/// bits hold.
pub fn compiled(
    alloc: Global,
    slots: u32,
    statements: &[Shared<Resolved>],
) -> Result<Code, AllocError>
    requires have { have_places statements.now ≡ true }
    requires few { length statements.now < 2147483648 }
    requires ready { are_ready slots statements.now ≡ true }
    ensures code { IfOk result (λ code. IsCode statements.now code) }
    ensures slots { IfOk result (λ code. code.constants.slots ≡ slots) }
{
    let places = Places::new(alloc, statements)?;
    let mut constants = Constants::new(alloc, slots);
    let mut instructions = executed(alloc, &places, statements, &mut constants)?;
    for d in 0..statements.len() {
        add_increment(alloc, slots, &places, statements, d, &mut instructions)?;
    }
    Ok(Code {
        instructions,
        places,
        constants,
    })
}

impl Code {
    /// The instructions: first those of the statements, then the incrementations of the DOs, both in the order of the
    /// statements.
    pub fn instructions(&self) -> &[Instruction]
        ensures { result.now ≡ self.now.instructions.items }
    {
        &self.instructions
    }

    /// The constants. They are in the registers behind those of the slots.
    pub fn constants(&self) -> &Constants
        ensures { result.now ≡ self.now.constants }
    {
        &self.constants
    }
}
