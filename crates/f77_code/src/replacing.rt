//! The code of a program in which one instruction at a time is replaced.

ghost use Rattle.std.specs.Prelude.{◌≡◌, ◌≤◌, ◌<◌, List, true, length, IfSome, OnErr, OnOk, slice_get};
ghost use Rattle.std.specs.Prelude.{slice_set};
ghost use Rattle.f77_actions.specs.declared.resolved.Resolved.{Resolved as Statement};
ghost use Rattle.f77_code.specs.{is_ready, are_ready, own_instructions, IsChangedCode, IsAllOwn, HaveOneOwn};
ghost use Rattle.f77_code.specs.{MayReplace, has_places, have_places, IsCode, AgreeButAt};

use crate::code::Code;
use crate::instruction::Instruction;
use f77_actions::Resolved;
use f77_tree::Shared;
use std::alloc::{AllocError, Global};
use std::mem;

/// An instruction of the program, while another one stands in its place.
#[derive(Drop)]
pub struct OwnInstruction {
    place: usize,
    own: Instruction,
}

/// The code of a program. The instruction of one statement may be that of another statement.
#[derive(Drop)]
pub struct ChangedCode {
    code: Code,
    /// The number of constants that are the program's own.
    own: usize,
    replaced: Option<OwnInstruction>,
}

impl ChangedCode {
    /// The code of a program, with no instruction replaced. It takes no memory.
    pub fn of(code: Code) -> ChangedCode
        ensures code { result.code ≡ code }
        ensures own { IsAllOwn result }
        ensures is { (statements : List Statement) → IsCode statements code → IsChangedCode statements result }
    {
        let own = code.constants.values().len();
        ChangedCode {
            code,
            own,
            replaced: None,
        }
    }

    /// The code as it is now, with the new instruction if one is replaced.
    #[inline]
    pub fn code(&self) -> &Code
        ensures { result.now ≡ self.now.code }
    {
        &self.code
    }

    /// Puts the program's own instruction back, and drops the constants that are not its own. It takes no memory.
    pub fn restore(&mut self)
        requires within { IfSome self.old.replaced (λ it. it.place < length self.old.code.instructions.items) }
        requires own { self.old.own ≤ length self.old.code.constants.values.items }
        ensures same { HaveOneOwn self.old self.new }
        ensures own { IsAllOwn self.new }
    {
        if let Some(replaced) = self.replaced.take() {
            self.code.instructions[replaced.place] = replaced.own;
        }
        self.code.constants.forget(self.own);
    }

    /// Puts the instruction of another statement in the place `i`; each other instruction is the program's own. If
    /// memory runs out, none is replaced.
    pub fn replace(
        &mut self,
        alloc: Global,
        statements: &[Shared<Resolved>],
        i: usize,
        resolved: &Resolved,
    ) -> Result<(), AllocError>
        requires is { IsChangedCode statements.now self.old }
        requires have { have_places statements.now ≡ true }
        requires few { length statements.now < 2147483648 }
        requires all { are_ready self.old.code.constants.slots statements.now ≡ true }
        requires i { i < length statements.now }
        requires may { IfSome (slice_get statements.now i) (λ r. MayReplace r resolved.now) }
        requires here { has_places (length statements.now) resolved.now ≡ true }
        requires ready { is_ready self.old.code.constants.slots (length statements.now) resolved.now.action ≡ true }
        ensures is { IsChangedCode statements.now self.new }
        ensures same { HaveOneOwn self.old self.new }
        ensures code { OnOk result (IsCode (slice_set statements.now i resolved.now) self.new.code) }
        ensures others { OnOk result (AgreeButAt i (own_instructions self.old) self.new.code.instructions.items) }
        ensures none { OnErr result (IsAllOwn self.new) }
    {
        self.restore();
        let places = &self.code.places;
        let constants = &mut self.code.constants;
        let Ok(instruction) = constants.instruction(alloc, places, statements, i, resolved) else {
            self.restore();
            return Err(AllocError);
        };
        let own = mem::replace(&mut self.code.instructions[i], instruction);
        self.replaced = Some(OwnInstruction { place: i, own });
        Ok(())
    }
}
