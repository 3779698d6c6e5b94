//! Compiling statements to instructions.

ghost use Rattle.std.specs.Prelude.{◌≡◌, ◌<◌, List, length, true, Some, slice_get, IfOk};
ghost use Rattle.f77_actions.specs.declared.resolved.Resolved.{Resolved};
ghost use Rattle.f77_code.specs.{is_ready, IsInstruction, beginning, ArePlaces, has_places, have_places};
ghost use Rattle.f77_code.specs.code.{HaveSameFrames, GrowsPlan};

use crate::compile::register_of;
use crate::compiling::{place_of, tested};
use crate::constants::Constants;
use crate::instruction::{Instruction, Operation, Parameters};
use crate::places::Places;
use crate::term::Term;
use f77_actions::{Action, Resolved};
use f77_tree::Shared;
use std::alloc::{AllocError, Global};

/// The operation that begins a DO. It needs no box where its parameters are registers.
fn beginning_operation(
    alloc: Global,
    variable: u32,
    counter: u32,
    body: u32,
    parameters: Parameters,
) -> Result<Operation, AllocError>
    ensures { IfOk result (λ operation. beginning operation ≡ Some
        (record { variable = variable; counter = counter; body = body; parameters = parameters })) }
{
    match (&parameters.first, &parameters.last, &parameters.step) {
        (Term::Register(first), Term::Register(last), Term::Register(step)) => {
            Ok(Operation::Count {
                variable,
                counter,
                body,
                first: *first,
                last: *last,
                step: *step,
            })
        }
        _ => Ok(Operation::Do {
            variable,
            counter,
            body,
            parameters: Box::new(alloc, parameters)?,
        }),
    }
}

impl Constants {
    /// The instruction of the statement `resolved` as number `i`. It serves in each program of the same frame that has
    /// this statement there.
    pub(crate) fn instruction(
        &mut self,
        alloc: Global,
        places: &Places,
        statements: &[Shared<Resolved>],
        i: usize,
        resolved: &Resolved,
    ) -> Result<Instruction, AllocError>
        requires places { ArePlaces statements.now places.now }
        requires have { have_places statements.now ≡ true }
        requires few { length statements.now < 2147483648 }
        requires i { i < length statements.now }
        requires here { has_places (length statements.now) resolved.now ≡ true }
        requires ready { is_ready self.old.slots (length statements.now) resolved.now.action ≡ true }
        ensures stands { IfOk result (λ instruction. (after : List Resolved)
            → HaveSameFrames statements.now after → slice_get after i ≡ Some resolved.now
            → IsInstruction self.new after i instruction) }
        ensures grown { GrowsPlan self.old self.new }
    {
        let onward = places.onward(&resolved.ends, resolved.next);
        match &resolved.action {
            Action::Branch {
                condition,
                otherwise,
            } => {
                let term = self.condition(alloc, condition)?;
                Ok(Instruction {
                    operation: tested(alloc, onward, term)?,
                    next: place_of(*otherwise),
                })
            }
            Action::Loop {
                variable,
                first,
                last,
                step,
                terminal,
            } => {
                let variable = register_of(*variable, self.slots());
                let first = self.number(alloc, first)?;
                let last = self.number(alloc, last)?;
                let step = self.number(alloc, step)?;
                Ok(Instruction {
                    operation: beginning_operation(
                        alloc,
                        variable,
                        places.counter(i),
                        i as u32 + 1,
                        Parameters { first, last, step },
                    )?,
                    next: places.left(statements, i, *terminal),
                })
            }
            _ => Ok(Instruction {
                operation: self.operation(alloc, &resolved.action)?,
                next: onward,
            }),
        }
    }
}
