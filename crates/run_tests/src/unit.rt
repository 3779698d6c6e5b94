//! The statements of a run, and what its declarations say of names. A name is looked up in them at each use.

use f77_program::Line;
use f77_run::{Fault, Finish};
use f77_tree::{Decl, Kind, Name, Shared, Stmt};
use std::alloc::{AllocError, AllocFailed, Global};

/// A legal program. Its statements are numbered from 0.
#[derive(Drop)]
pub(crate) struct Unit<'a> {
    /// The allocator for lists.
    pub(crate) alloc: Global,
    pub(crate) lines: &'a [Shared<Line>],
}

/// Why there is no value or no next step.
#[derive(Debug, Drop)]
pub(crate) enum Halt {
    /// The run ends (`Ends` of f77_meaning/specs/Step.antt).
    Ends(Finish),
    /// The definitions lead nowhere. No legal program comes to this.
    Nowhere,
    /// Memory ran out.
    Memory,
}

/// A fault ends the run (`With` of f77_meaning/specs/Step.antt).
impl From<Fault> for Halt {
    fn from(fault: Fault) -> Halt {
        Halt::Ends(Finish::Failed(fault))
    }
}

impl From<AllocError> for Halt {
    fn from(_e: AllocError) -> Halt {
        Halt::Memory
    }
}

impl<T: Drop> From<AllocFailed<T>> for Halt {
    fn from(_e: AllocFailed<T>) -> Halt {
        Halt::Memory
    }
}

/// The declaration of a name, if it is among these.
fn declared<'a>(items: &'a [Decl], name: &Name) -> Option<&'a Decl> {
    items.iter().find(|item| item.name == *name)
}

impl<'a> Unit<'a> {
    /// `nth_statement` (f77_legal/specs/Labels.antt).
    pub(crate) fn statement(&self, i: usize) -> Result<&'a Stmt, Halt> {
        match self.lines.get(i) {
            Some(line) => Ok(&line.stmt),
            None => Err(Halt::Nowhere),
        }
    }

    /// `dummies` (f77_legal/specs/Heading.antt; 15.6).
    pub(crate) fn dummies(&self) -> &'a [Name] {
        match self.lines.first() {
            Some(line) => match &line.stmt {
                Stmt::Subroutine { arguments, .. } => arguments,
                _ => &[],
            },
            None => &[],
        }
    }

    /// `kind_of` (f77_legal/specs/Names.antt; 4.1.2, 8.4): INTEGER where no type statement has the name.
    pub(crate) fn kind_of(&self, name: &Name) -> Kind {
        for line in self.lines {
            if let Stmt::Declare { kind, items } = &line.stmt {
                if declared(items, name).is_some() {
                    return *kind;
                }
            }
        }
        Kind::Integer
    }

    /// `bounds_of` (f77_legal/specs/Names.antt; 8.1, 8.4): a variable has none.
    pub(crate) fn bounds_of(&self, name: &Name) -> &'a [u32] {
        for line in self.lines {
            let item = match &line.stmt {
                Stmt::Declare { items, .. } | Stmt::Dimension { items } => declared(items, name),
                _ => None,
            };
            match item {
                Some(item) if !item.bounds.is_empty() => return &item.bounds,
                _ => {}
            }
        }
        &[]
    }

    /// `element_count` (f77_legal/specs/InitialValues.antt; 5.2.3): the product of the bounds, 1 for a variable.
    pub(crate) fn elements(&self, name: &Name) -> usize {
        let mut product: usize = 1;
        for bound in self.bounds_of(name) {
            product = product.saturating_mul(*bound as usize);
        }
        product
    }
}
