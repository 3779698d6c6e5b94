//! What of a path is near some terms: what is bound to their atoms, step by step.

ghost use Rattle.std.specs.Prelude.{IfOk};
ghost use Rattle.f77_terms.specs.{Holds, Valuation};

use crate::paths::{Choice, Path, copied_path};
use crate::terms::Term;
use std::alloc::AllocError;
use std::slice::from_ref;

/// The atoms that are marked, and how many they are.
#[derive(Drop)]
struct Marks {
    marked: Vec<bool>,
    count: usize,
}

impl Marks {
    /// An atom of the term is marked.
    fn is_near(&self, term: &Term) -> bool {
        term.parts.iter().any(|part| self.marked.get(part.atom).copied().unwrap_or(false))
    }

    /// A case of the choice is near.
    fn is_choice_near(&self, choice: &Choice) -> bool {
        let mut bounds = choice.first.iter().chain(&choice.second);
        bounds.any(|bound| self.is_near(bound))
    }

    /// Marks the atoms of terms.
    fn mark(&mut self, terms: &[Term]) -> Result<(), AllocError> {
        for part in terms.iter().flat_map(|term| &term.parts) {
            let room = part.atom.saturating_add(1).max(self.marked.len());
            self.marked.resize(room, false)?;
            if let Some(mark) = self.marked.get_mut(part.atom) {
                self.count = self.count.saturating_add(usize::from(!*mark));
                *mark = true;
            }
        }
        Ok(())
    }

    /// Marks the atoms of what is near on the path, from its end: what is made of others comes after them.
    fn spread(&mut self, path: &Path) -> Result<(), AllocError> {
        for term in path.below.iter().chain(&path.unequal).rev() {
            if self.is_near(term) {
                self.mark(from_ref(term))?;
            }
        }
        for choice in path.choices.iter().rev() {
            if self.is_choice_near(choice) {
                self.mark(&choice.first)?;
                self.mark(&choice.second)?;
            }
        }
        Ok(())
    }

    /// The atoms that are bound to those of these terms.
    fn of(path: &Path, terms: &[Term]) -> Result<Marks, AllocError> {
        let marked = Vec::new(*path.below.allocator());
        let mut marks = Marks { marked, count: 0 };
        marks.mark(terms)?;
        for _ in 0..u64::MAX {
            let before = marks.count;
            marks.spread(path)?;
            if marks.count == before {
                break;
            }
        }
        Ok(marks)
    }
}

/// What of a path is near these terms: all of it where there are none.
pub(crate) fn path_near(path: &Path, terms: &[Term]) -> Result<Path, AllocError>
    ensures { IfOk result (λ near. (v : Valuation) → Holds v path.now → Holds v near) }
{
    let mut near = copied_path(path)?;
    if terms.is_empty() {
        return Ok(near);
    }
    let marks = Marks::of(path, terms)?;
    near.below.retain(|term| marks.is_near(term));
    near.unequal.retain(|term| marks.is_near(term));
    near.choices.retain(|choice| marks.is_choice_near(choice));
    Ok(near)
}
