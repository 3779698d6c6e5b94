//! What encloses each statement: the ranges of DOs and the branches around it. From these follows
//! where control may go.
//!
//! What encloses a statement is looked for among the statements where DOs and branches begin. A legal program has few
//! (C14), so no list of what encloses each is kept.

ghost use Rattle.std.specs.Prelude.{◌≡◌, ◌&&◌, ◌||◌, not, List, IfOk};
ghost use Rattle.f77_program.specs.Program.{LineFields};
ghost use Rattle.f77_legal.specs.Enclosing as enclosing;
ghost use Rattle.f77_legal.specs.Loops as loops;
ghost use Rattle.f77_legal.specs.code.LoopTable as table;
ghost use Rattle.f77_legal.specs.{IsRangeTable, is_head, heads_of};

use crate::blocks::end_in;
use std::alloc::{AllocError, Global};

/// The ends of DOs and of branches. Each list has an entry for each statement, in order.
#[derive(Drop)]
pub struct Ranges {
    pub(crate) terminals: Vec<Option<usize>>,
    pub(crate) branch_ends: Vec<Option<usize>>,
    /// Where DOs and branches begin, in order.
    pub(crate) heads: Vec<usize>,
}

/// Whether a DO or a branch begins at `d`.
fn is_head(terminals: &[Option<usize>], branch_ends: &[Option<usize>], d: usize) -> bool
    ensures { result ≡ is_head terminals.now branch_ends.now d }
{
    end_in(terminals, d).is_some() || end_in(branch_ends, d).is_some()
}

impl Ranges {
    /// The table of these ends.
    pub(crate) fn of(
        alloc: Global,
        terminals: Vec<Option<usize>>,
        branch_ends: Vec<Option<usize>>,
    ) -> Result<Ranges, AllocError>
        ensures terminals { IfOk result (λ ranges. ranges.terminals ≡ terminals) }
        ensures branch_ends { IfOk result (λ ranges. ranges.branch_ends ≡ branch_ends) }
        ensures heads { IfOk result (λ ranges. ranges.heads.items ≡ heads_of ranges) }
    {
        let heads: Vec<usize> = (0..terminals.len())
            .filter(|d| is_head(&terminals, &branch_ends, *d))
            .collect(alloc)?;
        Ok(Ranges {
            terminals,
            branch_ends,
            heads,
        })
    }

    /// The terminal statement of the DO with this number (11.10). None if it is no DO.
    pub fn terminal(&self, d: usize) -> Option<usize>
        ensures { (program : List LineFields) → IsRangeTable self.now program → result ≡ loops.terminal program d }
    {
        end_in(&self.terminals, d)
    }

    /// Whether the range of the DO `d` holds statement `k`.
    pub(crate) fn in_range(&self, d: usize, k: usize) -> bool
        ensures { result ≡ table.is_in_do_range self.now.terminals.items d k }
    {
        end_in(&self.terminals, d).is_some_and(|terminal| d < k && k <= terminal)
    }

    /// Whether statement `k` stands in the branch that `b` begins.
    fn in_branch(&self, b: usize, k: usize) -> bool
        ensures { result ≡ enclosing.in_branch self.now.branch_ends.items b k }
    {
        end_in(&self.branch_ends, b).is_some_and(|end| b < k && k < end)
    }

    fn holds(&self, k: usize, d: usize) -> bool
        ensures { result ≡ table.holds_by self.now k d }
    {
        self.in_range(d, k) || self.in_branch(d, k)
    }

    /// Whether the DO `d` has `i` in its range and not `k`.
    fn is_left(&self, i: usize, k: usize, d: usize) -> bool
        ensures { result ≡ table.is_left_by_table self.now i k d }
    {
        self.in_range(d, i) && !self.in_range(d, k)
    }

    fn leaves_branch(&self, i: usize, k: usize, b: usize) -> bool
        ensures { result ≡ table.leaves_branch self.now i k b }
    {
        self.in_branch(b, i) && !self.in_branch(b, k)
    }

    /// Whether `e` begins a branch that holds one of `d` and `t` alone, or a range that holds `d` and not `t`.
    fn separates(&self, d: usize, t: usize, e: usize) -> bool
        ensures { result ≡ table.separates self.now d t e }
    {
        self.leaves_branch(d, t, e) || self.leaves_branch(t, d, e) || self.is_left(d, t, e)
    }

    fn ends_outside(&self, d: usize, terminal: usize) -> bool
        ensures { (program : List LineFields)
            → IsRangeTable self.now program → result ≡ loops.ends_outside program d terminal }
    {
        terminal <= d || self.heads.iter().any(|e| self.separates(d, terminal, *e))
    }

    /// Whether the DO `d` ends before it begins, in another branch, or outside of a range that holds it (11.10).
    pub(crate) fn breaks_range(&self, d: usize) -> bool
        ensures { (program : List LineFields) → IsRangeTable self.now program → result ≡ loops.breaks_range program d }
    {
        match self.terminal(d) {
            Some(terminal) => self.ends_outside(d, terminal),
            None => false,
        }
    }

    /// The DOs that a jump from statement `i` to statement `j` leaves, the outermost first (11.10.8).
    pub fn left_by(&self, alloc: Global, i: usize, j: usize) -> Result<Vec<usize>, AllocError>
        ensures left { IfOk result (λ left. (program : List LineFields)
            → IsRangeTable self.now program → left.items ≡ loops.left_by program i j) }
    {
        let heads = self.heads.iter().copied();
        let left: Vec<usize> = heads.filter(|d| self.is_left(i, j, *d)).collect(alloc)?;
        Ok(left)
    }

    /// The DOs whose terminal statement is `t`, the innermost first (11.10). The DOs have to be nested.
    pub fn ending(&self, alloc: Global, t: usize) -> Result<Vec<usize>, AllocError>
        ensures ends { IfOk result
            (λ ends. (program : List LineFields) → IsRangeTable self.now program → loops.AreNested program
            → ends.items ≡ loops.loops_ending program t) }
    {
        let heads = self.heads.iter().copied();
        let mut ends: Vec<usize> = heads.filter(|d| self.ends_at(t, *d)).collect(alloc)?;
        ends.reverse();
        Ok(ends)
    }

    fn ends_at(&self, t: usize, d: usize) -> bool
        ensures { result ≡ table.ends_at_by_table self.now t d }
    {
        end_in(&self.terminals, d) == Some(t)
    }

    /// Whether `d` holds `j`, and not `i` or, where control has left something before, even so.
    fn enters(&self, left: bool, i: usize, j: usize, d: usize) -> bool
        ensures { result ≡ (table.holds_by self.now j d && (left || not (table.holds_by self.now i d))) }
    {
        self.holds(j, d) && (left || !self.holds(i, d))
    }

    /// Whether `d` holds `i` and not `j`.
    fn leaves(&self, i: usize, j: usize, d: usize) -> bool
        ensures { result ≡ (table.holds_by self.now i d && not (table.holds_by self.now j d)) }
    {
        self.holds(i, d) && !self.holds(j, d)
    }

    /// Whether control enters a range or a branch from outside where it goes from `i` to `j` (11.10.8, 11.6 to 11.8):
    /// one of those that hold `j` does not hold `i`, or begins behind one that holds `i` and not `j`.
    pub(crate) fn goes_in(&self, i: usize, j: usize) -> bool
        ensures { (program : List LineFields) → IsRangeTable self.now program → result ≡ loops.goes_in program i j }
    {
        let mut left = false;
        for d in &self.heads {
            if self.enters(left, i, j, *d) {
                return true;
            }
            left |= self.leaves(i, j, *d);
        }
        false
    }
}
