//! Theorems on the operators' lists. Each is the contract of a function that does nothing.

ghost use Rattle.std.specs.Prelude.{◌≡◌, ◌↔◌, ◌*◌, ◌<◌, ◌≤◌, ◌⊎◌, ℕ, List, Some};
ghost use Rattle.std.specs.Prelude.{None, length, slice_get};
ghost use Rattle.f77_tree.specs.Statement.{Statement};
ghost use Rattle.f77_program.specs.Program.{IsProgram, LineFields};
ghost use Rattle.f77_program.specs.Patching.{Fits};
ghost use Rattle.f77_legal.specs.Legal.{IsLegal};
ghost use Rattle.mothra_replacements.specs.Pools.{pools_of};
ghost use Rattle.mothra_ops.specs.declared.edit.Edit.{Edit};
ghost use Rattle.mothra_codes.specs.declared.op.Op.{Op};
ghost use Rattle.mothra_ops.specs.{Lists, IsMember, IsTooLong, MakesLegal, made, thinned, most_edits, most_whole};

/// An operator has only one whole list for a program.
pub fn one_list()
    ensures { (op : Op) (program : List LineFields) (one other : List Edit)
        → Lists (IsMember op program) one → Lists (IsMember op program) other → one ≡ other }
{}

/// Where a list is reported as too long, the whole list, or the list thinned, is longer than it may be.
pub fn too_long()
    ensures { (op : Op) (program : List LineFields) (q : ℕ) (whole : List Edit)
        → 1 ≤ q → IsTooLong op program q → Lists (IsMember op program) whole
        → (most_edits < length (thinned q whole)) ⊎ (most_whole < length whole) }
{}

/// A list thinned by q has the items 1, q + 1, 2 q + 1 and so on of the whole list, counted from 1.
pub fn thinned_items()
    ensures { (q : ℕ) (edits : List Edit) (k : ℕ) → 1 ≤ q → slice_get (thinned q edits) k ≡ slice_get edits (k * q) }
{}

/// What an operator makes of a statement of a legal program may stand in its place: some text spells it, its names have
/// at most six characters, and it is of the same group. So the operator's list leaves out only what is not legal, and
/// what is the same program.
pub fn legal_members()
    ensures fits { (program : List LineFields) (edit : Edit) (statement : Statement)
        → IsProgram None program → IsLegal program
        → made (pools_of program) program edit ≡ Some statement → Fits program edit.statement statement }
    ensures members { (op : Op) (program : List LineFields) (edit : Edit) → IsProgram None program → IsLegal program
        → IsMember op program edit ↔ MakesLegal op program edit }
{}
