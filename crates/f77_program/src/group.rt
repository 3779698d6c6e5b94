//! The groups of statements, and in which order they may stand.

ghost use Rattle.std.specs.Prelude.{◌≡◌, ◌≢◌, true, false, Some};
ghost use Rattle.f77_program.specs.Group as groups;
ghost use Rattle.f77_tree.specs.Statement.{statement_of};
ghost use Rattle.f77_program.specs.declared.group.Group.TheVariants as Group;
ghost use Rattle.f77_program.specs.{group_of, may_stand};

use f77_tree::{Form, Stmt};

/// The part of a subroutine that a statement belongs to, in the order of a subroutine (ANSI X3.9-1978, 3.5).
#[derive(Clone, Copy, Debug, PartialEq, Eq)]
pub enum Group {
    /// SUBROUTINE.
    Subroutine,
    /// INTEGER, LOGICAL and DIMENSION.
    Declaration,
    /// DATA.
    Data,
    /// Executable statements but END.
    Executable,
    /// END.
    End,
}

/// The group to which the statement belongs.
pub fn group_of(stmt: &Stmt) -> Group
    ensures { result ≡ group_of (statement_of stmt.now) }
{
    match stmt.form() {
        Form::Subroutine => Group::Subroutine,
        Form::Declare | Form::Dimension => Group::Declaration,
        Form::Preset => Group::Data,
        Form::End => Group::End,
        _ => Group::Executable,
    }
}

impl Group {
    /// The rank of the group in a subroutine, from 0.
    fn rank(self) -> u8
        ensures { result ≡ groups.group_rank self }
    {
        match self {
            Group::Subroutine => 0,
            Group::Declaration => 1,
            Group::Data => 2,
            Group::Executable => 3,
            Group::End => 4,
        }
    }

    /// Whether a statement of this group may follow one of the group `before`, or be the first where that is None.
    pub fn may_stand(self, before: Option<Group>) -> bool
        ensures { result ≡ may_stand before self }
    {
        let rank = self.rank();
        match before {
            None => rank == 0,
            Some(before) => 0 < rank && before.rank() <= rank && before.rank() < 4,
        }
    }
}

/// Whether the last statement was an END.
pub fn is_end(before: Option<Group>) -> bool
    ensures yes { result ≡ true → before ≡ Some Group.End }
    ensures no { result ≡ false → before ≢ Some Group.End }
{
    matches!(before, Some(Group::End))
}
