//! What holds of every checked program with one statement changed.

ghost use Rattle.f77_symbolic.specs.{EquivalentWhereFollowed};

/// A changed program is equivalent, with so many steps to spare, where it follows the program from each state in which
/// a run from a start comes to the changed statement.
pub fn equivalent_where_followed()
    ensures { EquivalentWhereFollowed }
{}
