//! Laws of lines and programs.

ghost use Rattle.std.specs.Prelude.{◌≡◌, ◌↔◌, true, List};
ghost use Rattle.f77_program.specs.{same_line, same_lines, LineFields};

/// Two programs, or two lines, are equal by `==` exactly where their views are equal.
#[tactic(auto, using(crate::specs::SameLines::line_decides, crate::specs::SameLines::lines_decide))]
pub fn equal_programs_are_one()
    ensures lines { (l m : LineFields) → (same_line l m ≡ true) ↔ (l ≡ m) }
    ensures programs { (ls ms : List LineFields) → (same_lines ls ms ≡ true) ↔ (ls ≡ ms) }
{}
