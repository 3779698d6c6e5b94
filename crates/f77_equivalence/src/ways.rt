//! Whether control goes on alike from two statements.

ghost use Rattle.std.specs.Prelude.{◌≡◌, ◌↔◌, IsTrue, true};
ghost use Rattle.f77_code.specs.Moves as moves;
ghost use Rattle.f77_equivalence.specs.{GoOnAlike, HaveOneWayOn};

use f77_actions::{Action, Resolved};
use f77_tree::Shared;

/// The statement that is shared.
pub fn resolved_in(resolved: &Shared<Resolved>) -> &Resolved
    ensures { result.now ≡ resolved.now }
{
    resolved
}

/// Control goes on from both statements in one way.
pub fn goes_on_alike(own: &Resolved, other: &Resolved) -> bool
    ensures exact { IsTrue result ↔ HaveOneWayOn own.now other.now }
    ensures alike { result ≡ true → GoOnAlike own.now other.now }
{
    own.next == other.next && own.ends == other.ends
}

/// The action is one that is executed, and so is the one in a logical IF.
pub fn is_executed(action: &Action) -> bool
    ensures { result ≡ moves.is_executed action.now }
{
    match action {
        Action::Declaration => false,
        Action::LogicalIf { action, .. } => is_executed(action),
        _ => true,
    }
}
