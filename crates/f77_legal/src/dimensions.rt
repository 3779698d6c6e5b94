//! Which bounds may be declared, and how many arguments a function takes.

ghost use Rattle.std.specs.Prelude.{◌≡◌, map};
ghost use Rattle.std.specs.List.{list_all};
ghost use Rattle.f77_tree.specs.Declaration.{decl_of};
ghost use Rattle.f77_legal.specs.Dimensions as dimensions;

use f77_tree::{Decl, Intrinsic};

/// Whether the function takes so many arguments (ANSI X3.9-1978, 15.10, table 5).
pub(crate) fn takes(function: Intrinsic, count: usize) -> bool
    ensures { result ≡ dimensions.takes function count }
{
    match function {
        Intrinsic::Mod => count == 2,
        Intrinsic::Iabs => count == 1,
        Intrinsic::Min0 | Intrinsic::Max0 => 2 <= count,
    }
}

/// Whether a declaration gives no bounds, or one or two that are at least 1.
fn is_shape(item: &Decl) -> bool
    ensures { result ≡ dimensions.is_shape (decl_of item.now) }
{
    item.bounds.len() <= 2 && item.bounds.iter().all(|bound| 1 <= *bound)
}

/// Whether each declaration gives no bounds, or one or two that are at least 1 (5.1).
pub(crate) fn are_shapes(items: &[Decl]) -> bool
    ensures { result ≡ list_all dimensions.is_shape (map decl_of items.now) }
{
    items.iter().all(|item| is_shape(item))
}
