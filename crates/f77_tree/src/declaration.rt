//! Declared names, as they stand behind INTEGER, LOGICAL and DIMENSION.

ghost use Rattle.std.specs.Prelude.{◌≡◌, map};
ghost use Rattle.f77_tree.specs.Declaration as declared;
ghost use Rattle.f77_tree.specs.{decl_of};

use crate::name::Name;

/// A declared name, with its bounds where it is an array (ANSI X3.9-1978, 8.1 and 8.4).
#[derive(Debug, Drop)]
pub struct Decl {
    /// A variable, or an array where bounds follow.
    pub name: Name,
    /// The upper bound of each dimension, in order. 2147483648 stands for each bound above 2147483647.
    pub bounds: Vec<u32>,
}

fn has_bounds(item: &Decl) -> bool
    ensures { result ≡ declared.has_bounds (decl_of item.now) }
{
    !item.bounds.is_empty()
}

/// Whether each name has bounds, as DIMENSION requires (ANSI X3.9-1978, 8.1).
pub fn all_bounded(items: &[Decl]) -> bool
    ensures { result ≡ declared.all_bounded (map decl_of items.now) }
{
    for item in items {
        if !has_bounds(item) {
            return false;
        }
    }
    true
}
