//! Declared names: whether some text spells them, and how they are written.

ghost use Rattle.std.specs.Prelude.{◌≡◌, ◌++◌, true, map, OnOk, string_bytes};
ghost use Rattle.std.specs.List.{list_all};
ghost use Rattle.f77_tree.specs.Declaration.{decl_of};
ghost use Rattle.f77_tree.specs.Name.{is_symbolic};
ghost use Rattle.f77_program.specs.Declaration as declared;
ghost use Rattle.f77_program.specs.code.Declaration as declared_code;

use crate::joined::{print_joined, print_numbers};
use f77_tree::Decl;
use std::alloc::AllocError;

/// Whether each declared name has at most six characters.
fn are_symbolic(items: &[Decl]) -> bool
    ensures { result ≡ list_all (declared_code.is_decl is_symbolic) (map decl_of items.now) }
{
    for item in items {
        if !item.name.is_short() {
            return false;
        }
    }
    true
}

/// Whether some text spells the declared names, where bounds may have any size, and each name has at most six
/// characters.
#[tactic(auto, using(crate::proofs::JoinedForms::some_seen, crate::proofs::JoinedForms::none_seen))]
pub(crate) fn declaration_formed(items: &[Decl]) -> bool
    ensures { result ≡ declared_code.declaration_formed is_symbolic (map decl_of items.now) }
{
    !items.is_empty() && are_symbolic(items)
}

fn print_declaration(out: &mut String, item: &Decl) -> Result<(), AllocError>
    ensures { OnOk result (string_bytes out.new ≡ string_bytes out.old ++ declared.decl_text (decl_of item.now)) }
{
    out.push_str(item.name.as_str())?;
    if item.bounds.is_empty() {
        return Ok(());
    }
    print_numbers(out, &item.bounds)?;
    out.push_str(")")
}

/// Writes declared names with their bounds, joined by commas, without blanks.
pub(crate) fn print_declarations(out: &mut String, items: &[Decl]) -> Result<(), AllocError>
    ensures { OnOk result
        (string_bytes out.new ≡ string_bytes out.old ++ declared.declarations_text (map decl_of items.now)) }
{
    print_joined(out, "", items, print_declaration)
}
