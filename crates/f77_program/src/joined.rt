//! Items written with commas between them.

ghost use Rattle.std.specs.Prelude.{◌≡◌, ◌++◌, List, ℕ, OnOk, codes, string_bytes};
ghost use Rattle.std.specs.Fmt.{decimal};
ghost use Rattle.f77_tree.specs.Joined.{separated};
ghost use Rattle.f77_program.specs.{enclosed_text, name_text, Writes};

use f77_tree::Name;
use std::alloc::AllocError;

/// Writes items by a function for one item: the text `opening` before the first, and a comma before each other.
pub(crate) fn print_joined<T, F: Fn(&mut String, &T) -> Result<(), AllocError>>(
    out: &mut String,
    opening: &str,
    items: &[T],
    print: F,
) -> Result<(), AllocError>
    requires { F.IsAlwaysCallable print }
    ensures { (text : T → List ℕ) → Writes (F.post print) text
        → OnOk result (string_bytes out.new ≡ string_bytes out.old ++ separated text opening.now items.now) }
{
    let mut before = opening;
    for item in items {
        out.push_str(before)?;
        print(out, item)?;
        before = ",";
    }
    Ok(())
}

/// Writes items between two texts, with commas between them, by a function for one item.
pub fn print_enclosed<T, F: Fn(&mut String, &T) -> Result<(), AllocError>>(
    out: &mut String,
    opening: &str,
    items: &[T],
    closing: &str,
    print: F,
) -> Result<(), AllocError>
    requires { F.IsAlwaysCallable print }
    ensures enclosed { (text : T → List ℕ) → Writes (F.post print) text → OnOk result
        (string_bytes out.new ≡ string_bytes out.old ++ enclosed_text opening.now text items.now closing.now) }
{
    out.push_str(opening)?;
    print_joined(out, "", items, print)?;
    out.push_str(closing)
}

fn print_name(out: &mut String, name: &Name) -> Result<(), AllocError>
    ensures { OnOk result (string_bytes out.new ≡ string_bytes out.old ++ name_text name.now) }
{
    out.push_str(name.as_str())
}

/// Writes names: the text `opening` before the first, and a comma before each other.
pub(crate) fn print_names(out: &mut String, opening: &str, names: &[Name]) -> Result<(), AllocError>
    ensures { OnOk result
        (string_bytes out.new ≡ string_bytes out.old ++ separated name_text opening.now names.now) }
{
    print_joined(out, opening, names, print_name)
}

fn print_number(out: &mut String, number: &u32) -> Result<(), AllocError>
    ensures { OnOk result (string_bytes out.new ≡ string_bytes out.old ++ decimal number.now) }
{
    write!(out, "{number}")
}

/// Writes numbers: a parenthesis before the first, and a comma before each other.
pub(crate) fn print_numbers(out: &mut String, numbers: &[u32]) -> Result<(), AllocError>
    ensures { OnOk result (string_bytes out.new ≡ string_bytes out.old ++ separated decimal (codes "(") numbers.now) }
{
    print_joined(out, "(", numbers, print_number)
}
