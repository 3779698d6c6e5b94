//! Groups of initial values: whether some text spells them, and how they are written.

ghost use Rattle.std.specs.Prelude.{◌≡◌, ◌++◌, true, map, codes, OnOk, string_bytes};
ghost use Rattle.std.specs.List.{list_all};
ghost use Rattle.f77_tree.specs.Data.{data_group_of};
ghost use Rattle.f77_tree.specs.Joined.{separated};
ghost use Rattle.f77_tree.specs.code.Joined.{some_all};
ghost use Rattle.f77_tree.specs.Name.{is_symbolic};
ghost use Rattle.f77_program.specs.Data as initial;
ghost use Rattle.f77_program.specs.code.Data as initial_code;

use crate::joined::{print_joined, print_names};
use f77_tree::{Constant, DataGroup, Name, Value, are_short};
use std::alloc::AllocError;

#[tactic(auto, using(crate::proofs::JoinedForms::some_here, crate::proofs::JoinedForms::none_here))]
fn are_names(names: &[Name]) -> bool
    ensures { result ≡ some_all is_symbolic names.now }
{
    !names.is_empty() && are_short(names)
}

#[tactic(auto, using(crate::proofs::DataForms::some_values))]
fn are_values(values: &[Value]) -> bool
    ensures { result ≡ some_all initial_code.any_value values.now }
{
    !values.is_empty()
}

fn is_group(group: &DataGroup) -> bool
    ensures { result ≡ initial_code.is_group is_symbolic (data_group_of group.now) }
{
    are_names(&group.names) && are_values(&group.values)
}

fn are_groups(groups: &[DataGroup]) -> bool
    ensures { result ≡ list_all (initial_code.is_group is_symbolic) (map data_group_of groups.now) }
{
    for group in groups {
        if !is_group(group) {
            return false;
        }
    }
    true
}

/// Whether some text spells the groups, where repeats and constants may have any size, and each name has at most six
/// characters.
#[tactic(auto, using(crate::proofs::JoinedForms::some_seen, crate::proofs::JoinedForms::none_seen))]
pub(crate) fn data_formed(groups: &[DataGroup]) -> bool
    ensures { result ≡ initial_code.data_formed is_symbolic (map data_group_of groups.now) }
{
    !groups.is_empty() && are_groups(groups)
}

fn print_constant(out: &mut String, constant: Constant) -> Result<(), AllocError>
    ensures { OnOk result (string_bytes out.new ≡ string_bytes out.old ++ initial.constant_text constant) }
{
    match constant {
        Constant::Number(number) => write!(out, "{number}"),
        Constant::Truth(true) => out.push_str(".TRUE."),
        Constant::Truth(false) => out.push_str(".FALSE."),
    }
}

/// Writes a value, with its repeat where that is not 1.
fn print_value(out: &mut String, value: &Value) -> Result<(), AllocError>
    ensures { OnOk result (string_bytes out.new ≡ string_bytes out.old ++ initial.value_text value.now) }
{
    if value.times == 1 {
        return print_constant(out, value.constant);
    }
    write!(out, "{}*", value.times)?;
    print_constant(out, value.constant)
}

/// Writes values: a slash before the first, and a comma before each other.
fn print_values(out: &mut String, values: &[Value]) -> Result<(), AllocError>
    ensures { OnOk result
        (string_bytes out.new ≡ string_bytes out.old ++ separated initial.value_text (codes "/") values.now) }
{
    print_joined(out, "/", values, print_value)
}

fn print_group(out: &mut String, group: &DataGroup) -> Result<(), AllocError>
    ensures { OnOk result
        (string_bytes out.new ≡ string_bytes out.old ++ initial.group_text (data_group_of group.now)) }
{
    print_names(out, "", &group.names)?;
    print_values(out, &group.values)?;
    out.push_str("/")
}

/// Writes groups of names and values, joined by commas, without blanks.
pub(crate) fn print_groups(out: &mut String, groups: &[DataGroup]) -> Result<(), AllocError>
    ensures { OnOk result
        (string_bytes out.new ≡ string_bytes out.old ++ initial.groups_text (map data_group_of groups.now)) }
{
    print_joined(out, "", groups, print_group)
}
