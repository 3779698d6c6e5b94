//! Swapping a value of DATA. The names of DATA are passed by.

ghost use Rattle.std.specs.Prelude.{map};
ghost use Rattle.f77_tree.specs.{data_group_of, replacement_of, group_sites, list_sites, value_sites};
ghost use Rattle.f77_tree.specs.code.{Sought};

use crate::replacement::Replacement;
use crate::swapping_node::swap_value;
use crate::{DataGroup, Value};

fn swap_values(values: &mut [Value], number: &mut usize, node: &mut Replacement) -> bool
    ensures { Sought (list_sites value_sites) result number.old number.new
        (replacement_of node.old) (replacement_of node.new) values.old values.new }
{
    for value in values.iter_mut() {
        if swap_value(value, number, node) {
            return true;
        }
    }
    false
}

fn swap_group(group: &mut DataGroup, number: &mut usize, node: &mut Replacement) -> bool
    ensures { Sought group_sites result number.old number.new
        (replacement_of node.old) (replacement_of node.new)
        (data_group_of group.old) (data_group_of group.new) }
{
    *number = number.saturating_sub(group.names.len());
    swap_values(&mut group.values, number, node)
}

pub fn swap_groups(groups: &mut [DataGroup], number: &mut usize, node: &mut Replacement) -> bool
    ensures { Sought (list_sites group_sites) result number.old number.new
        (replacement_of node.old) (replacement_of node.new)
        (map data_group_of groups.old) (map data_group_of groups.new) }
{
    for group in groups.iter_mut() {
        if swap_group(group, number, node) {
            return true;
        }
    }
    false
}
