//! Swapping a node that has no parts: a label, a name or a value of DATA.

ghost use Rattle.std.specs.Prelude.{◌≡◌, ◌-◌, ◌↔◌, IsTrue};
ghost use Rattle.f77_tree.specs.{replacement_of, label_sites, name_sites, value_sites};
ghost use Rattle.f77_tree.specs.code.{Sought};

use crate::replacement::Replacement;
use crate::{Name, Value};
use std::mem;

/// Whether the next node is the one that is looked for. The number falls by 1.
#[inline]
pub fn is_next(number: &mut usize) -> bool
    ensures decided { IsTrue result ↔ number.old ≡ 1 }
    ensures counted { number.new ≡ number.old - 1 }
{
    let next = *number == 1;
    *number = number.saturating_sub(1);
    next
}

pub fn swap_label(label: &mut u32, number: &mut usize, node: &mut Replacement) -> bool
    ensures { Sought label_sites result number.old number.new
        (replacement_of node.old) (replacement_of node.new) label.old label.new }
{
    if !is_next(number) {
        return false;
    }
    match node {
        Replacement::Label(new) => {
            mem::swap(label, new);
            true
        }
        _ => false,
    }
}

pub fn swap_name(name: &mut Name, number: &mut usize, node: &mut Replacement) -> bool
    ensures { Sought name_sites result number.old number.new
        (replacement_of node.old) (replacement_of node.new) name.old name.new }
{
    if !is_next(number) {
        return false;
    }
    match node {
        Replacement::Name(new) => {
            mem::swap(name, new);
            true
        }
        _ => false,
    }
}

pub fn swap_value(value: &mut Value, number: &mut usize, node: &mut Replacement) -> bool
    ensures { Sought value_sites result number.old number.new
        (replacement_of node.old) (replacement_of node.new) value.old value.new }
{
    if !is_next(number) {
        return false;
    }
    match node {
        Replacement::Value(new) => {
            mem::swap(value, new);
            true
        }
        _ => false,
    }
}
