//! Atoms: numbers with a meaning.

ghost use Rattle.std.specs.Prelude.{◌≡◌, true, IfOk, IfSome};
ghost use Rattle.f77_terms.specs.{Valuation, FitsTable, IsOfAtomsBelow, IsOfEarlierAtoms, Numbers};
ghost use Rattle.f77_terms.specs.{key_value};

use crate::items::item_at;
use crate::terms::{Term, is_same_term};
use f77_tree::Shared;
use std::alloc::{AllocError, Global};

/// A function of two numbers.
#[derive(Clone, Copy, Debug, PartialEq, Eq)]
pub enum Function {
    /// The quotient, truncated toward zero.
    Quotient,
    /// What a division leaves.
    Remainder,
    Minimum,
    Product,
}

/// What an atom is.
#[derive(Debug, Drop)]
pub enum Key {
    /// The number that a slot holds.
    Slot(usize),
    /// The number that the slot holds which lies so far behind this one.
    Element(usize, Term),
    /// What a function makes of two numbers.
    Function(Function, Term, Term),
}

/// The atoms: the number of each is the place of its key.
#[derive(Debug, Drop)]
pub struct Table {
    pub keys: Vec<Shared<Key>>,
}

/// A table without atoms.
pub fn new_table(alloc: Global) -> Table
    ensures { (held : Numbers) (v : Valuation) → FitsTable held v result }
{
    let keys = Vec::new(alloc);
    Table { keys }
}

/// The term has atoms below this number alone.
fn is_within(term: &Term, n: usize) -> bool
    ensures { result ≡ true → IsOfAtomsBelow n term.now }
{
    term.parts.iter().all(|part| part.atom < n)
}

/// The terms of the key have atoms below this number alone.
pub fn is_in_order(key: &Key, n: usize) -> bool
    ensures { result ≡ true → IsOfEarlierAtoms n key.now }
{
    match key {
        Key::Slot(_) => true,
        Key::Element(_, index) => is_within(index, n),
        Key::Function(_, a, b) => is_within(a, n) && is_within(b, n),
    }
}

/// Both are the same key.
fn is_same_key(a: &Key, b: &Key) -> bool
    ensures { result ≡ true → (held : Numbers) (v : Valuation)
        → key_value held v a.now ≡ key_value held v b.now }
{
    match (a, b) {
        (Key::Slot(i), Key::Slot(j)) => *i == *j,
        (Key::Element(i, s), Key::Element(j, t)) => *i == *j && is_same_term(s, t),
        (Key::Function(f, s, t), Key::Function(g, x, y)) => {
            *f == *g && is_same_term(s, x) && is_same_term(t, y)
        }
        _ => false,
    }
}

/// The atom with a key, if there is one.
fn atom_with(table: &Table, key: &Key) -> Option<usize>
    ensures { IfSome result (λ atom. (held : Numbers) (v : Valuation) → FitsTable held v table.now
        → v atom ≡ key_value held v key.now) }
{
    let place = table.keys.iter().position(|other| is_same_key(other, key))?;
    is_in_order(&table.keys[place], place).then_some(place)
}

/// The atom with a key, which is made if there is none, unless a term of the key has atoms that are not of the table.
pub fn interned(table: &mut Table, key: Key) -> Result<Option<usize>, AllocError>
    ensures kept { (held : Numbers) (v : Valuation) → FitsTable held v table.new → FitsTable held v table.old }
    ensures made { IfOk result (λ made. IfSome made (λ atom. (held : Numbers) (v : Valuation)
        → FitsTable held v table.new → v atom ≡ key_value held v key)) }
{
    if let Some(atom) = atom_with(table, &key) {
        return Ok(Some(atom));
    }
    let atom = table.keys.len();
    if !is_in_order(&key, atom) {
        return Ok(None);
    }
    let shared = Shared::new(*table.keys.allocator(), key)?;
    table.keys.push(shared)?;
    Ok(Some(atom))
}

/// Whatever slots hold, there is a valuation that fits a table.
pub fn law_of_atoms(table: &Table)
    ensures { (held : Numbers) → (v : Valuation) × FitsTable held v table.now }
{}
