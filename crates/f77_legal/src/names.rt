//! The table of names: each variable and array, with what the program says of it.

ghost use Rattle.std.specs.Prelude.{◌≡◌, ◌-◌, ◌^◌, ◌||◌, List, nat_lt, map, filter, sum, min};
ghost use Rattle.std.specs.Prelude.{slice_get, option_map, is_some, length, false, IfOk};
ghost use Rattle.std.specs.List.{find};
ghost use Rattle.std.specs.Map.Iter.{deref_pair};
ghost use Rattle.std.specs.Option.{option_copied, option_map_or};
ghost use Rattle.std.specs.Str.{bytes_eq};
ghost use Rattle.indexmap.specs.IndexMap.{get, index_of, values};
ghost use Rattle.f77_tree.specs.Intrinsic.{function_named};
ghost use Rattle.f77_program.specs.Program.{LineFields, line_of};
ghost use Rattle.f77_legal.specs.Names as named;
ghost use Rattle.f77_legal.specs.code.NameTable as table_code;
ghost use Rattle.f77_legal.specs.InitialValues as initial_values;
ghost use Rattle.f77_legal.specs.{is_array, symbols, is_real, is_twice, unit_name, IsNameTable, kind_at, array_bounds};
ghost use Rattle.f77_legal.specs.{facts_fields, entry_of, product};
ghost use Rattle.f77_legal.specs.code.{dummy_at};

use f77_program::Line;
use f77_tree::{Intrinsic, Kind, Name, Shared};
use indexmap::IndexMap;
use std::alloc::{AllocError, Global};

/// The most names of a table that is searched from its head: to compare a few names is quicker than to hash one.
const FEW: usize = 12;

/// How often something was said of a name. Clauses ask for none, one or more, so more is not counted.
#[derive(Clone, Copy, Debug, PartialEq, Eq)]
pub enum Times {
    Never,
    Once,
    More,
}

/// What the program says of a name.
#[derive(Drop)]
pub struct Facts {
    pub(crate) dummy: Times,
    pub(crate) typed: Times,
    pub(crate) kind: Kind,
    pub(crate) dimensioned: Times,
    pub(crate) bounds: Vec<u32>,
}

/// The names of a program in order of first appearance, dummy arguments first, each with what is said of it.
#[derive(Drop)]
pub struct Names {
    pub facts: IndexMap<Name, Facts>,
}

impl Times {
    pub(crate) fn is_never(self) -> bool
        ensures { result ≡ table_code.is_never self }
    {
        matches!(self, Times::Never)
    }

    fn is_more(self) -> bool
        ensures { result ≡ table_code.is_more self }
    {
        matches!(self, Times::More)
    }
}

/// Whether the first letter of the name is I to N (4.1.2).
fn is_integer_name(name: &Name) -> bool
    ensures { result ≡ named.is_integer_name name.now }
{
    match name.as_str().as_bytes() {
        [letter, ..] => b'I' <= *letter && *letter <= b'N',
        [] => false,
    }
}

fn is_real_entry(name: &Name, facts: &Facts) -> bool
    ensures { result ≡ table_code.is_real_entry (name.now, facts_fields facts.now) }
{
    facts.typed.is_never() && !is_integer_name(name)
}

fn is_taken(name: &Name, unit: Option<&Name>) -> bool
    ensures { result ≡ (option_map_or (bytes_eq name.now) (option_map (λ n. n.now) unit.entry) false
        || is_some (function_named name.now)) }
{
    unit.is_some_and(|own| name == own) || Intrinsic::named(name.as_str().as_bytes()).is_some()
}

fn is_twice_entry(name: &Name, facts: &Facts, unit: Option<&Name>) -> bool
    ensures { result ≡ table_code.is_twice_entry (option_map (λ n. n.now) unit.entry)
        (name.now, facts_fields facts.now) }
{
    facts.typed.is_more()
        || facts.dimensioned.is_more()
        || facts.dummy.is_more()
        || is_taken(name, unit)
}

/// The product of the bounds, or the largest `u64` if it is larger.
pub fn product(bounds: &[u32]) -> u64
    ensures { result ≡ min (initial_values.product bounds.now) (2 ^ 64 - 1) }
{
    let mut size: u64 = 1;
    for bound in bounds {
        size = size.saturating_mul(u64::from(*bound));
    }
    size
}

/// The number of elements of an array, and 0 for a variable.
fn array_size(facts: &Facts) -> u64
    ensures { result ≡ min (table_code.array_size (facts_fields facts.now)) (2 ^ 64 - 1) }
{
    if facts.bounds.is_empty() {
        return 0;
    }
    product(&facts.bounds)
}

impl Names {
    /// The table of the names of these lines. A changed program may keep the table of the program that it was made
    /// from, which may have names that it no longer has; no statement reads their slots.
    pub fn of(alloc: Global, lines: &[Shared<Line>]) -> Result<Names, AllocError>
        ensures table { IfOk result (λ names. IsNameTable names (map line_of lines.now)) }
    {
        let mut names = Names {
            facts: IndexMap::new(alloc),
        };
        for line in lines {
            names.note_statement(alloc, &line.stmt)?;
        }
        Ok(names)
    }

    /// The place of a name in the table, from 0.
    pub fn place(&self, name: &Name) -> Option<usize>
        ensures { result ≡ index_of bytes_eq self.now.facts name.now }
    {
        if self.facts.len() > FEW {
            return self.facts.get_index_of(name);
        }
        self.facts.keys().position(|own| name == own)
    }

    /// What the program says of a name; None where it is not in the table.
    pub(crate) fn said_of(&self, name: &Name) -> Option<&Facts>
        ensures { option_copied result ≡ get bytes_eq self.now.facts name.now }
    {
        match self.facts.get_index(self.place(name)?) {
            Some((_, facts)) => Some(facts),
            None => None,
        }
    }

    /// The kind of a name: INTEGER where no type statement gives one.
    pub fn kind(&self, name: &Name) -> Kind
        ensures { result ≡ kind_at self.now name.now }
    {
        self.said_of(name).map_or(Kind::Integer, |facts| facts.kind)
    }

    /// The bounds of a name: none for a variable.
    pub fn bounds(&self, name: &Name) -> &[u32]
        ensures { result.now ≡ array_bounds self.now name.now }
    {
        match self.said_of(name) {
            Some(facts) => &facts.bounds,
            None => &[],
        }
    }

    /// Whether the name is a dummy argument.
    pub(crate) fn is_dummy(&self, name: &Name) -> bool
        ensures { result ≡ dummy_at self.now name.now }
    {
        self.said_of(name)
            .is_some_and(|facts| !facts.dummy.is_never())
    }

    /// The number of names.
    pub(crate) fn len(&self) -> usize
        ensures { (program : List LineFields) → IsNameTable self.now program → result ≡ length (symbols program) }
    {
        self.facts.len()
    }

    /// The first name that is REAL by its first letter (4.1.2).
    pub(crate) fn first_real(&self) -> Option<&Name>
        ensures { (program : List LineFields) → IsNameTable self.now program
            → option_map (λ name. name.now) result ≡ slice_get (filter (is_real program) (symbols program)) 0 }
    {
        self.facts
            .iter()
            .find(|(name, facts)| is_real_entry(name, facts))
            .map(|(name, _)| name)
    }

    /// The first name that is typed, given bounds or a dummy argument twice, or that is also the name of the unit or of
    /// a function.
    pub(crate) fn first_twice(&self, unit: Option<&Name>) -> Option<&Name>
        ensures { (program : List LineFields)
            → IsNameTable self.now program → option_map (λ n. n.now) unit.entry ≡ unit_name program
            → option_map (λ name. name.now) result ≡ slice_get (filter (is_twice program) (symbols program)) 0 }
    {
        self.facts
            .iter()
            .find(|(name, facts)| is_twice_entry(name, facts, unit))
            .map(|(name, _)| name)
    }

    /// Whether all arrays together have more elements than `limit`.
    pub(crate) fn has_over(&self, limit: u32) -> bool
        ensures { (program : List LineFields) → IsNameTable self.now program
            → result
            ≡ nat_lt limit
            (sum (map (initial_values.element_count program)
            (filter (is_array program) (symbols program)))) }
    {
        let elements = self.facts.values().fold(
            0,
            |total: u64, facts| total.saturating_add(array_size(facts)),
        );
        elements > u64::from(limit)
    }
}
