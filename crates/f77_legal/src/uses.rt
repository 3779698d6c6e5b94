//! What the statements of a program say of its names, noted in the table of names.

ghost use Rattle.std.specs.Prelude.{◌≡◌, List, ℕ, None, map, OnOk};
ghost use Rattle.std.specs.Str.{bytes_eq};
ghost use Rattle.indexmap.specs.IndexMap.{get};
ghost use Rattle.f77_tree.specs.Declaration.{decl_of};
ghost use Rattle.f77_tree.specs.Node.{names_of};
ghost use Rattle.f77_tree.specs.Statement.{statement_of};
ghost use Rattle.f77_legal.specs.{NameUse, uses_of, facts_fields, table_entries};
ghost use Rattle.f77_legal.specs.code.{once_more, first_said, with_kind, with_shape, facts_with_bounds, with_fact};
ghost use Rattle.f77_legal.specs.code.{no_facts, with_use, with_uses, use_of};

use crate::names::{Facts, Names, Times};
use f77_tree::{Decl, Kind, Name, Stmt, nodes};
use std::alloc::{AllocError, Global};

/// What a statement says of a name.
#[derive(Clone, Copy, Drop)]
pub(crate) enum Said<'a> {
    /// The name is a dummy argument (15.9.1).
    Dummy,
    /// The name has this kind, and these bounds if it is an array (8.4).
    Typed(Kind, &'a [u32]),
    /// The name has these bounds (8.1).
    Dimensioned(&'a [u32]),
    /// The name occurs, and no more is said of it.
    Plain,
}

impl Times {
    fn next(self) -> Times
        ensures { result ≡ once_more self }
    {
        match self {
            Times::Never => Times::Once,
            _ => Times::More,
        }
    }
}

impl Facts {
    fn none(alloc: Global) -> Facts
        ensures { facts_fields result ≡ no_facts }
    {
        Facts {
            dummy: Times::Never,
            typed: Times::Never,
            kind: Kind::Integer,
            dimensioned: Times::Never,
            bounds: Vec::new(alloc),
        }
    }

    fn note_kind(&mut self, kind: Kind)
        ensures { facts_fields self.new ≡ with_kind (facts_fields self.old) kind }
    {
        let before = self.typed;
        self.typed = before.next();
        if before.is_never() {
            self.kind = kind;
        }
    }

    #[tactic(auto, using(crate::proofs::Noting::bounds_given))]
    fn note_bounds(&mut self, alloc: Global, bounds: &[u32]) -> Result<(), AllocError>
        ensures { OnOk result (facts_fields self.new ≡ facts_with_bounds (facts_fields self.old) bounds.now) }
    {
        if bounds.is_empty() {
            return Ok(());
        }
        let before = self.dimensioned;
        self.dimensioned = before.next();
        if before.is_never() {
            self.bounds = Vec::from_slice(alloc, bounds)?;
        }
        Ok(())
    }

    fn note(&mut self, alloc: Global, said: Said) -> Result<(), AllocError>
        ensures { OnOk result
            ((name : List ℕ) → facts_fields self.new
            ≡ with_fact (facts_fields self.old) (use_of name said.entry)) }
    {
        match said {
            Said::Dummy => {
                self.dummy = self.dummy.next();
                Ok(())
            }
            Said::Typed(kind, bounds) => {
                self.note_kind(kind);
                self.note_bounds(alloc, bounds)
            }
            Said::Dimensioned(bounds) => self.note_bounds(alloc, bounds),
            Said::Plain => Ok(()),
        }
    }
}

impl Names {
    fn add(&mut self, alloc: Global, name: &Name, said: Said) -> Result<(), AllocError>
        ensures { get bytes_eq self.old.facts name.now ≡ None
            → OnOk result
            (table_entries self.new
            ≡ with_use (table_entries self.old) (use_of name.now said.entry)) }
    {
        let mut facts = Facts::none(alloc);
        facts.note(alloc, said)?;
        self.facts.insert(*name, facts)?;
        Ok(())
    }

    fn note(&mut self, alloc: Global, name: &Name, said: Said) -> Result<(), AllocError>
        ensures { OnOk result
            (table_entries self.new
            ≡ with_use (table_entries self.old) (use_of name.now said.entry)) }
    {
        match self.facts.get_mut(name) {
            Some(facts) => facts.note(alloc, said),
            None => self.add(alloc, name, said),
        }
    }

    /// Notes that the names of a statement occur.
    fn note_names(&mut self, alloc: Global, stmt: &Stmt) -> Result<(), AllocError>
        ensures { OnOk result
            (table_entries self.new
            ≡ with_uses (table_entries self.old)
            (map NameUse.Plain (names_of (statement_of stmt.now)))) }
    {
        for node in &nodes(alloc, stmt)? {
            if let Some(name) = node.name() {
                self.note(alloc, name, Said::Plain)?;
            }
        }
        Ok(())
    }

    fn note_dummies(&mut self, alloc: Global, names: &[Name]) -> Result<(), AllocError>
        ensures { OnOk result
            (table_entries self.new
            ≡ with_uses (table_entries self.old) (map NameUse.Dummy names.now)) }
    {
        for name in names {
            self.note(alloc, name, Said::Dummy)?;
        }
        Ok(())
    }

    fn note_typed(&mut self, alloc: Global, kind: Kind, items: &[Decl]) -> Result<(), AllocError>
        ensures { OnOk result (table_entries self.new
            ≡ with_uses (table_entries self.old)
            (map (NameUse.Typed kind) (map decl_of items.now))) }
    {
        for item in items {
            self.note(alloc, &item.name, Said::Typed(kind, &item.bounds))?;
        }
        Ok(())
    }

    fn note_dimensioned(&mut self, alloc: Global, items: &[Decl]) -> Result<(), AllocError>
        ensures { OnOk result (table_entries self.new
            ≡ with_uses (table_entries self.old)
            (map NameUse.Dimensioned (map decl_of items.now))) }
    {
        for item in items {
            self.note(alloc, &item.name, Said::Dimensioned(&item.bounds))?;
        }
        Ok(())
    }

    /// Notes what a statement says of its names.
    #[tactic(auto, using(crate::proofs::Forms::plain_uses))]
    pub(crate) fn note_statement(&mut self, alloc: Global, stmt: &Stmt) -> Result<(), AllocError>
        ensures { OnOk result
            (table_entries self.new
            ≡ with_uses (table_entries self.old) (uses_of (statement_of stmt.now))) }
    {
        match stmt {
            Stmt::Subroutine { arguments, .. } => self.note_dummies(alloc, arguments),
            Stmt::Declare { kind, items } => self.note_typed(alloc, *kind, items),
            Stmt::Dimension { items } => self.note_dimensioned(alloc, items),
            _ => self.note_names(alloc, stmt),
        }
    }
}
