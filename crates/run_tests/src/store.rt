//! The values of names: each element has a value or none (`Store` of f77_meaning/specs/Value.antt).

use crate::unit::Halt;
use f77_run::Value;
use f77_tree::Name;
use std::alloc::Global;

/// A name with its elements. A variable has one; in an array the first subscript varies fastest (5.2.4).
#[derive(Drop)]
struct Held {
    name: Name,
    elements: Vec<Option<Value>>,
}

#[derive(Drop)]
pub(crate) struct Store {
    names: Vec<Held>,
}

impl Store {
    pub(crate) fn new(alloc: Global) -> Store {
        Store {
            names: Vec::new(alloc),
        }
    }

    /// Gives the name these elements, unless it has some.
    pub(crate) fn add(&mut self, name: &Name, elements: Vec<Option<Value>>) -> Result<(), Halt> {
        if self.elements(name).is_empty() {
            let name = *name;
            self.names.push(Held { name, elements })?;
        }
        Ok(())
    }

    /// All elements of a name.
    pub(crate) fn elements(&self, name: &Name) -> &[Option<Value>] {
        for held in &self.names {
            if held.name == *name {
                return &held.elements;
            }
        }
        &[]
    }

    /// The value of element `k`, counted from 0, if it has one.
    pub(crate) fn element(&self, name: &Name, k: usize) -> Option<Value> {
        match self.elements(name).get(k) {
            Some(value) => *value,
            None => None,
        }
    }

    /// `store_with` (f77_meaning/specs/Value.antt; 10.1): the element gets this value.
    pub(crate) fn put(&mut self, name: &Name, k: usize, value: Value) {
        for held in self.names.iter_mut() {
            if held.name == *name {
                if let Some(element) = held.elements.get_mut(k) {
                    *element = Some(value);
                }
            }
        }
    }
}
