//! Lists of values.

ghost use Rattle.std.specs.Prelude.{◌≡◌};
ghost use Rattle.std.specs.Cmp.Lexicographic.{pointwise, lists_equiv, lists_per};

use std::marker::Model;

/// Values in order: the elements of an array, the first subscript varying fastest (5.2.4); or a value for each dummy
/// argument.
#[derive(Debug, Drop)]
pub struct Values<T> {
    items: Vec<T>,
}

impl<T> Model for Values<T> {
    ghost use Rattle.std.specs.Prelude.{List};

    ghost Value = { List T };

    ghost view = { λ v. v.items.items };
}

impl<T> Values<T> {
    /// A list of these values. It takes no memory.
    pub fn new(items: Vec<T>) -> Values<T>
        ensures { result ≡ items.items }
    {
        Values { items }
    }

    /// The values in order. It takes no memory.
    pub fn as_slice(&self) -> &[T]
        ensures { result.now ≡ self.now }
    {
        &self.items
    }

    /// The values in order, as the list that they were made from. It takes no memory.
    pub fn into_vec(self) -> Vec<T>
        ensures { result.items ≡ self }
    {
        self.items
    }
}

impl<T: PartialEq> PartialEq for Values<T> {
    ghost eq = { pointwise T.eq };

    ghost laws = { lists_per T.laws };

    fn eq(&self, other: &Values<T>) -> bool {
        self.as_slice() == other.as_slice()
    }
}

impl<T: Eq> Eq for Values<T> {
    ghost laws = { lists_equiv T.Eq.laws };
}
