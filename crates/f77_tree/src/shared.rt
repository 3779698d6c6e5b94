//! Values with several owners.

ghost use Rattle.std.specs.Prelude.{◌≡◌, IfOk};
ghost use Rattle.std.specs.Arc.{arc_value};

use std::alloc::{AllocError, Global};
use std::fmt::{self, Debug, Formatter};
use std::marker::Model;
use std::ops::Deref;
use std::sync::Arc;

/// A value that several owners read. A copy takes no memory: it counts one owner more. Contracts see the value alone.
#[derive(Drop)]
pub struct Shared<T: Drop> {
    value: Arc<T>,
}

impl<T: Drop> Model for Shared<T> {
    ghost Value = { T };

    ghost view = { λ s. arc_value s.value };
}

impl<T: Drop> Shared<T> {
    /// The value, with one owner. It takes memory for the value.
    pub fn new(alloc: Global, value: T) -> Result<Shared<T>, AllocError>
        ensures { IfOk result (λ shared. shared ≡ value) }
    {
        Ok(Shared {
            value: Arc::new(alloc, value)?,
        })
    }
}

impl<T: Drop> Deref for Shared<T> {
    type Target = T;

    ghost deref_gives = { λ shared value. value ≡ shared };

    /// The value. It takes no memory.
    fn deref(&self) -> &T
        ensures { result.now ≡ self.now }
    {
        &self.value
    }
}

impl<T: Drop> Clone for Shared<T> {
    ghost is_clone = { λ source copy. copy ≡ source };

    fn clone(&self) -> Result<Shared<T>, AllocError> {
        Ok(Shared {
            value: Arc::try_clone(&self.value)?,
        })
    }
}

/// A shared value is shown as the value itself.
impl<T: Debug + Drop> Debug for Shared<T> {
    fn fmt<W: fmt::Write>(&self, f: &mut Formatter<W>) -> fmt::Result {
        self.value.fmt(f)
    }
}

impl<T: PartialEq + Drop> PartialEq for Shared<T> {
    ghost eq = { T.eq };

    ghost laws = { T.laws };

    fn eq(&self, other: &Shared<T>) -> bool {
        **self == **other
    }
}

impl<T: Eq + Drop> Eq for Shared<T> {
    ghost laws = { T.Eq.laws };
}
