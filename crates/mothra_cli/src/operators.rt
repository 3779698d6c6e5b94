//! The operators that `--ops` names.

ghost use Rattle.std.specs.Prelude.{◌≡◌, IfOk, Some};
ghost use Rattle.mothra_codes.specs.Op.{all_ops};
ghost use Rattle.mothra_cli.specs.Operators.{operators_of};

use mothra_codes::Op;
use std::alloc::{AllocError, Global};
use std::marker::Model;

/// The operators that the words name, in the order of the words. One may occur twice.
#[derive(Debug, Drop)]
pub struct Operators {
    list: Vec<Op>,
}

impl Model for Operators {
    ghost use Rattle.std.specs.Prelude.{List};
    ghost use Rattle.mothra_codes.specs.declared.op.Op.{Op};

    ghost Value = { List Op };

    ghost view = { λ o. o.list.items };
}

impl Operators {
    /// All operators, in the order of their codes.
    pub(crate) fn all(alloc: Global) -> Result<Operators, AllocError>
        ensures { IfOk result (λ operators. operators ≡ all_ops) }
    {
        Ok(Operators {
            list: Op::ALL.to_vec(alloc)?,
        })
    }

    /// The operators whose codes stand in the text, joined by commas. None where a piece between commas is no code.
    pub(crate) fn named(alloc: Global, text: &str) -> Result<Option<Operators>, AllocError>
        ensures { IfOk result (λ operators. operators ≡ operators_of text.now) }
    {
        let mut list = Vec::new(alloc);
        for code in text.split(',') {
            let Some(op) = Op::of(code) else {
                return Ok(None);
            };
            list.push(op)?;
        }
        Ok(Some(Operators { list }))
    }

    /// The operators as a slice. The call takes no memory.
    pub fn as_slice(&self) -> &[Op]
        ensures { result.now ≡ self.now }
    {
        self.list.as_slice()
    }
}
