//! Fixed source form of FORTRAN 77 (ANSI X3.9-1978, section 3): lines are read into cards, and cards are written as
//! lines. The crate can be used by itself:
//!
//!     let cards = read_form(alloc, b"   10 k = k +\n     &  1\n")?;   // one card: label 10, text K=K+1, line 1
//!     let text = write_form(alloc, cards.as_slice())?;                 // "   10 K=K+1\n"
#![tactic(auto)]

mod card;
mod fault;
pub mod law;
mod line;
mod read;
mod reader;
mod statement;
mod write;

pub use card::Card;
pub use fault::FormFault;
pub use read::read_form;
pub use write::write_form;
