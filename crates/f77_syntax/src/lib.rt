//! Statements and programs read from the texts of cards, and that there is one reading. The crate `f77_tree` says what
//! statements are.
//!
//! Cards are read as a program, and it is printed with the parentheses that it needs:
//!
//!     let cards = read_form(alloc, b"      subroutine a ( i , k )\n   10 k = (i) - (i - k)\n      end\n")?;
//!     let program = parse(alloc, cards.as_slice())?;   // three lines
//!     let text = print(alloc, &program)?;              // "      SUBROUTINE A(I,K)\n   10 K=I-(I-K)\n      END\n"
#![tactic(auto)]

mod classification;
mod data;
mod declaration;
mod expression;
mod fault;
mod joined;
mod label;
pub mod law;
mod parsing;
mod printing;
mod scan;
mod statement;

pub use f77_program::{Group, Line, Program, SyntaxFault, print_stmt};
pub use f77_tree::{
    Constant, DataGroup, Decl, Expr, Intrinsic, Kind, Name, Node, Operator, Ref, Shared, Sign,
    Stmt, Value,
};
pub use parsing::parse;
pub use printing::print;
