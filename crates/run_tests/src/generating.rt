//! Programs made by chance. DOs and blocks are opened and closed, and statements of each kind stand in them. Jumps lead
//! to the terminal statement of the innermost DO, or to statements outside of all. I, J and L are the variables of DOs.

use crate::chance::Chance;
use crate::grammar::{expanded, replaced};
use f77_source::Card;
use std::alloc::{AllocError, Global};

const HEADS: [&str; 3] = [
    "SUBROUTINE S(K,N,P,MA,LA); INTEGER X,MA(2),MB(2,3); LOGICAL P,Q,R,LA(3); DATA p",
    "SUBROUTINE S(K,N,P,MA,LA); INTEGER X; LOGICAL P,Q,R,LA(3); DIMENSION MA(3),MB(3,2); DATA p",
    "SUBROUTINE S(K,N,P,MA,LA); DIMENSION MB(2,3); LOGICAL LA(3),R,P,Q; INTEGER MA(4),X; DATA p",
];

const ARGUMENTS: [&str; 3] = [
    "y y z (y,y) (z,z,z)",
    "y y z (y,y,y) (z,z,z)",
    "y y z (y,y,y,y) (z,z,z)",
];

const STATEMENTS: &str =
    "IF (q) s|IF (q) s|IF (q) s|IF (c) s|v=e|v=e|v=e|v=e|a=e|a=e|w=c|CONTINUE|s";

const DOS: [&str; 3] = ["DO @ I=g,hj", "DO @ J=g,hj", "DO @ L=g,hj"];

const TERMINALS: &str = "CONTINUE|CONTINUE|CONTINUE|v=e|v=e|IF (q) s|GO TO (@,903),K";

/// A DO or a block that is open: a DO with the label of its terminal statement, a block with whether it had its ELSE.
#[derive(Clone, Copy, Drop)]
enum Open {
    Loop(u32),
    Block(bool),
}

#[derive(Drop)]
struct Draft {
    alloc: Global,
    chance: Chance,
    cards: Vec<Card>,
    open: Vec<Open>,
    last_label: u32,
}

impl Draft {
    fn add(&mut self, label: Option<u32>, text: &str) -> Result<(), AllocError> {
        let innermost = match self.open.last() {
            Some(Open::Loop(label)) => *label,
            _ => 903,
        };
        let text = expanded(self.alloc, &mut self.chance, text, innermost)?;
        self.cards.push(Card::new(label, text, 1))?;
        Ok(())
    }

    /// Begins a DO, if a variable is left for one. It may end where the innermost one does.
    fn begin_loop(&mut self) -> Result<(), AllocError> {
        let loops = self
            .open
            .iter()
            .filter(|open| matches!(open, Open::Loop(_)));
        let text = match DOS.get(loops.count()) {
            Some(text) => *text,
            None => return self.add(None, "CONTINUE"),
        };
        let label = match self.open.last() {
            Some(Open::Loop(label)) if self.chance.below(3) == 0 => *label,
            _ => self.last_label.saturating_add(10),
        };
        self.last_label = self.last_label.max(label);
        self.open.push(Open::Loop(label))?;
        self.add(None, text)
    }

    /// Ends what is innermost. All DOs with one terminal statement end together.
    fn end(&mut self) -> Result<(), AllocError> {
        match self.open.last().copied() {
            Some(Open::Loop(label)) => {
                let text = self.chance.word(TERMINALS);
                self.add(Some(label), text)?;
                self.open.retain(|open| !matches!(open, Open::Loop(other) if *other == label));
                Ok(())
            }
            Some(Open::Block(_)) => {
                let _ = self.open.pop();
                self.add(None, "END IF")
            }
            None => Ok(()),
        }
    }

    /// Ends what is innermost, or begins another branch of it.
    fn end_or_branch(&mut self) -> Result<(), AllocError> {
        match (self.open.last().copied(), self.chance.below(3)) {
            (Some(Open::Block(false)), 1) => self.add(None, "ELSE IF (c) THEN"),
            (Some(Open::Block(false)), 2) => {
                let _ = self.open.pop();
                self.open.push(Open::Block(true))?;
                self.add(None, "ELSE")
            }
            _ => self.end(),
        }
    }

    fn statement(&mut self) -> Result<(), AllocError> {
        match self.chance.below(100) {
            0..=14 => self.begin_loop(),
            15..=26 => {
                self.open.push(Open::Block(false))?;
                self.add(None, "IF (c) THEN")
            }
            27..=46 => self.end_or_branch(),
            _ => {
                let text = self.chance.word(STATEMENTS);
                self.add(None, text)
            }
        }
    }

    /// Adds `count` statements, and then ends all that is open.
    fn statements(&mut self, count: usize) -> Result<(), AllocError> {
        for _ in 0..count {
            self.statement()?;
        }
        self.end_all()
    }

    fn end_all(&mut self) -> Result<(), AllocError> {
        for _ in 0..self.open.len() {
            self.end()?;
        }
        Ok(())
    }

    fn head(&mut self, texts: &str) -> Result<(), AllocError> {
        for text in texts.split("; ") {
            self.add(None, text)?;
        }
        Ok(())
    }
}

/// The text for this seed.
fn of_seed(texts: &[&'static str; 3], seed: u64) -> &'static str {
    match texts.get((seed % 3) as usize) {
        Some(text) => *text,
        None => "",
    }
}

/// Values of the dummy arguments of a seed's program, as words.
pub(crate) fn arguments_text(
    alloc: Global,
    chance: &mut Chance,
    seed: u64,
) -> Result<String, AllocError> {
    replaced(alloc, chance, of_seed(&ARGUMENTS, seed), 0)
}

/// The cards of the program of a seed.
pub(crate) fn cards(alloc: Global, seed: u64) -> Result<Vec<Card>, AllocError> {
    let mut draft = Draft {
        alloc,
        chance: Chance::new(seed),
        cards: Vec::new(alloc),
        open: Vec::new(alloc),
        last_label: 0,
    };
    draft.head(of_seed(&HEADS, seed))?;
    draft.statements(3)?;
    draft.add(Some(901), "CONTINUE")?;
    draft.statements(12)?;
    draft.add(Some(902), "N=N+1")?;
    draft.statements(9)?;
    draft.add(Some(903), "K=K-1")?;
    draft.statements(2)?;
    draft.add(Some(999), "END")?;
    Ok(draft.cards)
}
