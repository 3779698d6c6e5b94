//! Names: letters and digits, kept in seven characters.

ghost use Rattle.std.specs.Prelude.{◌≡◌, ◌&&◌, List, [], ◌∷◌, ℕ, Some, None, if◌then◌else◌, true};
ghost use Rattle.std.specs.List.{list_all};
ghost use Rattle.std.specs.Str.{bytes_eq};
ghost use Rattle.std.specs.Cmp.Lexicographic.{nat_list_eq_equiv};
ghost use Rattle.std.specs.Cmp.{partial_equiv_from_equiv};
ghost use Rattle.std.specs.Cmp.Rules.{hashing};
ghost use Rattle.std.proofs.Common.{rules};
ghost use Rattle.f77_tree.specs.Grammar as grammar;
ghost use Rattle.f77_tree.specs.Name.{cut, is_short, is_symbolic, padded};

use crate::characters::{is_name, split_word};
use std::fmt::{self, Debug, Display, Formatter};
use std::hash::{Hash, Hasher};
use std::marker::Model;
use std::str;

/// The most characters of a name (ANSI X3.9-1978, 2.2).
pub const LONGEST_NAME: usize = 6;

/// The number of characters that are kept. The last of them shows that a name is too long.
const KEPT: usize = LONGEST_NAME + 1;

/// A symbolic name (ANSI X3.9-1978, 2.2): 1 to 6 letters and digits, the first of them a letter. Or it is the first
/// seven characters of a longer name, which no program has.
///
/// The characters lie in the value itself, so a copy takes no memory.
#[derive(Clone, Copy, Drop)]
pub struct Name {
    /// The characters of the name, and blanks behind them.
    letters: [u8; KEPT],
}

impl Model for Name {
    ghost use Rattle.std.specs.Prelude.{List, ℕ};
    ghost use Rattle.std.proofs.Common.{ap, sym};
    ghost use Rattle.f77_tree.specs.Grammar.{word};
    ghost use Rattle.f77_tree.specs.Name.{padded, IsPadded};

    ghost Value = { List ℕ };

    ghost view = { λ n. word n.letters };

    ghost invariant = { λ n. IsPadded n.letters };

    ghost inverse = { λ name. record { letters = padded name } };

    ghost inverse_ok = { λ n h. ap (λ z. record { letters = z }) (sym h.padding) };
}

/// Whether two names have the same characters. A loop is quick, since most names differ in one of the first.
fn are_same(one: &[u8; KEPT], other: &[u8; KEPT]) -> bool
    ensures { result ≡ bytes_eq one.now other.now }
{
    for place in 0..KEPT {
        if one[place] != other[place] {
            return false;
        }
    }
    true
}

impl PartialEq for Name {
    ghost eq = { bytes_eq };

    ghost laws = { partial_equiv_from_equiv nat_list_eq_equiv };

    fn eq(&self, other: &Name) -> bool {
        are_same(&self.letters, &other.letters)
    }
}

impl Eq for Name {
    ghost laws = { nat_list_eq_equiv };
}

impl Hash for Name {
    ghost hash_input = { λ name. padded name ∷ [] };

    ghost respects_eq = { Prim.search (hashing, rules) };

    fn hash<H: Hasher>(&self, state: &mut H) {
        state.write(&self.letters);
    }
}

/// A name is shown as a text in quotes.
impl Debug for Name {
    fn fmt<W: fmt::Write>(&self, f: &mut Formatter<W>) -> fmt::Result {
        Debug::fmt(&self.as_str(), f)
    }
}

impl Display for Name {
    ghost output = { λ name. Some name };

    fn fmt<W: fmt::Write>(&self, f: &mut Formatter<W>) -> fmt::Result {
        f.write_str(self.as_str())
    }
}

impl Name {
    /// The name that consists of the first seven of these letters and digits. It takes no memory.
    pub fn beginning(letters: &[u8]) -> Name
        requires { grammar.is_name letters.now ≡ true }
        ensures { result ≡ cut letters.now }
    {
        let front = &letters[..letters.len().min(KEPT)];
        let mut field = [b' '; KEPT];
        field[..front.len()].copy_from_slice(front);
        Name { letters: field }
    }

    /// The name of these characters, if they are 1 to 6 letters and digits and the first is a letter. It takes no
    /// memory.
    pub fn new(letters: &str) -> Option<Name>
        ensures { result ≡ (if grammar.is_name letters.now && is_short letters.now then Some letters.now else None) }
    {
        if !is_name(letters.as_bytes()) || letters.len() > LONGEST_NAME {
            return None;
        }
        Some(Name::beginning(letters.as_bytes()))
    }

    /// The letters and digits of the name.
    pub fn as_str(&self) -> &str
        ensures letters { result.now ≡ self.now }
        ensures name { grammar.is_name self.now ≡ true }
    {
        let (letters, _) = split_word(&self.letters);
        match str::from_utf8(letters) {
            Ok(text) => text,
            Err(_) => unreachable!(),
        }
    }

    /// Whether the name has at most six characters. It takes no memory.
    pub fn is_short(&self) -> bool
        ensures short { result ≡ is_short self.now }
        ensures name { grammar.is_name self.now ≡ true }
    {
        self.letters[LONGEST_NAME] == b' '
    }
}

/// Whether each of the names has at most six characters. It takes no memory.
pub fn are_short(names: &[Name]) -> bool
    ensures { result ≡ list_all is_symbolic names.now }
{
    names.iter().all(|name| name.is_short())
}
