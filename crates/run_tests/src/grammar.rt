//! Texts made by chance from a grammar: each small letter of a text stands for one of some texts.

use crate::chance::Chance;
use std::alloc::{AllocError, Global};

// Each row has a letter and the texts for which it stands, and behind ` ! ` those of bold programs. e is a value, c a
// condition, s a statement that may stand in a logical IF, g, h and j are the parameters of a DO, l is a label, p the
// values of DATA, y and z are arguments. `@` stands for the label of a DO.
const RULES: &str = "
a MA(i)|MB(i,i)
b o+o|o+o|o-o|o-o|o*d|o/d|MOD(o,d)|o**d|n**d|-o
c q|q|q|q|q|qkq|qkq|.NOT.(qkq)
d 1|2|3|(-2)|5|2|K|N ! 0|(-1)|K|I|M|2147483647|31
e t|t|t|t|t|(t)+(b)|(t)-(b)|(b)*(t)
f IABS(b)|MIN0(b,o,3)|MAX0(b,o)|MAX0(-2,o,b)
g 1|1|0|3|5|-2|K|N ! 2147483645|2147483647|M|MA(1)
h 3|4|1|0|-3|2|N|K ! 2147483645|2147483647|M|MA(1)
i 1|2|1|2|IABS(MOD(K,2))+1|MIN0(2,MAX0(1,J))|2|I ! 0|5|K|M|I+1|-1|MA(1)|N/K
j |||,1|,2|,-1|,-2|,M ! ,0|,K|,0|,2147483647
k .AND.|.OR.|.EQV.|.NEQV.
l 901|902|902|903|903|999|@|@|@|@
n 0|1|2|3|4|5|7|(-1)|(-3)|10 ! 2147483647|0|46341|(-2147483647-1)
o n|n|x|x|a
p I,J,L,M,X/2*1,2,-1,0/,Q/.FALSE./,R/.TRUE./,MB/6*3/ ! M,Q/3,.TRUE./|M,Q,X,I,J,MB/3,.TRUE.,3*0,6*-5/
q tro|tro|tro|tro|tro|u|u
r .LT.|.LE.|.EQ.|.NE.|.GE.|.GT.
s v=e|v=e|v=e|v=e|a=e|a=e|w=c|w=c|w=c|GO TO l|IF (e) l,l,l|GO TO (l,l,l),e|GO TO (l,l),K|CONTINUE|RETURN|STOP
t o|o|o|o|b|b|b|f
u P|Q|.TRUE.|.FALSE.|.NOT.P|.NOT.Q|LA(2) ! R|LA(K)|.NOT.LA(I)|LA(4)
v K|N|M|X|K
w P|Q|R|LA(1)|LA(3)|LA(2)
x I|J|L|K|N|M|X|K|N
y 0|1|2|3|4|-1|5|7|10 ! -3|2147483647|-2147483648|0
z true|false
";

/// The texts for which a letter stands.
fn texts_for(letter: char) -> &'static str {
    for rule in RULES.lines() {
        match rule.split_once(' ') {
            Some((name, texts)) if name.starts_with(letter) => return texts,
            _ => {}
        }
    }
    ""
}

/// The text with each letter replaced once, and with the label for `@`.
pub(crate) fn replaced(
    alloc: Global,
    chance: &mut Chance,
    text: &str,
    label: u32,
) -> Result<String, AllocError> {
    let mut made = String::new(alloc);
    for letter in text.chars() {
        match letter {
            '@' => write!(made, "{label}")?,
            'a'..='z' => made.push_str(chance.word(texts_for(letter)))?,
            _ => made.push(letter)?,
        }
    }
    Ok(made)
}

/// The text without letters. Ten rounds are enough: no letter stands for a text of more levels.
pub(crate) fn expanded(
    alloc: Global,
    chance: &mut Chance,
    text: &str,
    label: u32,
) -> Result<String, AllocError> {
    let mut made = String::from_str(alloc, text)?;
    for _ in 0..10 {
        made = replaced(alloc, chance, made.as_str(), label)?;
    }
    Ok(made)
}
