//! Numbers made by chance: a linear congruential generator, so a seed gives the same numbers in each run.

#[derive(Drop)]
pub(crate) struct Chance {
    state: u64,
    /// Whether the program that is made is to fail often.
    bold: bool,
}

impl Chance {
    /// A generator with this seed. Every fourth one is bold.
    pub(crate) fn new(seed: u64) -> Chance {
        Chance {
            state: seed.wrapping_mul(0x9e37_79b9_7f4a_7c15),
            bold: seed % 4 == 0,
        }
    }

    /// A number below `n`, or 0 where `n` is 0.
    pub(crate) fn below(&mut self, n: usize) -> usize {
        self.state = self
            .state
            .wrapping_mul(6_364_136_223_846_793_005)
            .wrapping_add(1_442_695_040_888_963_407);
        let number = (self.state >> 33) as usize;
        number.checked_rem(n).unwrap_or(0)
    }

    /// One of the texts with `|` between them. Where ` ! ` stands among them, the texts before it are used; a bold
    /// generator uses those behind it half of the time.
    pub(crate) fn word(&mut self, texts: &'static str) -> &'static str {
        let is_bold = self.bold && self.below(2) == 0;
        let texts = match texts.split_once(" ! ") {
            Some((_, bold)) if is_bold => bold,
            Some((most, _)) => most,
            None => texts,
        };
        let number = self.below(texts.split('|').count());
        texts.split('|').nth(number).unwrap_or("")
    }
}
