//! The intrinsic functions of the subset (ANSI X3.9-1978, 15.10).

ghost use Rattle.std.specs.Prelude.{◌≡◌};
ghost use Rattle.f77_tree.specs.Intrinsic as functions;

/// An intrinsic function. Its arguments and its result are INTEGER.
#[derive(Clone, Copy, Debug, PartialEq, Eq)]
pub enum Intrinsic {
    /// The remainder of a division, with the sign of the first argument.
    Mod,
    /// The absolute value.
    Iabs,
    /// The least of two or more.
    Min0,
    /// The greatest of two or more.
    Max0,
}

impl Intrinsic {
    /// The name by which the function is called.
    pub fn name(self) -> &'static str
        ensures { result.now ≡ functions.function_name self }
    {
        match self {
            Intrinsic::Mod => "MOD",
            Intrinsic::Iabs => "IABS",
            Intrinsic::Min0 => "MIN0",
            Intrinsic::Max0 => "MAX0",
        }
    }

    /// The function of this name, if there is one.
    #[tactic(auto, unfolding(crate::specs::Intrinsic::function_named))]
    pub fn named(name: &[u8]) -> Option<Intrinsic>
        ensures { result ≡ functions.function_named name.now }
    {
        if name == Intrinsic::Mod.name().as_bytes() {
            return Some(Intrinsic::Mod);
        }
        if name == Intrinsic::Iabs.name().as_bytes() {
            return Some(Intrinsic::Iabs);
        }
        if name == Intrinsic::Min0.name().as_bytes() {
            return Some(Intrinsic::Min0);
        }
        if name == Intrinsic::Max0.name().as_bytes() {
            return Some(Intrinsic::Max0);
        }
        None
    }
}
