//! The 22 operators, their codes and their order.

ghost use Rattle.std.specs.Prelude.{◌≡◌, ◌<◌, IfSome};
ghost use Rattle.mothra_codes.specs.Op.{index, code_of};

/// An operator of Mothra (King and Offutt 1991, "A Fortran Language System for Mutation-Based
/// Software Testing"). The variants stand in the alphabetical order of their codes, which is the
/// order of every list of operators.
#[derive(Clone, Copy, PartialEq, Eq, Hash, Debug, Drop)]
pub enum Op {
    /// Array reference for array reference.
    Aar,
    /// Absolute value insertion.
    Abs,
    /// Array reference for constant.
    Acr,
    /// Arithmetic operator replacement.
    Aor,
    /// Array reference for scalar variable.
    Asr,
    /// Constant for array reference.
    Car,
    /// Comparable array name replacement.
    Cnr,
    /// Constant replacement.
    Crp,
    /// Constant for scalar variable.
    Csr,
    /// DO statement end replacement.
    Der,
    /// DATA statement alterations.
    Dsa,
    /// GO TO label replacement.
    Glr,
    /// Logical connector replacement.
    Lcr,
    /// Relational operator replacement.
    Ror,
    /// RETURN statement replacement.
    Rsr,
    /// Statement analysis: a trap in place of the statement.
    San,
    /// Scalar variable for array reference.
    Sar,
    /// Scalar for constant.
    Scr,
    /// Statement deletion.
    Sdl,
    /// Source constant replacement.
    Src,
    /// Scalar variable replacement.
    Svr,
    /// Unary operator insertion.
    Uoi,
}

impl Op {
    /// All operators in their order.
    pub const ALL: [Op; 22] = [
        Op::Aar,
        Op::Abs,
        Op::Acr,
        Op::Aor,
        Op::Asr,
        Op::Car,
        Op::Cnr,
        Op::Crp,
        Op::Csr,
        Op::Der,
        Op::Dsa,
        Op::Glr,
        Op::Lcr,
        Op::Ror,
        Op::Rsr,
        Op::San,
        Op::Sar,
        Op::Scr,
        Op::Sdl,
        Op::Src,
        Op::Svr,
        Op::Uoi,
    ];

    /// The operator's place in `ALL`, from 0.
    pub fn index(self) -> usize
        ensures value { result ≡ index self }
        ensures below { result < 22 }
    {
        self as usize
    }

    /// The operator's code: three upper-case letters.
    pub fn code(self) -> &'static str
        ensures { result.now ≡ code_of self }
    {
        match self {
            Op::Aar => "AAR",
            Op::Abs => "ABS",
            Op::Acr => "ACR",
            Op::Aor => "AOR",
            Op::Asr => "ASR",
            Op::Car => "CAR",
            Op::Cnr => "CNR",
            Op::Crp => "CRP",
            Op::Csr => "CSR",
            Op::Der => "DER",
            Op::Dsa => "DSA",
            Op::Glr => "GLR",
            Op::Lcr => "LCR",
            Op::Ror => "ROR",
            Op::Rsr => "RSR",
            Op::San => "SAN",
            Op::Sar => "SAR",
            Op::Scr => "SCR",
            Op::Sdl => "SDL",
            Op::Src => "SRC",
            Op::Svr => "SVR",
            Op::Uoi => "UOI",
        }
    }

    /// The operator with this code, letter by letter. Lower case and blanks are no part of a code.
    pub fn of(text: &str) -> Option<Op>
        ensures known { (op : Op) → text.now ≡ code_of op → result ≡ Some op }
        // An operator is found for its own code alone, so any other text gives `None`.
        ensures only { IfSome result (λ op. text.now ≡ code_of op) }
    {
        Op::ALL.iter().copied().find(|op| op.code() == text)
    }
}
