//! The faults of all calls that a command makes. Which faults of memory a command may answer
//! follows from its calls: `print` never answers C1, N1 or O1.

ghost use Rattle.std.specs.Prelude.{◌≡◌};
ghost use Rattle.mothra_app.specs.declared.fault.Fault.TheVariants as fault;

use f77_check::CheckFault;
use f77_meaning::RunFault;
use f77_source::FormFault;
use f77_syntax::SyntaxFault;
use mothra_bench::BenchFault;
use mothra_job::JobFault;
use mothra_ops::OpsFault;

/// Why a command has no report: the fault of the first call that failed.
#[derive(Debug, Drop)]
pub enum Fault {
    /// The job can not be read, or has no such test: J1 to J8.
    Job(JobFault),
    /// The source is no cards: F1 to F7.
    Form(FormFault),
    /// The cards are no program: S1 to S9.
    Syntax(SyntaxFault),
    /// The program is not legal: C1 to C14.
    Check(CheckFault),
    /// The arguments of a test do not fit: N1 to N3.
    Run(RunFault),
    /// The mutants can not be listed: O1 or O3.
    Ops(OpsFault),
    /// The tests or declarations do not suit the program, or the run broke off: B1 to B10.
    Bench(BenchFault),
}

impl From<JobFault> for Fault {
    ghost from_gives = { λ f e. e ≡ fault.Job f };

    fn from(fault: JobFault) -> Fault {
        Fault::Job(fault)
    }
}

impl From<FormFault> for Fault {
    ghost from_gives = { λ f e. e ≡ fault.Form f };

    fn from(fault: FormFault) -> Fault {
        Fault::Form(fault)
    }
}

impl From<SyntaxFault> for Fault {
    ghost from_gives = { λ f e. e ≡ fault.Syntax f };

    fn from(fault: SyntaxFault) -> Fault {
        Fault::Syntax(fault)
    }
}

impl From<CheckFault> for Fault {
    ghost from_gives = { λ f e. e ≡ fault.Check f };

    fn from(fault: CheckFault) -> Fault {
        Fault::Check(fault)
    }
}

impl From<RunFault> for Fault {
    ghost from_gives = { λ f e. e ≡ fault.Run f };

    fn from(fault: RunFault) -> Fault {
        Fault::Run(fault)
    }
}

impl From<OpsFault> for Fault {
    ghost from_gives = { λ f e. e ≡ fault.Ops f };

    fn from(fault: OpsFault) -> Fault {
        Fault::Ops(fault)
    }
}

impl From<BenchFault> for Fault {
    ghost from_gives = { λ f e. e ≡ fault.Bench f };

    fn from(fault: BenchFault) -> Fault {
        Fault::Bench(fault)
    }
}
