//! Laws of the code of every program.

ghost use Rattle.f77_code.specs.Twins.{TimesOfTwins, TwinsEqual};
ghost use Rattle.f77_code.specs.{LeavesBehind, MoreRegisters, WritesSlots, BlocksSimulated, CodeComesBack};
ghost use Rattle.f77_code.specs.{MovesSimulated, Alongside, MakesStep, NeverDiverge, DivergeAt};

/// A step of the code is a step of the machine over slots, and many steps of the code are as many of the machine.
#[tactic(auto, using(crate::proofs::Simulation::moves_simulated, crate::proofs::Sequences::blocks_simulated))]
pub fn moves_simulated()
    ensures moves { MovesSimulated }
    ensures blocks { BlocksSimulated }
{}

/// Code that comes back to a state in which it was never ends.
pub fn comes_back()
    ensures { CodeComesBack }
{}

/// Registers behind those that code names make no difference to what it does, and registers that it does not write keep
/// their values.
pub fn more_registers()
    ensures more { MoreRegisters }
    ensures behind { LeavesBehind }
    ensures slots { WritesSlots }
{}

/// Code with one instruction replaced comes to what the code of the program comes to, as long as it makes the same
/// step there. Where it makes another step, its run may begin with that step.
pub fn codes_go_together()
    ensures alongside { Alongside }
    ensures never { NeverDiverge }
    ensures at { DivergeAt }
    ensures step { MakesStep }
{}

/// Two codes of one program do the same, even with constants in other registers.
pub fn twins_do_the_same()
    ensures equal { TwinsEqual }
    ensures times { TimesOfTwins }
{}
