//! Reading the program that is to be proved.

ghost use Rattle.std.specs.Prelude.{◌≡◌, ◌≤◌, IfOk, IfErr, IsErrOf};
ghost use Rattle.run_io.specs.Causes.{Rose};
ghost use Rattle.rule_sets.specs.Refusals.{IsOver};
ghost use Rattle.file_elab.specs.ProgramViews.{program_of};
ghost use Rattle.file_elab.specs.Theorems.{AreFormed};
ghost use Rattle.aesop_session.specs.Answers.{TakesProgram};
ghost use Rattle.aesop_session.specs.Inputs.{IsNoProgram};

use crate::accepting::{Unserved, accepted};
use crate::refusal::Refusal;
use basics::limits::MOST_INPUT;
use file_elab::Program;
use run_io::{ReadEnd, Source, read_all};
use std::alloc::Global;

/// Why no program was read.
#[derive(Clone, Copy, Debug, PartialEq, Eq)]
pub(crate) enum NoProgram {
    /// The source failed.
    Fault,
    /// The source gave more bytes than may be.
    TooLong,
    /// The input is refused.
    Refused(Refusal),
    /// Memory ran out.
    NoMemory,
}

/// Reads the input to its end, and answers its program.
pub(crate) fn read_program<S: Source>(alloc: Global, source: &mut S) -> Result<Program, NoProgram>
    ensures takes { IfOk result (λ program. TakesProgram (S.left source.old) (S.left source.new) (program_of program)) }
    ensures theorems { IfOk result (λ program. AreFormed program.sig program.theorems) }
    ensures rules { IfOk result (λ program. IsOver program.sig program.rules) }
    ensures why { IfErr result (IsNoProgram (S.left source.old) (S.left source.new)) }
    ensures fault { IsErrOf result NoProgram.Fault → Rose (S.faults source.old) (S.faults source.new) }
    ensures later { S.faults source.old ≤ S.faults source.new }
{
    let input = match read_all(alloc, source, MOST_INPUT) {
        Ok(input) => input,
        Err(ReadEnd::Fault) => return Err(NoProgram::Fault),
        Err(ReadEnd::TooLong) => return Err(NoProgram::TooLong),
        Err(ReadEnd::NoMemory) => return Err(NoProgram::NoMemory),
    };
    match accepted(alloc, input.as_slice()) {
        Ok(program) => Ok(program),
        Err(Unserved::Refused(refusal)) => Err(NoProgram::Refused(refusal)),
        Err(Unserved::NoMemory) => Err(NoProgram::NoMemory),
    }
}
