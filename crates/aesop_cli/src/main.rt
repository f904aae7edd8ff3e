//! The program: it takes the words of the command line, standard input and standard output, and
//! calls `run` of `aesop_session`, which does all the work.
#![tactic(auto)]

ghost use Rattle.std.specs.Prelude.{⊤};

use aesop_session::{Status, run};
use basics::{Name, NoMemory, Words};
use run_io::{StdSink, StdSource};
use std::alloc::Global;
use std::process::ExitCode;
use std::sync::Wait;
use std::thread::{Builder, Promise, Threads};
use std::{env, io};
use tree_shared::Gate;

/// Input and search nest deeply. The stack is taken only as it is used.
const STACK: usize = 1 << 30;

/// A thread answers some status.
#[derive(Clone, Copy)]
struct SomeStatus;

impl Promise<Status> for SomeStatus {
    ghost kept_by = { λ _ _. ⊤ };
}

/// A gate that does nothing.
struct NoGate;

impl Gate for NoGate {
    fn between(&self, _seat: u32, _turn: u32) {}
}

/// The words of the command line without the program's name. Words that can't be had as text are
/// no command line, as none are.
fn words(rt: &HostRuntime) -> Result<Words, NoMemory> {
    let mut words = Words::new(rt.alloc());
    let Ok(args) = env::args(rt) else {
        return Ok(words);
    };
    for word in args.skip(1) {
        words.push(Name::from_slice(rt.alloc(), word.as_bytes())?)?;
    }
    Ok(words)
}

/// Does what the words say, over standard input and standard output.
fn serve<R: Threads + Wait + Input + Print + Sync>(rt: &R, alloc: Global, words: &Words) -> Status {
    let mut source = StdSource::new(rt.reader());
    let mut sink = StdSink::new(io::writer(rt));
    run(rt, alloc, words, &mut source, &mut sink, &NoGate)
}

fn main(rt: HostRuntime) -> ExitCode {
    let Ok(words) = words(&rt) else {
        return ExitCode::from(Status::NoMemory.code());
    };
    let Ok(here) = rt.clone() else {
        return ExitCode::from(Status::NoMemory.code());
    };
    let work = move || serve(&here, here.alloc(), &words);
    let status = match Builder::new()
        .stack_size(STACK)
        .spawn_with(&rt, SomeStatus, work)
    {
        Ok(thread) => thread.join(&rt),
        Err(refused) => (refused.value)(),
    };
    ExitCode::from(status.code())
}
