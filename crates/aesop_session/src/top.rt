//! The top calls.

ghost use Rattle.std.specs.Prelude.{◌≡◌, ◌≤◌, ◌<◌, ◌⊎◌, Option, Some, List, [], ℕ, IfOk};
ghost use Rattle.run_io.specs.Causes.{Rose};
ghost use Rattle.run_io.specs.Moves.{TakesMoreThan};
ghost use Rattle.rule_sets.specs.Refusals.{IsOver};
ghost use Rattle.lf_definitions.specs.Typing.{Formed};
ghost use Rattle.lf_definitions.specs.Signatures.{kinds_in, typing_in};
ghost use Rattle.lf_terms.specs.Types.{type_of};
ghost use Rattle.file_elab.specs.ProgramViews.{program_of, theorem_of};
ghost use Rattle.file_elab.specs.Theorems.{AreFormed};
ghost use Rattle.answer_text.specs.Seen.{seen_block};
ghost use Rattle.answer_text.specs.Writable.{IsWritable};
ghost use Rattle.command_words.specs.Commands.{IsProveCommand};
ghost use Rattle.command_words.specs.Given.{options_of};
ghost use Rattle.basics.specs.Limits.{most_input};
ghost use Rattle.aesop_session.specs.Calls.{LfCall, still_call, every_call, IsServed, IsServedCommand, IsStillCommand};
ghost use Rattle.aesop_session.specs.Answers.{Answered, IsStatusFor, TakesProgram};
ghost use Rattle.aesop_session.specs.Documents.{AnswersTheorem};
ghost use Rattle.aesop_session.specs.Inputs.{TakesRefused};
ghost use Rattle.aesop_session.specs.declared.status.Status.{Status};

use crate::book::book_of;
use crate::document::write_document;
use crate::input::{NoProgram, read_program};
use crate::prover::{Prover, Still, Team};
use crate::refusal::{Refusal, line_of};
use crate::status::Status;
use crate::writing::{WriteFault, write_text};
use answer_text::Block;
use basics::{NoMemory, Words};
use command_words::{Opts, prove_options};
use file_elab::{Program, Theorem};
use goal_book::GoalBook;
use run_io::{Sink, Source};
use std::alloc::Global;
use std::sync::Wait;
use std::thread::Threads;
use theorem_search::prove_theorem;
use tree_shared::Gate;

/// Does what the words say, with so many workers as they say, the caller among them. It may wait for the others.
///
/// The word `prove`, and then `--workers N`, `--budget N` and `--trace`, each at most once and in any order, read a file from the source,
/// search a proof of each of its theorems in order, and write each answer to the sink as soon as it is found. N is written by one to five
/// digits; workers are at most 64, and 4 where no number is given; a budget is from 1 to 50,000, and 1,000 where none is given. Each worker
/// calls the gate between its claim and its commit; with no workers the caller searches alone. The status says whether a theorem's budget
/// was spent, or else whether a theorem is stuck. Where more than 4,194,304 bytes were read they are `TooLong`. Bytes that are no file, and
/// files with a declaration that is refused, are `FileRefused`, with the line `refused at P: KIND`: P is the place of the first fault. All
/// other words are `Usage`, and the usage line is written.
pub fn run<R: Threads + Wait + Sync, S: Source, K: Sink, G: Gate + Sync>(
    rt: &R,
    alloc: Global,
    words: &Words,
    source: &mut S,
    sink: &mut K,
    gate: &G,
) -> Status
    // What each status says of the words, of what was read and of what was written.
    ensures answered { Answered every_call words.now (S.left source.old) (S.left source.new) (K.held sink.old) (K.held sink.new) result }

    // A fault comes only where the source or the sink counted one.
    ensures read_fault { result ≡ Status.ReadFault → Rose (S.faults source.old) (S.faults source.new) }
    ensures write_fault { result ≡ Status.WriteFault →
        Rose (K.faults sink.old) (K.faults sink.new) ⊎ Rose (K.zeros sink.old) (K.zeros sink.new) }
    ensures source_later { S.faults source.old ≤ S.faults source.new }
    ensures sink_later { (K.faults sink.old ≤ K.faults sink.new) × (K.zeros sink.old ≤ K.zeros sink.new) }

    // Other words read nothing.
    ensures reads_nothing { (IsProveCommand words.now → ⊥) → source.new ≡ source.old }

    // Where nothing fails the input has its status, unless memory runs out: a program is answered, what is refused is said to be so, and
    // so is what is too long.
    ensures complete { (input : List ℕ) → IsProveCommand words.now → S.left source.old ≡ Some input →
        (Rose (S.faults source.old) (S.faults source.new) → ⊥) →
        (Rose (K.faults sink.old) (K.faults sink.new) → ⊥) → (Rose (K.zeros sink.old) (K.zeros sink.new) → ⊥) → IsStatusFor input result }
{
    let opts = match prove_options(alloc, words) {
        Ok(Some(opts)) => opts,
        Ok(None) => return say_usage(sink),
        Err(_) => return Status::NoMemory,
    };
    if opts.workers == 0 {
        return prove(alloc, &Still { alloc }, &opts, source, sink);
    }
    let search = |book: &GoalBook<'_>, theorem: &Theorem, opts: &Opts| -> Result<Block, NoMemory>
        requires budget { 0 < opts.now.budget }
        requires workers { 0 < opts.now.workers }
        requires seats { opts.now.workers ≤ 64 }
        requires formed { Formed (kinds_in book.now.sig) (typing_in book.now.sig [] []) (type_of theorem.now.ty) }
        ensures answers { IfOk result (λ block. AnswersTheorem book.now (options_of opts.now) (theorem_of theorem.now) (seen_block block)) }
        ensures writable { IfOk result (λ block. IsWritable book.now.sig book.now.book (seen_block block)) }
    {
        let block = prove_theorem(rt, alloc, book, theorem, opts, gate)?;
        Ok(block)
    };
    prove(alloc, &Team { search }, &opts, source, sink)
}

/// Does what the words say, in the caller alone: it waits for nobody and returns. It is `run` for commands with `--workers 0`; all other
/// words are `Usage`.
pub fn run_still<S: Source, K: Sink>(
    alloc: Global,
    words: &Words,
    source: &mut S,
    sink: &mut K,
) -> Status
    // What each status says of the words, of what was read and of what was written.
    ensures answered { Answered still_call words.now (S.left source.old) (S.left source.new) (K.held sink.old) (K.held sink.new) result }

    // A fault comes only where the source or the sink counted one.
    ensures read_fault { result ≡ Status.ReadFault → Rose (S.faults source.old) (S.faults source.new) }
    ensures write_fault { result ≡ Status.WriteFault →
        Rose (K.faults sink.old) (K.faults sink.new) ⊎ Rose (K.zeros sink.old) (K.zeros sink.new) }
    ensures source_later { S.faults source.old ≤ S.faults source.new }
    ensures sink_later { (K.faults sink.old ≤ K.faults sink.new) × (K.zeros sink.old ≤ K.zeros sink.new) }

    // Other words read nothing.
    ensures reads_nothing { (IsStillCommand words.now → ⊥) → source.new ≡ source.old }

    // Where nothing fails the input has its status, unless memory runs out: a program is answered, what is refused is said to be so, and
    // so is what is too long.
    ensures complete { (input : List ℕ) → IsStillCommand words.now → S.left source.old ≡ Some input →
        (Rose (S.faults source.old) (S.faults source.new) → ⊥) →
        (Rose (K.faults sink.old) (K.faults sink.new) → ⊥) → (Rose (K.zeros sink.old) (K.zeros sink.new) → ⊥) → IsStatusFor input result }
{
    let opts = match prove_options(alloc, words) {
        Ok(Some(opts)) => opts,
        Ok(None) => return say_usage(sink),
        Err(_) => return Status::NoMemory,
    };
    if opts.workers != 0 {
        return say_usage(sink);
    }
    prove(alloc, &Still { alloc }, &opts, source, sink)
}

/// Writes the usage line.
fn say_usage<K: Sink>(sink: &mut K) -> Status
    ensures answered { (call : LfCall) (words : List (List ℕ)) (left : Option (List ℕ)) → (IsServedCommand call words → ⊥) →
        Answered call words left left (K.held sink.old) (K.held sink.new) result }
    ensures no_read_fault { result ≡ Status.ReadFault → ⊥ }
    ensures write_fault { result ≡ Status.WriteFault →
        Rose (K.faults sink.old) (K.faults sink.new) ⊎ Rose (K.zeros sink.old) (K.zeros sink.new) }
    ensures faults_later { K.faults sink.old ≤ K.faults sink.new }
    ensures zeros_later { K.zeros sink.old ≤ K.zeros sink.new }
{
    let line = b"usage: aesop prove [--workers N] [--budget N] [--trace] | check | gen N | big N\n";
    match write_text(sink, line) {
        Ok(()) => Status::Usage,
        Err(_) => Status::WriteFault,
    }
}

/// Writes that the input is too long.
fn say_too_long<K: Sink>(sink: &mut K) -> Status
    ensures answered { (call : LfCall) (words : List (List ℕ)) (left later : Option (List ℕ)) → IsServedCommand call words → TakesMoreThan most_input left later →
        Answered call words left later (K.held sink.old) (K.held sink.new) result }
    ensures no_read_fault { result ≡ Status.ReadFault → ⊥ }
    ensures write_fault { result ≡ Status.WriteFault →
        Rose (K.faults sink.old) (K.faults sink.new) ⊎ Rose (K.zeros sink.old) (K.zeros sink.new) }
    ensures faults_later { K.faults sink.old ≤ K.faults sink.new }
    ensures zeros_later { K.zeros sink.old ≤ K.zeros sink.new }
{
    match write_text(sink, b"refused: input too long\n") {
        Ok(()) => Status::TooLong,
        Err(_) => Status::WriteFault,
    }
}

/// Writes why and where the input is refused.
fn say_refused<K: Sink>(alloc: Global, refusal: Refusal, sink: &mut K) -> Status
    ensures answered { (call : LfCall) (words : List (List ℕ)) (left later : Option (List ℕ)) → IsServedCommand call words → TakesRefused left later refusal →
        Answered call words left later (K.held sink.old) (K.held sink.new) result }
    ensures no_read_fault { result ≡ Status.ReadFault → ⊥ }
    ensures write_fault { result ≡ Status.WriteFault →
        Rose (K.faults sink.old) (K.faults sink.new) ⊎ Rose (K.zeros sink.old) (K.zeros sink.new) }
    ensures faults_later { K.faults sink.old ≤ K.faults sink.new }
    ensures zeros_later { K.zeros sink.old ≤ K.zeros sink.new }
{
    let line = match line_of(alloc, refusal) {
        Ok(line) => line,
        Err(_) => return Status::NoMemory,
    };
    match write_text(sink, line.as_bytes()) {
        Ok(()) => Status::FileRefused,
        Err(_) => Status::WriteFault,
    }
}

/// Answers the theorems of a program, and writes the answers.
fn answer<B: Prover, K: Sink>(
    alloc: Global,
    prover: &B,
    program: &Program,
    opts: &Opts,
    sink: &mut K,
) -> Status
    requires budget { 0 < opts.now.budget }
    requires serves { B.serves prover.now (options_of opts.now) }
    requires theorems { AreFormed program.now.sig program.now.theorems }
    requires rules { IsOver program.now.sig program.now.rules }
    ensures answered { (call : LfCall) (words : List (List ℕ)) (left later : Option (List ℕ)) → IsServed call words (options_of opts.now) → TakesProgram left later (program_of program.now) →
        Answered call words left later (K.held sink.old) (K.held sink.new) result }
    ensures no_read_fault { result ≡ Status.ReadFault → ⊥ }
    ensures write_fault { result ≡ Status.WriteFault →
        Rose (K.faults sink.old) (K.faults sink.new) ⊎ Rose (K.zeros sink.old) (K.zeros sink.new) }
    ensures faults_later { K.faults sink.old ≤ K.faults sink.new }
    ensures zeros_later { K.zeros sink.old ≤ K.zeros sink.new }
{
    let book = match book_of(alloc, program) {
        Ok(book) => book,
        Err(_) => return Status::NoMemory,
    };
    match write_document(
        alloc,
        prover,
        &book,
        program.theorems.as_slice(),
        opts,
        sink,
    ) {
        Ok(status) => status,
        Err(WriteFault::Write) => Status::WriteFault,
        Err(WriteFault::NoMemory) => Status::NoMemory,
    }
}

/// Reads a file, and answers its theorems or says why there is none.
fn prove<B: Prover, S: Source, K: Sink>(
    alloc: Global,
    prover: &B,
    opts: &Opts,
    source: &mut S,
    sink: &mut K,
) -> Status
    requires budget { 0 < opts.now.budget }
    requires serves { B.serves prover.now (options_of opts.now) }
    ensures answered { (call : LfCall) (words : List (List ℕ)) → IsServed call words (options_of opts.now) →
        Answered call words (S.left source.old) (S.left source.new) (K.held sink.old) (K.held sink.new) result }
    ensures read_fault { result ≡ Status.ReadFault → Rose (S.faults source.old) (S.faults source.new) }
    ensures write_fault { result ≡ Status.WriteFault →
        Rose (K.faults sink.old) (K.faults sink.new) ⊎ Rose (K.zeros sink.old) (K.zeros sink.new) }
    ensures source_later { S.faults source.old ≤ S.faults source.new }
    ensures sink_later { (K.faults sink.old ≤ K.faults sink.new) × (K.zeros sink.old ≤ K.zeros sink.new) }
{
    match read_program(alloc, source) {
        Ok(program) => answer(alloc, prover, &program, opts, sink),
        Err(NoProgram::Fault) => Status::ReadFault,
        Err(NoProgram::TooLong) => say_too_long(sink),
        Err(NoProgram::Refused(refusal)) => say_refused(alloc, refusal, sink),
        Err(NoProgram::NoMemory) => Status::NoMemory,
    }
}
