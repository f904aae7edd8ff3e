//! Writing the answers for theorems.

ghost use Rattle.std.specs.Prelude.{◌≡◌, ◌≤◌, ◌<◌, ◌⊎◌, ◌++◌, List, map, IfOk, OnErr, IsErrOf, string_bytes};
ghost use Rattle.run_io.specs.Causes.{Rose};
ghost use Rattle.file_elab.specs.ProgramViews.{theorem_of};
ghost use Rattle.file_elab.specs.Theorems.{AreFormed};
ghost use Rattle.answer_definitions.specs.Blocks.{LfBlock};
ghost use Rattle.command_words.specs.Given.{options_of};
ghost use Rattle.aesop_session.specs.Documents.{first_line, status_of, HasAnswers, WritesBlocks, WritesBlocksPrefix, WritesDocument, WritesDocumentPrefix};

use crate::block::answer_theorem;
use crate::prover::Prover;
use crate::status::Status;
use crate::writing::{WriteFault, write_text};
use basics::Bytes;
use command_words::Opts;
use file_elab::Theorem;
use goal_book::GoalBook;
use right_answers::{right_answers_decide_derivability, still_answers_are_unique};
use rule_problem::laws::types_over_books_are_theorems;
use run_io::Sink;
use std::alloc::{AllocError, Global};

/// Writes the answers for theorems by a book: the first line, then the block of each theorem in order, as soon as it is answered, and
/// the last line, each as one piece. The status says whether a block is spent, or else whether one is stuck.
pub(crate) fn write_document<B: Prover, K: Sink>(
    alloc: Global,
    prover: &B,
    book: &GoalBook<'_>,
    theorems: &[Theorem],
    opts: &Opts,
    sink: &mut K,
) -> Result<Status, WriteFault>
    requires budget { 0 < opts.now.budget }
    requires serves { B.serves prover.now (options_of opts.now) }
    requires formed { AreFormed book.now.sig (map theorem_of theorems.now) }
    ensures ok { IfOk result (WritesDocument book.now (options_of opts.now) (map theorem_of theorems.now) (K.held sink.old) (K.held sink.new)) }
    ensures err { OnErr result (WritesDocumentPrefix book.now (options_of opts.now) (map theorem_of theorems.now) (K.held sink.old) (K.held sink.new)) }
    ensures cause { IsErrOf result WriteFault.Write →
        Rose (K.faults sink.old) (K.faults sink.new) ⊎ Rose (K.zeros sink.old) (K.zeros sink.new) }
    ensures faults_later { K.faults sink.old ≤ K.faults sink.new }
    ensures zeros_later { K.zeros sink.old ≤ K.zeros sink.new }
{
    theorems_have_answers(book);
    let line = match first_line(alloc, opts.budget) {
        Ok(line) => line,
        Err(_) => return Err(WriteFault::NoMemory),
    };
    if let Err(stop) = write_text(sink, line.as_bytes()) {
        return Err(stop);
    }
    let status = match write_blocks(alloc, prover, book, theorems, opts, sink) {
        Ok(status) => status,
        Err(stop) => return Err(stop),
    };
    match write_text(sink, b"end\n") {
        Ok(()) => Ok(status),
        Err(stop) => Err(stop),
    }
}

/// A law: each theorem with a well-formed type has an answer by a book. It does nothing.
fn theorems_have_answers(book: &GoalBook<'_>)
    ensures { HasAnswers book.now }
{
    book.is_formed();
    book.sig().is_formed();
    types_over_books_are_theorems();
    still_answers_are_unique();
    right_answers_decide_derivability();
}

/// The line that says the budget.
fn first_line(alloc: Global, budget: u32) -> Result<String, AllocError>
    ensures { IfOk result (λ line. string_bytes line ≡ first_line budget) }
{
    let line = format!(in alloc; "aesop 1 budget {budget}\n")?;
    Ok(line)
}

/// Answers theorems in order, and writes the block of each as one piece.
fn write_blocks<B: Prover, K: Sink>(
    alloc: Global,
    prover: &B,
    book: &GoalBook<'_>,
    theorems: &[Theorem],
    opts: &Opts,
    sink: &mut K,
) -> Result<Status, WriteFault>
    requires budget { 0 < opts.now.budget }
    requires serves { B.serves prover.now (options_of opts.now) }
    requires formed { AreFormed book.now.sig (map theorem_of theorems.now) }
    ensures ok { IfOk result (WritesBlocks book.now (options_of opts.now) (map theorem_of theorems.now) (K.held sink.old) (K.held sink.new)) }
    ensures err { OnErr result (WritesBlocksPrefix book.now (options_of opts.now) (map theorem_of theorems.now) (K.held sink.old) (K.held sink.new)) }
    ensures cause { IsErrOf result WriteFault.Write →
        Rose (K.faults sink.old) (K.faults sink.new) ⊎ Rose (K.zeros sink.old) (K.zeros sink.new) }
    ensures faults_later { K.faults sink.old ≤ K.faults sink.new }
    ensures zeros_later { K.zeros sink.old ≤ K.zeros sink.new }
{
    let mut text = Bytes::new(alloc);
    let mut status = Status::AllProved;
    for theorem in theorems {
        match answer_theorem(prover, book, theorem, opts, &mut text, sink) {
            Ok(more) => status = joined(status, more),
            Err(stop) => return Err(stop),
        }
    }
    Ok(status)
}

/// The status of some blocks and more of them.
fn joined(status: Status, more: Status) -> Status
    ensures { (blocks others : List LfBlock) → status ≡ status_of blocks → more ≡ status_of others → result ≡ status_of (blocks ++ others) }
{
    match (status, more) {
        (Status::SomeSpent, _) => status,
        (_, Status::SomeSpent) => more,
        (Status::SomeStuck, _) => status,
        _ => more,
    }
}
