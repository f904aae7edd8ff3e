//! Answering a theorem.

ghost use Rattle.std.specs.Prelude.{◌≡◌, ◌≤◌, ◌<◌, ◌⊎◌, ◌∷◌, [], IfOk, OnErr, IsErrOf};
ghost use Rattle.run_io.specs.Causes.{Rose};
ghost use Rattle.lf_definitions.specs.Typing.{Formed};
ghost use Rattle.lf_definitions.specs.Signatures.{kinds_in, typing_in};
ghost use Rattle.lf_terms.specs.Types.{type_of};
ghost use Rattle.file_elab.specs.ProgramViews.{theorem_of};
ghost use Rattle.answer_text.specs.Seen.{seen_block};
ghost use Rattle.command_words.specs.Given.{options_of};
ghost use Rattle.aesop_session.specs.Documents.{status_of, IsBlockText, WritesBlocks, WritesBlocksPrefix};

use crate::prover::Prover;
use crate::status::Status;
use crate::writing::{WriteFault, write_text};
use answer_text::{Block, Verdict, write_block};
use basics::{Bytes, NoMemory};
use command_words::Opts;
use file_elab::Theorem;
use goal_book::GoalBook;
use run_io::Sink;

/// Answers a theorem, and writes its block as one piece. The status is that of the block.
pub(crate) fn answer_theorem<B: Prover, K: Sink>(
    prover: &B,
    book: &GoalBook<'_>,
    theorem: &Theorem,
    opts: &Opts,
    text: &mut Bytes,
    sink: &mut K,
) -> Result<Status, WriteFault>
    requires budget { 0 < opts.now.budget }
    requires serves { B.serves prover.now (options_of opts.now) }
    requires formed { Formed (kinds_in book.now.sig) (typing_in book.now.sig [] []) (type_of theorem.now.ty) }
    ensures ok { IfOk result (WritesBlocks book.now (options_of opts.now) (theorem_of theorem.now ∷ []) (K.held sink.old) (K.held sink.new)) }
    ensures err { OnErr result (WritesBlocksPrefix book.now (options_of opts.now) (theorem_of theorem.now ∷ []) (K.held sink.old) (K.held sink.new)) }
    ensures cause { IsErrOf result WriteFault.Write →
        Rose (K.faults sink.old) (K.faults sink.new) ⊎ Rose (K.zeros sink.old) (K.zeros sink.new) }
    ensures faults_later { K.faults sink.old ≤ K.faults sink.new }
    ensures zeros_later { K.zeros sink.old ≤ K.zeros sink.new }
{
    let status = match put_block(prover, book, theorem, opts, text) {
        Ok(status) => status,
        Err(_) => return Err(WriteFault::NoMemory),
    };
    match write_text(sink, text.as_slice()) {
        Ok(()) => Ok(status),
        Err(stop) => Err(stop),
    }
}

/// Answers a theorem, and puts the text of its block in the place of what `text` has. The status is that of the block.
fn put_block<B: Prover>(
    prover: &B,
    book: &GoalBook<'_>,
    theorem: &Theorem,
    opts: &Opts,
    text: &mut Bytes,
) -> Result<Status, NoMemory>
    requires budget { 0 < opts.now.budget }
    requires serves { B.serves prover.now (options_of opts.now) }
    requires formed { Formed (kinds_in book.now.sig) (typing_in book.now.sig [] []) (type_of theorem.now.ty) }
    ensures { IfOk result (λ status. IsBlockText book.now (options_of opts.now) (theorem_of theorem.now) status text.new) }
{
    let block = prover.prove(book, theorem, opts)?;
    text.clear();
    write_block(book.sig(), book.rules(), &block, text)?;
    Ok(status_by(&block))
}

/// The status of a block.
fn status_by(block: &Block) -> Status
    ensures { result ≡ status_of (seen_block block.now ∷ []) }
{
    match block.verdict {
        Verdict::Proved(_, _) => Status::AllProved,
        Verdict::Stuck => Status::SomeStuck,
        Verdict::Spent => Status::SomeSpent,
    }
}
