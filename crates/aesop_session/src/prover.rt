//! How a theorem is searched for.

ghost use Rattle.std.specs.Prelude.{◌<◌, [], IfOk};
ghost use Rattle.lf_definitions.specs.Typing.{Formed};
ghost use Rattle.lf_definitions.specs.Signatures.{kinds_in, typing_in};
ghost use Rattle.lf_terms.specs.Types.{type_of};
ghost use Rattle.file_elab.specs.ProgramViews.{theorem_of};
ghost use Rattle.answer_text.specs.Seen.{seen_block};
ghost use Rattle.answer_text.specs.Writable.{IsWritable};
ghost use Rattle.command_words.specs.Commands.{LfOptions};
ghost use Rattle.command_words.specs.Given.{options_of};
ghost use Rattle.aesop_session.specs.Documents.{AnswersTheorem};

use answer_text::Block;
use basics::NoMemory;
use command_words::Opts;
use file_elab::Theorem;
use goal_book::GoalBook;
use std::alloc::Global;
use theorem_search::prove_theorem_still;

/// How a theorem is searched for.
pub(crate) trait Prover {
    /// The options that it serves.
    ghost serves: { Self → LfOptions → Type 0 };

    /// The block of a theorem with a well-formed type, by a book. The budget is at least 1. It is refused when out of memory.
    fn prove(&self, book: &GoalBook<'_>, theorem: &Theorem, opts: &Opts) -> Result<Block, NoMemory>
        requires budget { 0 < opts.now.budget }
        requires serves { serves self.now (options_of opts.now) }
        requires formed { Formed (kinds_in book.now.sig) (typing_in book.now.sig [] []) (type_of theorem.now.ty) }
        ensures answers { IfOk result (λ block. AnswersTheorem book.now (options_of opts.now) (theorem_of theorem.now) (seen_block block)) }
        ensures writable { IfOk result (λ block. IsWritable book.now.sig book.now.book (seen_block block)) };
}

/// The caller searches alone, with memory from here.
#[derive(Clone, Copy)]
pub(crate) struct Still {
    pub(crate) alloc: Global,
}

impl Prover for Still {
    ghost use Rattle.std.specs.Prelude.{◌≡◌};

    ghost serves = { λ prover options. options.workers ≡ 0 };

    fn prove(
        &self,
        book: &GoalBook<'_>,
        theorem: &Theorem,
        opts: &Opts,
    ) -> Result<Block, NoMemory> {
        let block = prove_theorem_still(self.alloc, book, theorem, opts)?;
        Ok(block)
    }
}

/// Workers search, by a call that the caller passes: a block of an impl can't pass its runtime on to threads.
#[derive(Drop)]
pub(crate) struct Team<F> {
    pub(crate) search: F,
}

impl<F: Fn(&GoalBook<'_>, &Theorem, &Opts) -> Result<Block, NoMemory>> Prover for Team<F> {
    ghost use Rattle.std.specs.Prelude.{◌≡◌, ◌<◌, [], IfOk};
    ghost use Rattle.lf_definitions.specs.Typing.{Formed};
    ghost use Rattle.lf_definitions.specs.Signatures.{kinds_in, typing_in};
    ghost use Rattle.lf_terms.specs.Types.{type_of};
    ghost use Rattle.file_elab.specs.ProgramViews.{theorem_of};
    ghost use Rattle.answer_text.specs.Seen.{seen_block};
    ghost use Rattle.answer_text.specs.Writable.{IsWritable};
    ghost use Rattle.command_words.specs.Given.{options_of};
    ghost use Rattle.aesop_session.specs.Documents.{AnswersTheorem};

    // With these options the call may be made for each theorem, and what it returns is an answer.
    ghost serves = { λ prover options. (book : _) (theorem : _) (opts : _) → options_of opts.now ≡ options → 0 < opts.now.budget →
        Formed (kinds_in book.now.sig) (typing_in book.now.sig [] []) (type_of theorem.now.ty) →
        F.pre prover.search book theorem opts
        × ((result : _) → F.post prover.search book theorem opts result →
        IfOk result (λ block. AnswersTheorem book.now (options_of opts.now) (theorem_of theorem.now) (seen_block block))
        × IfOk result (λ block. IsWritable book.now.sig book.now.book (seen_block block))) };

    fn prove(
        &self,
        book: &GoalBook<'_>,
        theorem: &Theorem,
        opts: &Opts,
    ) -> Result<Block, NoMemory> {
        (self.search)(book, theorem, opts)
    }
}
