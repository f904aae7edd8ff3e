//! The still run of a theorem.

ghost use Rattle.std.specs.Prelude.{◌≡◌, ◌<◌, [], IfOk};
ghost use Rattle.lf_definitions.specs.Typing.{Formed};
ghost use Rattle.lf_definitions.specs.Signatures.{kinds_in, typing_in};
ghost use Rattle.lf_terms.specs.Types.{type_of};
ghost use Rattle.answer_text.specs.Seen.{seen_block};
ghost use Rattle.answer_text.specs.Writable.{IsWritable};
ghost use Rattle.goal_book.specs.GoalBooks.{rules_in};
ghost use Rattle.answer_definitions.specs.Right.{IsRight};
ghost use Rattle.answer_definitions.specs.Settled.{IsStillAnswer};
ghost use Rattle.answer_definitions.specs.Theorems.{SaysOfDerivations};

use crate::answer::block_of;
use answer_text::Block;
use basics::NoMemory;
use command_words::Opts;
use file_elab::Theorem;
use goal_book::{GoalBook, opening};
use right_answers::{right_answers_decide_derivability, still_answers_are_unique};
use rule_problem::RuleProblem;
use rule_problem::laws::{branches_are_of_alternatives, types_over_books_are_theorems};
use std::alloc::Global;
use tree_shared::search_still;
use written_answers::right_blocks_are_writable;

/// Searches for a proof of a theorem in the caller alone: the best open node is expanded until the root is decided or as many nodes as the budget are expanded. The block is what
/// this run answers; a theorem that is proved is derivable, and one that is stuck isn't. The budget is at least 1, and the theorem's type is well formed. A number past its type is
/// out of memory.
pub fn prove_theorem_still(
    alloc: Global,
    book: &GoalBook<'_>,
    theorem: &Theorem,
    opts: &Opts,
) -> Result<Block, NoMemory>
    requires budget { 0 < opts.now.budget }
    requires formed { Formed (kinds_in book.now.sig) (typing_in book.now.sig [] []) (type_of theorem.now.ty) }
    ensures still { IfOk result (λ block. IsStillAnswer book.now.sig (rules_in book.now) (type_of theorem.now.ty) opts.now.budget opts.now.trace theorem.now.name (seen_block block)) }
    ensures right { IfOk result (λ block. IsRight book.now.sig (rules_in book.now) opts.now.budget (type_of theorem.now.ty) theorem.now.name (seen_block block)) }
    ensures derivations { IfOk result (λ block. SaysOfDerivations book.now.sig (rules_in book.now) (type_of theorem.now.ty) (seen_block block).verdict) }
    ensures writable { IfOk result (λ block. IsWritable book.now.sig book.now.book (seen_block block)) }
{
    book.is_formed();
    book.sig().is_formed();
    branches_are_of_alternatives();
    types_over_books_are_theorems();
    still_answers_are_unique();
    right_answers_decide_derivability();
    right_blocks_are_writable();
    let problem = RuleProblem { alloc, book };
    let root = opening(alloc, &theorem.ty)?;
    let tree = search_still(alloc, &problem, root, opts.budget)?;
    let block = block_of(&problem, tree, theorem, opts.trace)?;
    Ok(block)
}
