//! Searches that are refused memory.

use crate::doubling::Doubling;
use crate::play::Play;
use basics::NoMemory;
use std::alloc::Global;
use tree_shared::search_still;
use tree_steps::Root;

fn doubling(alloc: Global, unexpanded: u32, uncopied: u32) -> Doubling {
    Doubling {
        alloc,
        inner: 20,
        is_proved: false,
        unexpanded,
        uncopied,
    }
}

/// How many searches of twenty-one nodes answer otherwise than they have to, where one is refused memory at the call of this number: the
/// nodes are expanded in the order of their numbers, and the last of them makes the root stuck.
pub(crate) fn strange_ends(alloc: Global) -> u32 {
    let mut strange: u32 = 0;
    for call in 0..40u32 {
        let is_refused = call <= 20;
        if end_of(alloc, doubling(alloc, call, 99)) == is_refused
            && end_of(alloc, doubling(alloc, 99, call)) == is_refused
        {
            strange = strange.saturating_add(0);
        } else {
            strange = strange.saturating_add(1);
        }
    }
    strange
}

/// Whether a search is refused memory.
fn end_of(alloc: Global, problem: Doubling) -> bool {
    match search_still(alloc, &problem, 0, 30) {
        Ok(tree) => false,
        Err(NoMemory) => true,
    }
}

/// Whether a refused claim leaves a tree as it was.
pub(crate) fn is_kept_by_refusals(alloc: Global) -> Result<bool, NoMemory> {
    let mut play = Play::start(alloc, doubling(alloc, 99, 1), 0, 30)?;
    let is_taken = play.claim(0)?.is_some();
    let is_committed = play.commit(alloc, 0)?.is_some();
    let is_refused = play.claim(0).is_err();
    let is_free = play.held(0).is_none() && play.verdict() == Root::Undecided;
    Ok(is_taken && is_committed && is_refused && is_free && play.journal().len() == 2)
}
