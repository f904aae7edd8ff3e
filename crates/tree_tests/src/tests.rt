//! The tree is played.

use crate::moves::Asked;
use crate::refusals::{is_kept_by_refusals, strange_ends};
use crate::schedules::play_all;
use crate::tables;
use std::test::Fail;
use test_rows::wrong_rows;

#[test]
fn moves_are_answered(rt: HostRuntime) -> Result<(), Fail> {
    let wrong = wrong_rows(rt.alloc(), &Asked::Moves, tables::moves())?;
    assert_eq!(rt; wrong.as_str(), "");
    Ok(())
}

#[test]
fn nodes_are_marked_by_their_children(rt: HostRuntime) -> Result<(), Fail> {
    let wrong = wrong_rows(rt.alloc(), &Asked::Moves, tables::marks())?;
    assert_eq!(rt; wrong.as_str(), "");
    Ok(())
}

#[test]
fn the_best_node_is_claimed(rt: HostRuntime) -> Result<(), Fail> {
    let wrong = wrong_rows(rt.alloc(), &Asked::Moves, tables::best())?;
    assert_eq!(rt; wrong.as_str(), "");
    Ok(())
}

#[test]
fn searches_end_when_they_are_settled(rt: HostRuntime) -> Result<(), Fail> {
    let wrong = wrong_rows(rt.alloc(), &Asked::Still, tables::still())?;
    assert_eq!(rt; wrong.as_str(), "");
    Ok(())
}

#[test]
fn schedules_go_as_in_a_plain_tree(rt: HostRuntime) -> Result<(), Fail> {
    let tally = play_all(rt.alloc(), 2_000)?;
    assert_eq!(rt; tally.wrong, 0);
    assert!(rt; tally.taken > 10_000 && tally.committed > 8_000 && tally.released > 2_000);
    assert!(rt; tally.decided > 10_000 && tally.spent > 10_000 && tally.idle > 4_000);
    Ok(())
}

#[test]
fn refused_memory_is_all_that_a_search_answers(rt: HostRuntime) -> Result<(), Fail> {
    assert_eq!(rt; strange_ends(rt.alloc()), 0);
    assert!(rt; is_kept_by_refusals(rt.alloc())?);
    Ok(())
}
