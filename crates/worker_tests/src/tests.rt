//! Searches of several workers.

use crate::marks::Marks;
use crate::meeting::Meeting;
use crate::searches::{Asked, NoGate, regular, together, wrong_searches};
use crate::tables;
use std::test::Fail;
use tree_shared::Crew;
use tree_steps::Root;

#[test]
fn two_nodes_are_expanded_at_once(rt: HostRuntime) -> Result<(), Fail> {
    let problem = Meeting {
        alloc: rt.alloc(),
        marks: Marks::new(),
    };
    let crew = Crew {
        rt: &rt,
        gate: &NoGate,
        workers: 2,
    };
    let found = together(&crew, rt.alloc(), &problem, 10)?;
    assert_eq!(rt; problem.marks.missed(), 0);
    assert!(rt; found.verdict == Root::Proved && found.commits == 3);
    Ok(())
}

#[test]
fn workers_find_what_none_finds(rt: HostRuntime) -> Result<(), Fail> {
    let wrong = wrong_searches(&rt, rt.alloc(), Asked::Verdict, tables::verdicts())?;
    assert_eq!(rt; wrong.as_str(), "");
    Ok(())
}

#[test]
fn one_worker_goes_on_where_another_is_refused_memory(rt: HostRuntime) -> Result<(), Fail> {
    let wrong = wrong_searches(&rt, rt.alloc(), Asked::Refusal, tables::refusals())?;
    assert_eq!(rt; wrong.as_str(), "");
    Ok(())
}

#[test]
fn two_turns_pass_the_gate_at_once(rt: HostRuntime) -> Result<(), Fail> {
    for workers in [2u32, 4] {
        let problem = regular(rt.alloc(), &mut "1 2 1 proved 0".split_whitespace());
        let marks = Marks::new();
        let crew = Crew {
            rt: &rt,
            gate: &marks,
            workers,
        };
        let found = together(&crew, rt.alloc(), &problem, 10)?;
        assert_eq!(rt; marks.missed(), 0);
        assert!(rt; found.verdict == Root::Proved && found.commits == 3);
    }
    Ok(())
}
