//! The tables.

use crate::answers::{Given, team_answer, wrong_rows, wrong_runs};
use crate::gates::{Watch, Watched};
use std::test::Fail;

/// Command lines, and what they answer to the empty file.
fn command_lines() -> &'static str {
    "\
=> usage
prove => 0/aesop 1 budget 1000/end/
prove --workers 4 => 0/aesop 1 budget 1000/end/
prove --workers=03 --budget 7 => 0/aesop 1 budget 7/end/
prove --budget 8 --workers 2 => 0/aesop 1 budget 8/end/
prove --budget=00009 => 0/aesop 1 budget 9/end/
prove --budget 1 --workers=64 => 0/aesop 1 budget 1/end/
prove --workers 00001 --budget 50000 => 0/aesop 1 budget 50000/end/
prove --trace => 0/aesop 1 budget 1000/end/
prove --trace --workers 4 --budget 7 => 0/aesop 1 budget 7/end/
prove --workers 4 --trace --budget=7 => 0/aesop 1 budget 7/end/
prove --budget 7 --workers=4 --trace => 0/aesop 1 budget 7/end/
prove --workers 0 => 0/aesop 1 budget 1000/end/
prove --budget 7 --workers=00 => 0/aesop 1 budget 7/end/
prove --workers 65 => usage
prove --workers=99999 => usage
prove --workers 000004 => usage
prove --workers -1 => usage
prove --workers +4 => usage
prove --workers 4x => usage
prove --workers four => usage
prove --workers => usage
prove --workers= => usage
prove --workers --budget 7 => usage
prove --workers 4 --workers 4 => usage
prove --workers=4 --trace --workers 3 => usage
prove --budget => usage
prove --budget= => usage
prove --workers 4 --budget => usage
prove --budget --trace => usage
prove --budget 0 => usage
prove --budget 50001 => usage
prove --budget=000007 => usage
prove --budget 7 --budget=7 => usage
prove --trace --trace => usage
prove --trace=1 => usage
prove --trace 1 => usage
prove --work 4 => usage
prove -w 4 => usage
prove --Workers 4 => usage
prove -- => usage
prove --help => usage
prove 4 => usage
prove prove => usage
--workers 4 prove => usage
Prove => usage
proves => usage
check => usage
check --workers 4 => usage"
}

/// Files that have one answer each, whatever the order of the workers' steps.
fn files() -> &'static str {
    "\
=> 0/aesop 1 budget 1000/end/
family p : type. const a : p. rule ra : unsafe 50 apply a. theorem t : p. => 0/aesop 1 budget 1000/theorem t proved/term a/step unsafe ra/end/
family p : type. theorem t : p. => 1/aesop 1 budget 1000/theorem t stuck/claim 0 0/commit 0 0/end/
family p : type. family q : type. family r : type. const f : q -> p. const g : r -> p. const c : r. rule f : unsafe 80 apply f. rule g : unsafe 20 apply g. rule c : unsafe 100 apply c. theorem t : p. => 0/aesop 1 budget 1000/theorem t proved/term g c/step unsafe g/step unsafe c/end/
family p : type. family q : type. family r : type. const f : q -> p. const g : r -> p. const c : r. rule f : safe 0 apply f. rule g : unsafe 20 apply g. rule c : unsafe 100 apply c. theorem t : p. => 1/aesop 1 budget 1000/theorem t stuck/claim 0 0/commit 0 0 1/claim 0 1/commit 0 1/end/
family i : type. const a : i. const b : i. family p : i -> type. family q : i -> type. family g : type. const ex : {x:i} p x -> q x -> g. const pa : p a. const pb : p b. const qb : q b. rule ex : unsafe 100 apply ex. rule pa : unsafe 90 apply pa. rule pb : unsafe 50 apply pb. rule qb : unsafe 50 apply qb. theorem t : g. => 0/aesop 1 budget 1000/theorem t proved/term ex b pb qb/step unsafe ex/step unsafe pb/step unsafe qb/end/
family i : type. const a : i. const b : i. family p : i -> type. family q : i -> type. family g : type. const ex : {x:i} p x -> q x -> g. const pa : p a. const pb : p b. const qb : q b. rule ex : unsafe 100 apply ex. rule pa : safe 0 apply pa. rule pb : unsafe 50 apply pb. rule qb : safe 0 apply qb. theorem t : g. => 0/aesop 1 budget 1000/theorem t proved/term ex b pb qb/step unsafe ex/step unsafe pb/step safe qb/end/"
}

/// A file whose theorem has two first subgoals.
fn two_subgoals() -> &'static str {
    "family o : type. const and : o -> o -> o. family prf : o -> type. const and_i : {A:o} {B:o} prf A -> prf B -> prf (and A B). rule and_i : safe 0 apply and_i. theorem swap : {A:o} {B:o} prf A -> prf B -> prf (and B A)."
}

/// A file whose theorem is stuck once all of a complete binary tree of depth 8 is searched.
fn wide_search() -> &'static str {
    "family p0 : type. `8*family p$ : type. const l$ : p$ -> p@. const r$ : p$ -> p@. rule l$ : unsafe 50 apply l$. rule r$ : unsafe 50 apply r$. `theorem t : p0."
}

/// A file whose theorems are stuck or have one proof each: `e` and `p0` are empty, and there is one term of each `q`.
fn single_proofs() -> &'static str {
    "family e : type. \
    family p0 : type. `2*family p$ : type. const l$ : p$ -> p@. const r$ : p$ -> p@. rule l$ : unsafe 50 apply l$. rule r$ : unsafe 50 apply r$. `\
    family q0 : type. `2*family q$ : type. const b$ : q$ -> q$ -> q@. const d$ : e -> q@. rule b$ : unsafe 50 apply b$. rule d$ : unsafe 60 apply d$. `\
    const z : q2. rule z : safe 0 apply z. \
    family g : type. const gp : p0 -> g. const gq : q1 -> g. rule gp : unsafe 80 apply gp. rule gq : unsafe 20 apply gq. \
    theorem t0 : q0. theorem t1 : p0. theorem t2 : e. theorem t3 : g."
}

/// What is answered to that file, without the events of the searches that are stuck.
fn single_answers() -> &'static str {
    "1/aesop 1 budget 1000/theorem t0 proved/term b1 (b2 z z) (b2 z z)/step unsafe b1/step unsafe b2/step safe z/step safe z/step unsafe b2/step safe z/step safe z/theorem t1 stuck/theorem t2 stuck/theorem t3 proved/term gq (b2 z z)/step unsafe gq/step unsafe b2/step safe z/step safe z/end/"
}

#[test]
fn words_are_served_or_usage(rt: HostRuntime) -> Result<(), Fail> {
    let wrong = wrong_rows(&rt, rt.alloc(), Given::Words, command_lines())?;
    assert_eq!(rt; wrong.as_str(), "");
    Ok(())
}

#[test]
fn files_are_answered_by_three_workers(rt: HostRuntime) -> Result<(), Fail> {
    let wrong = wrong_rows(&rt, rt.alloc(), Given::File, files())?;
    assert_eq!(rt; wrong.as_str(), "");
    Ok(())
}

#[test]
fn two_workers_are_at_the_gate_at_once(rt: HostRuntime) -> Result<(), Fail> {
    let gate = Watch::new(Watched::Turns);
    let answer = team_answer(&rt, rt.alloc(), "prove --workers 2", two_subgoals(), &gate)?;
    assert!(rt; answer.as_slice().starts_with(b"0\n"));
    assert!(rt; !gate.is_given_up());
    for turn in 0..3 {
        assert_eq!(rt; gate.count(turn), 1, "turn {turn}");
    }
    assert_eq!(rt; gate.count(3), 0);
    Ok(())
}

#[test]
fn four_workers_are_usual(rt: HostRuntime) -> Result<(), Fail> {
    let gate = Watch::new(Watched::Seats);
    let answer = team_answer(&rt, rt.alloc(), "prove", wide_search(), &gate)?;
    assert!(rt; answer.as_slice().starts_with(b"1\n"));
    assert!(rt; !gate.is_given_up() && gate.have_come());
    assert_eq!(rt; gate.count(4), 0);
    Ok(())
}

#[test]
fn workers_find_what_the_caller_finds_alone(rt: HostRuntime) -> Result<(), Fail> {
    let wrong = wrong_runs(&rt, rt.alloc(), single_proofs(), single_answers(), 200)?;
    assert_eq!(rt; wrong, 0);
    Ok(())
}
