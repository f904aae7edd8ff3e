//! The tables.

use crate::answers::sure_answer;
use crate::ends::{is_writer_filled, reader_words};
use crate::rows::Given;
use std::test::Fail;
use test_rows::wrong_rows;

/// Files that are answered.
fn files() -> &'static str {
    "\
=> 0/aesop 1 budget 1000/end/
family p : type. => 0/aesop 1 budget 1000/end/
family p : type. theorem t : p. => 1/aesop 1 budget 1000/theorem t stuck/claim 0 0/commit 0 0/end/
family p : type. family q : type. const a : p. rule r : unsafe 0 apply a. theorem t : p. theorem u : q. => 1/aesop 1 budget 1000/theorem t proved/term a/step unsafe r/theorem u stuck/claim 0 0/commit 0 0/end/
family p : type. const a : p. rule r : unsafe -0 apply a. rule s : unsafe 0100 apply a. theorem t : p. => 0/aesop 1 budget 1000/theorem t proved/term a/step unsafe s/end/
family rule : type. const unsafe : rule. rule apply : unsafe 1 apply unsafe. theorem theorem : rule. => 0/aesop 1 budget 1000/theorem theorem proved/term unsafe/step unsafe apply/end/
family p : type. family q : type. family r : type. const f : q -> p. const g : r -> p. const c : r. rule f : unsafe 80 apply f. rule g : unsafe 20 apply g. rule c : unsafe 100 apply c. theorem t : p. => 0/aesop 1 budget 1000/theorem t proved/term g c/step unsafe g/step unsafe c/end/
family a : type. family b : type. family c : type. const z : a. const s : a -> a -> b. const k : b -> a -> b -> c. rule z1 : unsafe 1 apply z. rule s1 : unsafe 1 apply s. rule k1 : unsafe 1 apply k. theorem t : c. theorem u : b. => 0/aesop 1 budget 1000/theorem t proved/term k (s z z) z (s z z)/step unsafe k1/step unsafe s1/step unsafe z1/step unsafe z1/step unsafe z1/step unsafe s1/step unsafe z1/step unsafe z1/theorem u proved/term s z z/step unsafe s1/step unsafe z1/step unsafe z1/end/
family \u{e9} : type. => 0/aesop 1 budget 1000/end/
family p : type. % a comment => 0/aesop 1 budget 1000/end/"
}

/// Files that are refused.
fn refused_files() -> &'static str {
    "\
family p : type. const a : p. rule r : unsafe -1 apply a. => 3/refused at 46: bad rule/
family p : type. const p : p. => 3/refused at 23: taken/
const a : p. family p : type. => 3/refused at 10: unknown/
family p : type. const a : p. rule hyps : unsafe 1 apply a. => 3/refused at 35: taken/
family type : type. => 3/refused at 7: expected/
family p : type => 3/refused at 15: expected/
family p : type./const a : p./family q : p -> type./theorem t : q (([x] x) a). => 3/refused at 68: redex/
family p # type. => 3/refused at 9: bad character/
family p : type./theorem t : p => 3/refused at 30: expected/
theorem t : p. => 3/refused at 12: unknown/
family p : type. family p : type. => 3/refused at 24: taken/
family p : type. const a : p. theorem t : p a. => 3/refused at 44: ill typed/
family p : type. const c : p. rule r : unsafe 101 apply c. => 3/refused at 46: bad rule/
~ => 3/refused at 0: not utf-8/
family `256*a` : type. => 3/refused at 7: long name/
family p : type./const a : p./family q : p -> type./theorem t : q `257*(`a`257*)`. => 3/refused at 322: too deep/"
}

/// Files over three families, each with its theorem: which of them are closed, and by which rules.
fn three_families() -> &'static str {
    "\
family p : type. family q : type. family r : type. const cp : p. rule cp : unsafe 50 apply cp. theorem tp : p. theorem tq : q. theorem tr : r. => 1/aesop 1 budget 1000/theorem tp proved/term cp/step unsafe cp/theorem tq stuck/claim 0 0/commit 0 0/theorem tr stuck/claim 0 0/commit 0 0/end/
family p : type. family q : type. family r : type. const cp : p. theorem tp : p. theorem tq : q. theorem tr : r. => 1/aesop 1 budget 1000/theorem tp stuck/claim 0 0/commit 0 0/theorem tq stuck/claim 0 0/commit 0 0/theorem tr stuck/claim 0 0/commit 0 0/end/
family p : type. family q : type. family r : type. const crq : r -> q. const cqp : q -> p. rule crq : unsafe 50 apply crq. rule cqp : unsafe 50 apply cqp. theorem tp : p. theorem tq : q. theorem tr : r. => 1/aesop 1 budget 1000/theorem tp stuck/claim 0 0/commit 0 0 1/claim 0 1/commit 0 1 1/claim 0 2/commit 0 2/theorem tq stuck/claim 0 0/commit 0 0 1/claim 0 1/commit 0 1/theorem tr stuck/claim 0 0/commit 0 0/end/
family p : type. family q : type. family r : type. const cr : r. const crq : r -> q. const cqp : q -> p. rule crq : unsafe 50 apply crq. rule cqp : unsafe 50 apply cqp. rule cr : unsafe 50 apply cr. theorem tp : p. theorem tq : q. theorem tr : r. => 0/aesop 1 budget 1000/theorem tp proved/term cqp (crq cr)/step unsafe cqp/step unsafe crq/step unsafe cr/theorem tq proved/term crq cr/step unsafe crq/step unsafe cr/theorem tr proved/term cr/step unsafe cr/end/
family p : type. family q : type. family r : type. const cqp : q -> p. const crq : r -> q. const cr : r. rule cqp : unsafe 50 apply cqp. rule crq : unsafe 50 apply crq. rule cr : unsafe 50 apply cr. theorem tp : p. theorem tq : q. theorem tr : r. => 0/aesop 1 budget 1000/theorem tp proved/term cqp (crq cr)/step unsafe cqp/step unsafe crq/step unsafe cr/theorem tq proved/term crq cr/step unsafe crq/step unsafe cr/theorem tr proved/term cr/step unsafe cr/end/
family p : type. family q : type. family r : type. const cpp : p -> p. const cp : p. rule cpp : unsafe 50 apply cpp. rule cp : unsafe 50 apply cp. theorem tp : p. theorem tq : q. theorem tr : r. => 1/aesop 1 budget 1000/theorem tp proved/term cp/step unsafe cp/theorem tq stuck/claim 0 0/commit 0 0/theorem tr stuck/claim 0 0/commit 0 0/end/
family p : type. family q : type. family r : type. const cr : r. const crrp : r -> r -> p. rule cr : unsafe 50 apply cr. rule crrp : unsafe 50 apply crrp. theorem tp : p. theorem tq : q. theorem tr : r. => 1/aesop 1 budget 1000/theorem tp proved/term crrp cr cr/step unsafe crrp/step unsafe cr/step unsafe cr/theorem tq stuck/claim 0 0/commit 0 0/theorem tr proved/term cr/step unsafe cr/end/
family p : type. family q : type. family r : type. const cr : r. const crqp : r -> q -> p. rule cr : unsafe 50 apply cr. rule crqp : unsafe 50 apply crqp. theorem tp : p. theorem tq : q. theorem tr : r. => 1/aesop 1 budget 1000/theorem tp stuck/claim 0 0/commit 0 0 2/claim 0 1/commit 0 1 0/claim 0 2/commit 0 2/theorem tq stuck/claim 0 0/commit 0 0/theorem tr proved/term cr/step unsafe cr/end/
family p : type. family q : type. family r : type. const crrqp : r -> r -> q -> p. const cr : r. const cq : q. rule crrqp : unsafe 50 apply crrqp. rule cr : unsafe 50 apply cr. rule cq : unsafe 50 apply cq. theorem tp : p. theorem tq : q. theorem tr : r. => 0/aesop 1 budget 1000/theorem tp proved/term crrqp cr cr cq/step unsafe crrqp/step unsafe cr/step unsafe cr/step unsafe cq/theorem tq proved/term cq/step unsafe cq/theorem tr proved/term cr/step unsafe cr/end/
family p : type. family q : type. family r : type. const cqp : q -> p. const crp : r -> p. const cr : r. rule cqp : unsafe 50 apply cqp. rule crp : unsafe 50 apply crp. rule cr : unsafe 50 apply cr. theorem tp : p. theorem tq : q. theorem tr : r. => 1/aesop 1 budget 1000/theorem tp proved/term crp cr/step unsafe crp/step unsafe cr/theorem tq stuck/claim 0 0/commit 0 0/theorem tr proved/term cr/step unsafe cr/end/"
}

/// Files that are long, or whose answers are.
fn long_files() -> &'static str {
    "\
`4194304* ` => 0/aesop 1 budget 1000/end/
`4194305* ` => 5/refused: input too long/
family p0 : type. const c0 : p0. rule r0 : unsafe 50 apply c0. `400*family p$ : type. const c$ : p@ -> p$. rule r$ : unsafe 50 apply c$. `theorem t : p400. => 0/aesop 1 budget 1000/theorem t proved/term c400`399* (c&` c0`399*)``400*/step unsafe r&`/step unsafe r0/end/"
}

/// Command lines, with a file that is refused: those that are not served are answered by the usage line.
fn command_lines() -> &'static str {
    "\
=> 4/usage: aesop prove [--workers N] [--budget N] [--trace] | check | gen N | big N/
prove => 4/usage: aesop prove [--workers N] [--budget N] [--trace] | check | gen N | big N/
prove --workers => 4/usage: aesop prove [--workers N] [--budget N] [--trace] | check | gen N | big N/
prove --workers 1 => 4/usage: aesop prove [--workers N] [--budget N] [--trace] | check | gen N | big N/
prove --workers 0 --budget => 4/usage: aesop prove [--workers N] [--budget N] [--trace] | check | gen N | big N/
prove --workers 0 --budget 0 => 4/usage: aesop prove [--workers N] [--budget N] [--trace] | check | gen N | big N/
prove --workers 0 --budget 50001 => 4/usage: aesop prove [--workers N] [--budget N] [--trace] | check | gen N | big N/
prove --workers 0 --budget 000001 => 4/usage: aesop prove [--workers N] [--budget N] [--trace] | check | gen N | big N/
prove --workers 0 --budget -1 => 4/usage: aesop prove [--workers N] [--budget N] [--trace] | check | gen N | big N/
prove --workers 0 --budget 1x => 4/usage: aesop prove [--workers N] [--budget N] [--trace] | check | gen N | big N/
prove --workers 0 --trace --trace => 4/usage: aesop prove [--workers N] [--budget N] [--trace] | check | gen N | big N/
prove --workers 0 --budget 3 --budget 3 => 4/usage: aesop prove [--workers N] [--budget N] [--trace] | check | gen N | big N/
prove --trace => 4/usage: aesop prove [--workers N] [--budget N] [--trace] | check | gen N | big N/
--workers 0 => 4/usage: aesop prove [--workers N] [--budget N] [--trace] | check | gen N | big N/
check => 4/usage: aesop prove [--workers N] [--budget N] [--trace] | check | gen N | big N/
gen 1 => 4/usage: aesop prove [--workers N] [--budget N] [--trace] | check | gen N | big N/
big 1 => 4/usage: aesop prove [--workers N] [--budget N] [--trace] | check | gen N | big N/
--help => 4/usage: aesop prove [--workers N] [--budget N] [--trace] | check | gen N | big N/
prove --workers 0 => 3/refused at 6: expected/
prove --workers 0 --trace => 3/refused at 6: expected/
prove --workers 0 --budget 1 => 3/refused at 6: expected/
prove --workers 0 --budget 50000 => 3/refused at 6: expected/
prove --workers 0 --budget 00007 => 3/refused at 6: expected/
prove --workers 0 --budget 1000 --trace => 3/refused at 6: expected/
prove --workers 0 --trace --budget 3 => 3/refused at 6: expected/
prove --workers=0 => 3/refused at 6: expected/
prove --workers 00 => 3/refused at 6: expected/"
}

/// Ends that fail.
fn faults() -> &'static str {
    "\
8 1 100 1000 => 6/
8 1000 0 1000 => 7/
8 1000 100 1 => 7/aesop 1 budget 1000/"
}

fn reads() -> &'static str {
    "\
20 64 9 20 => ok 0
20 64 9 19 => long 0
20 8 9 20 => ok 0
20 8 1 20 => fault 12
20 8 9 7 => long 12
0 8 9 0 => ok 0
0 8 0 0 => fault 0"
}

fn writes() -> &'static str {
    "\
20 20 8 9 => ok 20
20 64 8 1 => fault 8
20 10 8 9 => took0 10
20 64 0 9 => took0 0
0 0 0 0 => ok 0"
}

#[test]
fn files_are_answered(rt: HostRuntime) -> Result<(), Fail> {
    let wrong = wrong_rows(rt.alloc(), &Given::File, files())?;
    assert_eq!(rt; wrong.as_str(), "");
    Ok(())
}

#[test]
fn families_are_closed_by_their_rules(rt: HostRuntime) -> Result<(), Fail> {
    let wrong = wrong_rows(rt.alloc(), &Given::File, three_families())?;
    assert_eq!(rt; wrong.as_str(), "");
    Ok(())
}

#[test]
fn files_are_refused(rt: HostRuntime) -> Result<(), Fail> {
    let wrong = wrong_rows(rt.alloc(), &Given::File, refused_files())?;
    assert_eq!(rt; wrong.as_str(), "");
    Ok(())
}

#[test]
fn long_files_are_answered(rt: HostRuntime) -> Result<(), Fail> {
    let wrong = wrong_rows(rt.alloc(), &Given::LongFile, long_files())?;
    assert_eq!(rt; wrong.as_str(), "");
    Ok(())
}

#[test]
fn words_are_served_or_usage(rt: HostRuntime) -> Result<(), Fail> {
    let wrong = wrong_rows(rt.alloc(), &Given::Words, command_lines())?;
    assert_eq!(rt; wrong.as_str(), "");
    Ok(())
}

#[test]
fn faults_have_their_statuses(rt: HostRuntime) -> Result<(), Fail> {
    let wrong = wrong_rows(rt.alloc(), &Given::Faults, faults())?;
    assert_eq!(rt; wrong.as_str(), "");
    Ok(())
}

#[test]
fn sources_are_read_to_their_end(rt: HostRuntime) -> Result<(), Fail> {
    let wrong = wrong_rows(rt.alloc(), &Given::Reads, reads())?;
    assert_eq!(rt; wrong.as_str(), "");
    Ok(())
}

#[test]
fn pieces_are_written_whole(rt: HostRuntime) -> Result<(), Fail> {
    let wrong = wrong_rows(rt.alloc(), &Given::Writes, writes())?;
    assert_eq!(rt; wrong.as_str(), "");
    Ok(())
}

#[test]
fn sure_ends_take_the_first_file(rt: HostRuntime) -> Result<(), Fail> {
    let answer = sure_answer(rt.alloc())?;
    let wanted =
        b"0\naesop 1 budget 1000\ntheorem t proved\nterm a\nstep unsafe ra\nend\n".as_slice();
    assert!(rt; answer.as_slice() == wanted);
    Ok(())
}

#[test]
fn readers_and_writers_are_ends(rt: HostRuntime) {
    assert_eq!(rt; reader_words(rt.alloc()), ["ok", "fault"]);
    assert!(rt; is_writer_filled());
}
