//! What is given and what is wanted: a table of a problem, a budget and moves, `=>`, and what the moves answer.

/// Claims, commits and releases.
pub(crate) fn moves() -> &'static str {
    "\
100 0; 2; claim 0, claim 1 => take 0 row 0, idle 1
100 0; 1; claim 0, claim 1 => take 0 row 0, spent 1
100 0; 2; claim 0, release 0, claim 1, held 0, held 1 => take 0 row 0, released, take 0 row 0, nothing, holds 0
100 0; 1; claim 0, release 0, claim 1, claim 0 => take 0 row 0, released, take 0 row 0, spent 1
100 0; 3; claim 0, commit 0, claim 0, commit 0, claim 0, commit 0, claim 0, verdict => take 0 row 0, children 1+1, take 1 row 0, children 2+1, take 2 row 0, children 3+1, spent 0, undecided
100 0; 1; claim 0, commit 0, claim 0 => take 0 row 0, children 1+1, spent 0
100 0; 2; claim 0, claim 0, commit 1, release 1 => take 0 row 0, busy, nothing, nothing
100 0 1,0|; 2; claim 3, release 3, claim 1, commit 1, events => take 0 row 0, released, take 0 row 0, children 1+2 0+0, , claim 3 0, release 3 0, claim 1 0, commit 1 0 2 0"
}

/// Which nodes are proved and stuck, and which are relevant.
pub(crate) fn marks() -> &'static str {
    "\
; 9; claim 0, commit 0, verdict, claim 0 => take 0 row 0, children, stuck, decided
100; 9; claim 0, commit 0, verdict, claim 0 => take 0 row 0, children 0+0, proved, decided
100 1 1|100; 9; claim 0, commit 0, claim 0, commit 0, verdict, claim 0, commit 0, verdict => take 0 row 0, children 1+2, take 1 row 1, children 0+0, undecided, take 2 row 1, children 0+0, proved
100 1 2||100; 9; claim 0, commit 0, claim 0, commit 0, verdict => take 0 row 0, children 1+2, take 1 row 1, children, stuck
50 1,50 2||100; 9; claim 0, commit 0, claim 0, commit 0, verdict, claim 0, commit 0, verdict => take 0 row 0, children 1+1 2+1, take 1 row 1, children, undecided, take 2 row 2, children 0+0, proved
50 1,50 1|; 9; claim 0, commit 0, claim 0, commit 0, verdict, claim 0, commit 0, verdict => take 0 row 0, children 1+1 2+1, take 1 row 1, children, undecided, take 2 row 1, children, stuck
100 1 2,90 3||100 2|100; 9; claim 0, commit 0, claim 0, commit 0, claim 0, commit 0, verdict => take 0 row 0, children 1+2 3+1, take 1 row 1, children, take 3 row 3, children 0+0, proved
50 1,50 2|100|100; 9; claim 0, commit 0, claim 0, claim 1, commit 0, verdict, claim 0, held 1, commit 1, claim 1 => take 0 row 0, children 1+1 2+1, take 1 row 1, take 2 row 2, children 0+0, proved, decided, holds 2, children 0+0, decided"
}

/// Which node is the best.
pub(crate) fn best() -> &'static str {
    "\
50 1,90 2||; 9; claim 0, commit 0, claim 0 => take 0 row 0, children 1+1 2+1, take 2 row 2
100 1,100 1|100 2|; 9; claim 0, commit 0, claim 0, commit 0, claim 0, claim 1 => take 0 row 0, children 1+1 2+1, take 1 row 1, children 3+1, take 2 row 1, take 3 row 2
100 1,100 1|100 1; 9; claim 0, commit 0, claim 0, claim 1, commit 1, commit 0, claim 0 => take 0 row 0, children 1+1 2+1, take 1 row 1, take 2 row 1, children 3+1, children 4+1, take 4 row 1
0 1,1 2||; 9; claim 0, commit 0, claim 0, claim 1, claim 2 => take 0 row 0, children 1+1 2+1, take 2 row 2, take 1 row 1, idle 2
1 1|1 2|1 3|1 4|1 5|1 6|1 7|1 8|1 9|99 10,100 10|; 19; claim 0, commit 0, claim 0, commit 0, claim 0, commit 0, claim 0, commit 0, claim 0, commit 0, claim 0, commit 0, claim 0, commit 0, claim 0, commit 0, claim 0, commit 0, claim 0, commit 0, claim 0 => take 0 row 0, children 1+1, take 1 row 1, children 2+1, take 2 row 2, children 3+1, take 3 row 3, children 4+1, take 4 row 4, children 5+1, take 5 row 5, children 6+1, take 6 row 6, children 7+1, take 7 row 7, children 8+1, take 8 row 8, children 9+1, take 9 row 9, children 10+1 11+1, take 11 row 10
100 1,100 1|100 2|; 9; claim 0, commit 0, claim 0, release 0, claim 1 => take 0 row 0, children 1+1 2+1, take 1 row 1, released, take 1 row 1"
}

/// Searches in the caller alone.
pub(crate) fn still() -> &'static str {
    "\
100 0; 3 => undecided, claim 0 0, commit 0 0 1, claim 0 1, commit 0 1 1, claim 0 2, commit 0 2 1
100 0; 1 => undecided, claim 0 0, commit 0 0 1
100; 5 => proved by 0, claim 0 0, commit 0 0 0
; 5 => stuck, claim 0 0, commit 0 0
100 1 1|100; 9 => proved by 0, claim 0 0, commit 0 0 2, claim 0 1, commit 0 1 0, claim 0 2, commit 0 2 0
100 1 1|100; 2 => undecided, claim 0 0, commit 0 0 2, claim 0 1, commit 0 1 0
50 1,50 1|; 9 => stuck, claim 0 0, commit 0 0 1 1, claim 0 1, commit 0 1, claim 0 2, commit 0 2
50 1,90 2||100; 9 => proved by 1, claim 0 0, commit 0 0 1 1, claim 0 2, commit 0 2 0
100 1,50,40||; 9 => proved by 1, claim 0 0, commit 0 0 1 0 0"
}
