//! Rows of searches. Given are the numbers of alternatives and of children, the last depth, what its nodes are, at which call of `expand` memory is refused (0: at none), and the budget.

/// What none and one to four workers find.
pub(crate) fn verdicts() -> &'static str {
    "2 1 6 stuck 0 200 => stuck
2 1 6 proved 0 200 => proved
1 2 6 stuck 0 200 => stuck
1 2 6 proved 0 200 => proved
1 2 6 proved 0 126 => undecided
1 2 6 proved 0 127 => proved
2 1 6 stuck 0 126 => undecided
2 1 6 stuck 0 127 => stuck
2 2 4 stuck 0 400 => stuck
2 2 4 proved 0 400 => proved
1 1 40 stuck 0 41 => stuck
1 1 40 proved 0 41 => proved
1 1 40 proved 0 40 => undecided
1 50 1 stuck 0 60 => stuck
1 50 1 proved 0 51 => proved
1 50 1 proved 0 50 => undecided
50 1 1 stuck 0 51 => stuck
50 1 1 stuck 0 50 => undecided
50 1 1 proved 0 60 => proved
0 0 1 proved 0 1 => stuck
3 0 1 stuck 0 1 => proved
1 2 11 proved 0 5000 => proved"
}

/// What two workers find where memory is refused at one call.
pub(crate) fn refusals() -> &'static str {
    "1 2 3 proved 0 100 => proved
1 2 3 proved 1 100 => refused
1 2 3 proved 2 100 => proved
1 2 3 proved 3 100 => proved
1 2 3 proved 4 100 => proved
1 2 3 proved 5 100 => proved
1 2 3 proved 6 100 => proved"
}
