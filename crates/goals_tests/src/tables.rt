//! The tables: what is given, `=>`, and what is wanted. `reading` says how terms are written, and `shapes` what the letters take.

/// The rows that were asked for: context, goals, frozen numbers and equations.
pub(crate) fn asked_for() -> &'static str {
    "\
| 0:n, 1:n | | e ?0 ?0 = e ?1 (s ?1) => Occurs 1
| 0:n, 1:n | | k z = k (s z) => Clash 0 0
{n} | 0:n, 1:n | | k ?0 = k 0 => Escapes 0 0
| 0:n, 1:n | | k ?0 = k (s z) => Solved ?0=s z;
| 0:n, 1:n | 0 | k ?0 = k (s z) => NotPattern 0 0"
}

/// Equations that are solved, the newest entry first. Before a body stand the shapes of its context.
pub(crate) fn solved() -> &'static str {
    "\
| 0:n | 0 | k ?0 = k ?0 => Solved
| 0:{n}n | | k (?0 z) = k (?0 z) => Solved
| 0:n, 1:n | | e ?0 ?1 = e (s ?1) z => Solved ?1=z; ?0=s z;
| 0:n, 1:n, 2:n | | k ?0 = k (s ?1), k ?1 = k (s ?2), k ?2 = k z => Solved ?2=z; ?1=s z; ?0=s (s z);
| 0:n, 1:n | 0 | k ?0 = k ?1 => Solved ?1=?0;
{n} | 0:n, 1:{n}n | | k ?0 = k (?1 0) => Solved ?1.=?0;
{n}{n} | 0:{n}{n}n | | k (?0 0 1) = k (a 1 0) => Solved ?0..=a 0 1;
{n}{n} | 0:{n}n | | k (?0 1) = k (l (\\ a 0 2)) => Solved ?0.=l (\\a 0 1);
{n}{n} | 0:{n}{n}n, 1:{n}{n}n | | k (?0 0 1) = k (?1 1 0) => Solved ?0..=?1 0 1;
{n} | 0:{n}n | | e (?0 0) (?0 z) = e (s 0) (s z) => Solved ?0.=s 0;
{n}{g 0}{w 1 0} | 0:{n}{g 0}n | | k (?0 2 1) = k (a 2 2) => Solved ?0..=a 1 1;
{n}{g 0} | 0:{n}g 0 | | w 1 (?0 1) = w 1 (c 1) => Solved ?0.=c 0;
{n}{{n}n} | 0:{{n}n}n | | k (?0 (\\ 1 0)) = k (0 z) => Solved ?0(.)=0 z;
{{n}n}{n} | 0:{n}{{n}n}n | | k (?0 0 (\\ 2 0)) = k (1 0) => Solved ?0.(.)=0 1;
{{n}n} | 0:{n}{{n}n}n | | h (\\ ?0 0 (\\ 2 0)) = h (\\ 1 (s 0)) => Solved ?0.(.)=0 (s 1);
{{{n}n}n} | 0:{{{n}n}n}n | | k (?0 (\\ 1 (\\ 1 0))) = k (0 (\\ s 0)) => Solved ?0(.)=0 (\\s 0);"
}

/// Equations that clash, and those in which a metavariable occurs in what it would have to be.
pub(crate) fn without_solution() -> &'static str {
    "\
| | | k z = g z => Clash 0
| | | k z = k z, k z = g z => Clash 1
| | | h (\\ s 0) = h (\\ 0) => Clash 0 0 0
| | | e z (l (\\ a 0 z)) = e z (l (\\ a 0 (s 0))) => Clash 0 1 0 0 1
{n}{n} | | | k 0 = k 1 => Clash 0 0
{n}{g 0} | | | w 1 0 = w 1 (c 1) => Clash 0 1
| 0:n | | e ?0 ?0 = e z (s z) => Clash 0 1
| 0:n | 0 | e z ?0 = e (s z) z => Clash 0 0
{n} | 0:{n}n | | e (?0 0) (?0 z) = e (s 0) (s (s z)) => Clash 0 1 0
{{n}n}{n} | 0:{{n}n}n | | e (?0 (\\ 2 0)) (?0 (\\ s 0)) = e (1 z) z => Clash 0 1
| 0:n | | k ?0 = k (s ?0) => Occurs 0
| 0:n, 1:n | | e ?0 ?1 = e (s ?1) (s ?0) => Occurs 1
| 0:n | | k (a z (l (\\ ?0))) = k ?0 => Occurs 0
| 0:{n}n | | h (\\ ?0 0) = h (\\ s (?0 0)) => Occurs 0
| 0:{n}n, 1:n | | h (\\ ?0 0) = h (\\ a 0 ?1), k ?1 = k (?0 z) => Occurs 1
{n}{n} | 0:{n}{n}n | | k (?0 1 0) = k (s (?0 0 1)) => Occurs 0
{n}{g 0} | 0:{n}{g 0}n | | k (?0 1 0) = k (s (?0 1 0)) => Occurs 0
| 0:n, 1:n | 1 | e ?1 ?0 = e ?1 (s ?0) => Occurs 0
{{n}n} | 0:{{n}n}n | | k (?0 (\\ 1 0)) = k (0 (?0 (\\ 1 0))) => Occurs 0
{{n}n} | 0:{{n}n}n | | k (?0 (\\ 1 0)) = k (l (\\ 1 (?0 (\\ 2 0)))) => Occurs 0"
}

/// Equations that are refused, though they may have solutions.
pub(crate) fn refused() -> &'static str {
    "\
| 0:n | | h (\\ ?0) = h (\\ s 0) => Escapes 0 0 0
{n} | 0:n | | k ?0 = k (l (\\ a 0 1)) => Escapes 0 0
{n}{n} | 0:{n}n | | k (a 0 z) = k (?0 1) => Escapes 0 0
{n}{n} | 0:{n}n, 1:{n}n | | k (?0 0) = k (a (?1 1) 1) => Escapes 0 0
{n} | 0:n, 1:n | 1 | k ?0 = k (a ?1 0) => Escapes 0 0
{n}{g 0}{n} | 0:{n}n | | e z (?0 2) = e z (s 0) => Escapes 0 1
{n}{g 0}{n} | 0:{n}g 0 | | w 2 (?0 0) = w 2 1 => Escapes 0 1
| 0:{n}n | | h (\\ l (\\ ?0 0)) = h (\\ l (\\ 1)) => Escapes 0 0 0 0 0
{n}{{n}n} | 0:{{n}n}n | | k (?0 (\\ 1 0)) = k (0 1) => Escapes 0 0
{{n}n} | 0:{n}n | | h (\\ ?0 0) = h (\\ 1 0) => Escapes 0 0 0
{n}{n} | 0:{n}{n}n | | k (?0 1 0) = k (?0 0 1) => Prune 0 0
{n} | 0:{n}n | | k (?0 0) = k (?0 z) => Prune 0 0
{n} | 0:n, 1:{n}n | | k ?0 = k (s (?1 0)) => Prune 0 0
{n} | 0:n, 1:{n}n | 1 | k ?0 = k (?1 0) => Prune 0 0
| 0:n, 1:{n}n | | h (\\ ?0) = h (\\ s (?1 0)) => Prune 0 0 0
{n}{g 0} | 0:{n}n, 1:{n}{g 0}n | | e z (?0 1) = e z (s (?1 1 0)) => Prune 0 1
| 0:{n}{n}n | | h (\\ l (\\ ?0 1 0)) = h (\\ l (\\ ?0 0 1)) => Prune 0 0 0 0 0
{{n}n} | 0:n, 1:{{n}n}n | | k ?0 = k (s (?1 (\\ 1 0))) => Prune 0 0
| 0:{n}n | | k (?0 z) = k z => NotPattern 0 0
| 0:{n}n | | k z = k (?0 z) => NotPattern 0 0
{n} | 0:{n}n | | k (?0 z) = k (?0 0) => NotPattern 0 0
{n} | 0:{n}{n}n | | k (?0 0 0) = k 0 => NotPattern 0 0
{n} | 0:{n}n | | k (?0 0) = k (s (?0 z)) => NotPattern 0 0
| 0:{n}{n}n | | h (\\ ?0 0 (s 0)) = h (\\ 0) => NotPattern 0 0 0
{n}{g 0} | 0:{n}{g 0}n | | k (?0 1 (c 1)) = k z => NotPattern 0 0
{{n}n} | 0:{{n}n}n | | k (?0 (\\ 1 z)) = k z => NotPattern 0 0
| 0:n, 1:n | 0 1 | e z ?0 = e z ?1 => NotPattern 0 1
| 0:n, 1:n | 1 | e ?0 ?1 = e ?1 (s ?0) => NotPattern 0 1
| 0:n | 0 | e ?0 z = e z (s z) => NotPattern 0 0
{n} | 0:n | 0 | k ?0 = k 0 => NotPattern 0 0
| 0:n | 0 | k z = k z, h (\\ ?0) = h (\\ z) => NotPattern 1 0 0"
}

/// Instances of terms, after the equations before them.
pub(crate) fn terms() -> &'static str {
    "\
{n} | 0:{n}n, 1:n | | e (?0 0) ?1 = e (s 0) z | a (?0 ?1) (?0 (s 0)) => a (s z) (s (s 0))
{n} | 0:{n}n, 1:n, 2:{n}{g 0}n | | k (?0 0) = k (s 0) | l (\\ a (?0 0) (?2 (?0 1) (c (?0 1)))) => l (\\a (s 0) (?2 (s 1) (c (s 1))))
{n} | 0:{n}n | | k (?0 0) = k (s 0) | a 0 (l (\\ 1)) => a 0 (l (\\1))
{{n}n}{n} | 0:{{n}n}n | | k (?0 (\\ 2 0)) = k (1 (1 z)) | ?0 (\\ 0) => z
{{n}n}{n} | 0:{{n}n}n | | k (?0 (\\ 2 0)) = k (1 (1 z)) | ?0 (\\ a 0 1) => a (a z 0) 0
{{n}n}{n} | 0:{{n}n}n | | k (?0 (\\ 2 0)) = k (1 (1 z)) | ?0 (\\ l (\\ a 0 1)) => l (\\a 0 (l (\\a 0 z)))"
}

/// Instances of the arguments of a family.
pub(crate) fn args() -> &'static str {
    "{n} | 0:{n}n, 1:n | | e (?0 0) ?1 = e (s 0) z | e (?0 0) ?1 => args (s 0) z"
}

/// Instances of a family with its arguments.
pub(crate) fn atoms() -> &'static str {
    "{n} | 0:{n}n, 1:n | | e (?0 0) ?1 = e (s 0) z | w (?0 ?1) (c (s ?1)) => w (s z) (c (s z))"
}

/// Instances of types.
pub(crate) fn types() -> &'static str {
    "\
{n} | 0:{n}n, 1:n | | e (?0 0) ?1 = e (s 0) z | {n}{g (?0 0)} w (?0 1) 0 => {n}{g (s 0)}w (s 1) 0
{n} | 0:{n}n, 1:n | | e (?0 0) ?1 = e (s 0) z | {{n} g (?0 0)} k (?0 ?1) => {{n}g (s 0)}k (s z)
{n} | 0:{n}n | | k (?0 0) = k (s 0) | {{n}g 0} k 1 => {{n}g 0}k 1"
}

/// Instances of contexts.
pub(crate) fn contexts() -> &'static str {
    "{n} | 0:{n}n, 1:n | | e (?0 0) ?1 = e (s 0) z | {g ?1}{w ?1 0}{{n} g (?0 0)} => {g z}{w z 0}{{n}g (s 0)}"
}

/// Instances of a goal.
pub(crate) fn goals() -> &'static str {
    "\
{n} | 0:{n}n, 1:n | | e (?0 0) ?1 = e (s 0) z | {n}{g (?0 0)} k (?0 1) => 7:{n}{g (s 0)}k (s 1)
{n} | 0:{n}n, 1:n | | e (?0 0) ?1 = e (s 0) z | g ?1 => 7:g z"
}

/// What an assignment leaves of a list of goals.
pub(crate) fn left() -> &'static str {
    "\
{n} | 0:{n}n, 2:{n}{g (?0 0)} k (?0 1); 1:n, 3:g ?1 | | e (?0 0) ?1 = e (s 0) z => ,2:{n}{g (s 0)}k (s 1);,3:g z
| 0:n, 1:k ?0; 2:{g ?0} n | 0 | e ?0 z = e ?0 z => ,0:n,1:k ?0;,2:{g ?0}n"
}

/// A goal, and whether it mentions the metavariable of a number.
pub(crate) fn mentioned() -> &'static str {
    "\
2:{n}{g (?0 0)} k 1 | 0 => it does
2:{n}{g (?0 0)} k 1 | 1 => it does not
2:n | 2 => it does not
0:{n} k (s (?3 0)) | 3 => it does
0:h (\\ ?1 0) | 1 => it does
0:{{g ?4}n} n | 4 => it does
0:k (?1 ?2) | 2 => it does
0:k (?1 ?2) | 3 => it does not"
}

/// Two proof goals and a witness.
pub(crate) fn renamed() -> &'static str {
    "\
7:n, 2:{n} k ?7, 5:{g ?7} h (\\ ?2 0) => ,0:n,1:{n}k ?0;,2:{g ?0}h (\\?1 0) 7-0 2-1 5-2
0:n, 1:k ?0, 2:k ?1 => ,0:n,1:k ?0;,2:k ?1 0-0 1-1 2-2
1:k ?2, 2:n, 0:k ?1 => ,0:k ?1,1:n;,2:k ?0 1-0 2-1 0-2"
}

/// The terms, the fresh goals and the conclusion of the one type that is opened.
pub(crate) fn opened() -> &'static str {
    " 1 (?7 3 2 (\\1 0)) (?8 3 2 (\\1 0)) (\\?9 4 3 (\\2 0) 0);,7:{a}{b 0}{{a}c 2 1}a,8:{a}{b 0}{{a}c 2 1}b (?7 2 1 (\\1 0)),9:{a}{b 0}{{a}c 2 1}{a}d 0 (?7 3 2 (\\2 0));d 1 (?7 3 2 (\\1 0))"
}
