//! The tables of applications and of look-ups: a program, a theorem and a rule, `=>`, and what is wanted. A variable is how many binders stand
//! between.

/// Constants that close a goal, and lists of them: conclusions that fit, that clash, that are no pattern, and that mention too few variables.
pub(crate) fn constants() -> &'static str {
    "\
witnesses t ex => ex.0: ex ?1 ?2 ?3, proof 2 p ?1, proof 3 q ?1, witness 1 i
witnesses under ex => ex.0: ex (?1 0) (?2 0) (?3 0), proof 2 {i} p (?1 0), proof 3 {i} q (?1 0), witness 1 {i} i
witnesses one pb => pb.0: pb
witnesses one pa => none
witnesses any pa => none
witnesses other pb => none
witnesses other qb => qb.0: qb
patterns constant kc => kc.0: kc a
patterns constant kf => none
patterns same kc => none
patterns same kl => kl.0: kl ([] 0) ([] ?2 0), proof 2 {i} t 0
constructors t nat => nat.0: z; nat.1: s ?1, proof 1 nat
constructors zero t => t.0: tz; t.2: tx z
constructors any t => t.2: tx 0
constructors any tx => tx.0: tx 0
constructors t tx => none
premises closed adep => adep.0: dep ?1 ?2 ?3, proof 3 d ?1 ?2, witness 1 a, witness 2 p ?1"
}

/// Hypotheses that close a goal, oldest first.
pub(crate) fn hypotheses() -> &'static str {
    "\
hypotheses arrow assumption => none
hypotheses arrow hyps => hyps.0 on 0: 1 (?1 ([] 2 0) 0), proof 1 {{p} q} {p} p
hypotheses some assumption => assumption.0 on 0: 3; assumption.0 on 3: 0
hypotheses some hyps => hyps.0 on 2: 1 (?1 3 2 ([] 2 0) 0), proof 1 {p} {q} {{p} p} {p} p
hypotheses two hyps => hyps.0 on 0: 1 (?1 ([] 2 0) ([] [] 2 1 0)), proof 1 {{p} q} {{p} {p} q} p; hyps.0 on 1: 0 (?1 ([] 2 0) ([] [] 2 1 0)) (?2 ([] 2 0) ([] [] 2 1 0)), proof 1 {{p} q} {{p} {p} q} p, proof 2 {{p} q} {{p} {p} q} p
hypotheses all assumption => none
hypotheses all hyps => hyps.0 on 0: 0 a
hypotheses open hyps => hyps.0 on 0: 0 (?1 ([] [] 2 1 0)) (?2 ([] [] 2 1 0)), proof 2 {{i} {r 0} p} r (?1 ([] [] 2 1 0)), witness 1 {{i} {r 0} p} i
hypotheses mentioned assumption => assumption.0 on 1: 1
hypotheses missed assumption => none
hypotheses missed hyps => none"
}

/// Hypotheses that are split: dropped where all conditions hold, and kept where another hypothesis mentions them, a later argument mentions
/// the major one, or the target alone mentions them.
pub(crate) fn splits() -> &'static str {
    "\
induction all ind => ind.0 on 0: ind ([] good 0) ?2 ([] [] ?3 1 0) 0, proof 2 prf (good z), proof 3 {nat} {prf (good 0)} prf (good (s 1))
induction zero ind => ind.0 on 0: ind ([] good z) ?2 ([] [] ?3 1 0) 0, proof 2 prf (good z), proof 3 {nat} {prf (good z)} prf (good z)
induction all gz => none
splitting plain e => e.0 on 0: e 0 ([] ?1 0), proof 1 {b} g
splitting mentioned e => e.0 on 0: e 1 ([] ?1 2 1 0), proof 1 {a} {p 0} {b} g
splitting plain f => f.0 on 0: f 0 (?1 0), proof 1 {a} p 0
splitting aimed h => h.0 on 0: h 0 0
splitting twice e => e.0 on 0: e 1 ([] ?1 1 0), proof 1 {a} {b} g; e.0 on 1: e 0 ([] ?1 2 0), proof 1 {a} {b} g
splitting other e => none
splitting arrow e => none
splitting target e => none
splitting between e => e.0 on 0: e 2 ([] ?1 3 2 1 0), proof 1 {a} {a} {p 1} {b} g; e.0 on 1: e 1 ([] ?1 3 1 0), proof 1 {a} {p 0} {b} g
splitting inside e => e.0 on 0: e 1 ([] ?1 2 ([] 2 0) 0), proof 1 {a} {{p 0} b} {b} g
premises last cdep => cdep.0 on 2: dep 2 1 0
premises middle ydep => ydep.0 on 1: dep 1 0 (?2 1 0), proof 2 {a} {p 0} d 1 0
premises closed cdep => none"
}

/// Conclusions that are added where no hypothesis has their type. Destruct looks at those hypotheses that it keeps, and drops none that the
/// target, the conclusion or a hypothesis mentions. Every other argument is assigned by the premises, in the lexicographic order of their
/// hypotheses.
pub(crate) fn additions() -> &'static str {
    "\
conclusions t pq => pq.0 on 0: ?1 0 (pq 0), proof 1 {p} {q} q
conclusions after pq => none
conclusions t dpq => dpq.0 on 0: ?1 (pq 0), proof 1 {q} q
conclusions after dpq => none
conclusions same l => l.0 on 0: ?1 (l 0), proof 1 {p} p
conclusions same fl => none
conclusions arrow pq => none
conclusions arrow dpq => none
conclusions binders pq => pq.0 on 0: ?1 1 ([] 1 0) (pq 1), proof 1 {p} {{p} q} {q} q
conclusions binders dpq => dpq.0 on 0: ?1 ([] 1 0) (pq 1), proof 1 {{p} q} {q} q
dependent t d => none
dependent plain d => d.0 on 0: ?1 (d 0), proof 1 {e} e
dependent target d => none
dependent target fd => fd.0 on 0: ?1 0 (d 0), proof 1 {nat} {e} q 1
dependent other d => none
dependent other m => none
dependent kept m => m.0 on 1,2: ?2 2 (m 2 1 0), proof 2 {nat} {r 0} e
dependent other w => w.0 on 1: ?2 1 0 (w 1 0), proof 2 {nat} {q 0} {e} e
dependent given u => none
dependent given du => none
premises both four => four.0 on 0,1,0,1: ?1 1 0 (four 1 0 1 0), proof 1 {a} {b} {c} g
premises both dfour => dfour.0 on 0,1,0,1: ?1 (four 1 0 1 0), proof 1 {c} g
premises both pair => pair.0 on 0,0: ?1 1 0 (pair 1 1), proof 1 {a} {b} {c} g
premises twice pair => pair.0 on 0,0: ?1 1 0 (pair 1 1), proof 1 {a} {a} {c} g; pair.0 on 0,1: ?1 1 0 (pair 1 0), proof 1 {a} {a} {c} g; pair.0 on 1,0: ?1 1 0 (pair 0 1), proof 1 {a} {a} {c} g; pair.0 on 1,1: ?1 1 0 (pair 0 0), proof 1 {a} {a} {c} g
premises twice four => none
premises twice dpair => dpair.0 on 0,0: ?1 0 (pair 1 1), proof 1 {a} {c} g; dpair.0 on 0,1: ?1 (pair 1 0), proof 1 {c} g; dpair.0 on 1,0: ?1 (pair 0 1), proof 1 {c} g; dpair.0 on 1,1: ?1 1 (pair 0 0), proof 1 {a} {c} g
premises found dep => dep.0 on 2: ?3 2 1 0 (dep 2 1 0), proof 3 {a} {p 0} {d 1 0} {c} g
premises found ddep => ddep.0 on 2: ?3 2 1 (dep 2 1 0), proof 3 {a} {p 0} {c} g"
}

/// Rules that the ends of theorems find: those that fit all, and those of a family whose constants the target has or leaves open.
pub(crate) fn lookups() -> &'static str {
    "\
witnesses one => assumption hyps pb
witnesses t => assumption ex hyps
witnesses any => assumption hyps
keys one => ij assumption hyps paf p e
keys two => ij assumption hyps pva p
keys three => ij assumption hyps pva p
keys four => ij assumption hyps p e
keys five => ij assumption hyps ka
keys six => ij assumption hyps"
}
