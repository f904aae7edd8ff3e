//! The tables: a program, a theorem and more, `=>`, and what is wanted. A variable is how many binders stand between.

/// Steps that close the goal, and steps that are not lawful: with two goals, with a witness, or with another goal assigned. The rule that comes
/// first is taken, and of that rule its first lawful step, a hundred times at most. Added conclusions assign no goal.
pub(crate) fn normal_forms() -> &'static str {
    "\
endless t => open`100* l.0 on 0`, proof 100 {p} p
normalising closed => closed tt.0
normalising boxed => closed wrap.0 tt.0
normalising first => open, proof 0 g
normalising first 0 => closed tt.0, proof 2 h
normalising pairs => open, proof 0 k
normalising witness => open, proof 0 w
normalising shared 0 => open, proof 2 p ?1, proof 3 q ?1, witness 1 i
normalising second => closed c.1 tt.0
normalising order => closed fast.0
frozen t 0 => open any.0 on 0, proof 4 {p ?1} {q ?1} h, witness 1 i"
}

/// The step after normalisation: the first safe one that assigns no other goal, and else all, by falling percentages, then by rising numbers of
/// rules, then in each rule's own order. Where `2=pb` puts a head of another type for a goal, a rule would assign a witness of a wrong type, and
/// after `1=?2` it would assign a goal to what mentions it.
pub(crate) fn alternatives() -> &'static str {
    "\
endless t => 100 norm`100* l.0 on 0` safe assumption.0 on 0
onward t => 100 norm pq.0 on 0 safe assumption.0 on 1
onward t 0 => none
conjunction swap => 100 safe and_i.0, proof 3 {o} {o} {prf 1} {prf 1} prf 2, proof 4 {o} {o} {prf 1} {prf 1} prf 3
conjunction swap 0 => 100 safe assumption.0 on 3, proof 4 {o} {o} {prf 1} {prf 1} prf 3
conjunction swap 0 0 => 100 safe assumption.0 on 2
witnesses t => 100 unsafe ex.0, proof 2 p ?1, proof 3 q ?1, witness 1 i
witnesses t 0 => 90 late pa.0, proof 3 q a; 50 unsafe pb.0, proof 3 q b
witnesses t 0 0 => none
witnesses t 0 1 => 100 safe qb.0
untouched t 0 => 100 safe any.0, proof 3 q ?1, witness 1 i
untouched t 0 0 => none
ties t 0 => 95 unsafe high.0, proof 3 q c; 90 unsafe pb.0, proof 3 q b; 90 late pa.0, proof 3 q a; 90 unsafe pc.0, proof 3 q c; 90 late soon.0, proof 3 q b; 60 unsafe p.0, proof 3 q a; 60 unsafe p.1, proof 3 q b; 60 unsafe p.2, proof 3 q c; 40 unsafe low.0, proof 3 q a
ties hypothesis => 75 unsafe hyps.0 on 0, proof 1 {{r} r} r; 75 unsafe rr.0, proof 1 {{r} r} r
ties number => 60 unsafe nat.0; 60 unsafe nat.1, proof 1 nat
ties committed => 100 safe m.0
normalising closed => 100 norm tt.0 done
normalising boxed => 100 norm wrap.0 tt.0 done
normalising first => 100 safe two.0, proof 1 top, proof 2 h
normalising first 0 => 100 norm tt.0 done, proof 2 h
normalising first 0 0 => none
normalising pairs => none
normalising witness => none
normalising shared => 100 safe ex.0, proof 2 p ?1, proof 3 q ?1, witness 1 i
normalising shared 0 => none
frozen t 0 => 50 norm any.0 on 0 unsafe qa.0, proof 5 {p ?1} {q ?1} q a, witness 1 i
frozen t 0 0 => 90 late assumption.0 on 1
dependent t => 100 safe assumption.0 on 1
linked lonely 0 0 => none
linked only 0 0 => 80 unsafe b.0
linked starred 0 => 70 unsafe pq.0, proof 7 q ?6, proof 3 q ?1, proof 4 r ?1, witness 1 i, witness 6 i
linked nested 0 => 30 unsafe dd.0, witness 1 i, witness 2 p ?1
linked nested 0 1=b 2=pb => 30 unsafe dd.0
linked nested 0 2=pb => none
untouched t 0 1=?2 => none"
}

/// Goals that stand together, with their old numbers and their new ones.
pub(crate) fn clusters() -> &'static str {
    "\
linked chained => cluster, proof 0 chained, 0 to 0
linked chained 0 => cluster, proof 0 p ?4, proof 1 e ?4 ?5, proof 2 e ?5 ?6, proof 3 q ?6, witness 4 i, witness 5 i, witness 6 i, 4 to 0, 5 to 1, 6 to 2, 7 to 3, 1 to 4, 2 to 5, 3 to 6
linked nested 0 => cluster, proof 0 d ?1 ?2, witness 1 i, witness 2 p ?1, 3 to 0, 1 to 1, 2 to 2
linked starred 0 => cluster, proof 0 p ?3, proof 1 q ?3, proof 2 r ?3, witness 3 i, 2 to 0, 3 to 1, 4 to 2, 1 to 3
linked starred 0 0 => cluster, proof 0 q ?1, witness 1 i, 7 to 0, 6 to 1; cluster, proof 0 q ?2, proof 1 r ?2, witness 2 i, 3 to 0, 4 to 1, 1 to 2
linked under 0 => cluster, proof 0 {i} p (?3 0), proof 1 {i} q (?3 0), proof 2 {i} r (?3 0), witness 3 {i} i, 2 to 0, 3 to 1, 4 to 2, 1 to 3
linked dealt 0 => cluster, proof 0 p ?2, proof 1 q ?2, witness 2 i, 3 to 0, 5 to 1, 1 to 2; cluster, proof 0 p ?2, proof 1 q ?2, witness 2 i, 4 to 0, 7 to 1, 2 to 2; cluster, proof 0 h, 6 to 0
linked joined 0 => cluster, proof 0 p ?3, proof 1 p ?4, proof 2 e ?3 ?4, witness 3 i, witness 4 i, 3 to 0, 4 to 1, 6 to 2, 1 to 3, 2 to 4; cluster, proof 0 h, 5 to 0
linked bound 0 => cluster, proof 0 {p ?1} h, witness 1 i, 2 to 0, 1 to 1; cluster, proof 0 k, 3 to 0
linked loose 0 => cluster, proof 0 h, 1 to 0; cluster, proof 0 k, 2 to 0; cluster, proof 0 h, 3 to 0
linked lonely 0 => cluster, proof 0 s ?1, witness 1 i, 2 to 0, 1 to 1; cluster, proof 0 h, 3 to 0
linked lonely 0 0 => cluster, proof 0 h, 3 to 0; cluster, witness 0 i, 1 to 0
linked unit 0 => none
conjunction swap 0 => cluster, proof 0 {o} {o} {prf 1} {prf 1} prf 2, 3 to 0; cluster, proof 0 {o} {o} {prf 1} {prf 1} prf 3, 4 to 0
witnesses t 0 => cluster, proof 0 p ?2, proof 1 q ?2, witness 2 i, 2 to 0, 3 to 1, 1 to 2
witnesses t 0 0 => cluster, proof 0 q a, 3 to 0
witnesses t 0 1 0 => none"
}

/// Whole scripts, and those that end early or late or take a step that is not there.
pub(crate) fn scripts() -> &'static str {
    "\
conjunction swap safe and_i; safe assumption@3; safe assumption@2 => [] [] [] [] and_i 2 3 0 1
conjunction swap => goals left after 0
conjunction swap safe and_i => goals left after 1
conjunction swap safe and_i; safe assumption@3 => goals left after 2
conjunction swap safe and_i; safe assumption@3; safe assumption@2; safe and_i => steps left from 3
conjunction swap safe and_i; safe and_i => no such step 1
conjunction swap safe and_i; safe assumption@2 => no such step 1
conjunction swap safe and_i; safe assumption => no such step 1
conjunction swap safe and_i/1 => no such step 0
conjunction swap unsafe and_i => no such step 0
conjunction swap late and_i => no such step 0
conjunction swap done => no such step 0
conjunction swap norm and_i safe and_i => no such step 0
conjunction swap safe other => no such step 0
witnesses t unsafe ex; unsafe pb; safe qb => ex b pb qb
witnesses t unsafe ex; late pa => goals left after 2
witnesses t unsafe ex; late pa; safe qb => no such step 2
witnesses t unsafe ex; safe pa => no such step 1
witnesses t safe ex => no such step 0
ties number unsafe nat/0 => z
ties number unsafe nat/1; unsafe nat/0 => s z
ties number unsafe nat/2 => no such step 0
ties hypothesis unsafe hyps@0 => goals left after 1
normalising boxed norm wrap tt done => wrap tt
normalising boxed norm wrap => no such step 0
normalising boxed norm tt wrap done => no such step 0
normalising first safe two; norm tt done => goals left after 2
onward t norm pq@0 safe assumption@1 => [] pq 0
onward t safe assumption@1 => no such step 0
onward t norm pq@1 safe assumption@1 => no such step 0
onward t norm pq@0 safe assumption@0 => no such step 0
dependent t safe assumption@1 => [] [] 0"
}
