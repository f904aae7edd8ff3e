//! The tables of texts: what is given, `=>`, and what is wanted.

/// Texts with their tokens, or the fault of one.
pub(crate) fn texts() -> &'static str {
    "\
=> end 0
family p : type. const a : p. => Word 0-6, Word 7-8, Colon 9-10, Word 11-15, Dot 15-16, Word 17-22, Word 23-24, Colon 25-26, Word 27-28, Dot 28-29, end 29
->-5 12=1x => Arrow 0-2, Number 2-4, Number 5-7, Equals 7-8, Number 8-9, Word 9-10, end 10
{x}[_y](_) => LBrace 0-1, Word 1-2, RBrace 2-3, LBracket 3-4, Var 4-6, RBracket 6-7, LParen 7-8, Var 8-9, RParen 9-10, end 10
a\t% b # é ->\r/c % => Word 0-1, Word 15-16, end 18
é:日本_1 => Word 0-2, Colon 2-3, Word 3-11, end 11
family p # type. => BadChar(9)
é - b => BadChar(3)
--5 => BadChar(0)
a - => BadChar(2)
p → q => BadChar(2)
~ => NotUtf8(0)
# é ~ => NotUtf8(5)
:`255*a` => Colon 0-1, Word 1-256, end 256
:`256*a` => LongName(1)
:`127*é` => Colon 0-1, Word 1-255, end 255
:`128*é` => LongName(1)
_`254*a` => Var 0-255, end 255
_`255*a` => LongName(0)
-`300*1` => Number 0-301, end 301"
}

/// Files with the number of their declarations, or their fault.
pub(crate) fn files() -> &'static str {
    "\
=> 0 declarations
family p : type./theorem t : p => Expected(30)
family p # type. => BadChar(9)
family p : type. family p : type. => 2 declarations
theorem t : p. => 1 declarations
family p : type./const a : p./family q : p -> type./theorem t : q (([x] x) a). => 4 declarations
const rule : in -> (at) -> {_:data} {x : y (_)} const. => 1 declarations
data d = . data rule = at in rule. => 2 declarations
rule r : safe -0 cases c. rule r : norm 1 forward c at 2 in at. => 2 declarations
rule r : unsafe 1 apply c in s at 2. => Expected(31)
rule r : apply => Expected(9)
family p : q. => Expected(12)
family p : (q). => Expected(14)
const c : type. => Expected(10)
const c : (type). => Expected(11)
const c : q [x]. => Expected(12)
const c : q (). => Expected(13)
const c : q (a ([x] [_] x _ a)) _ b => Expected(35)
const type : q. => Expected(6)
norm c : q. => Expected(0)"
}

/// Files that nest as deep as may be, and deeper.
pub(crate) fn deep_files() -> &'static str {
    "\
theorem t : q `256*(`a`256*)`. => 1 declarations
theorem t : q `257*(`a`257*)`. => TooDeep(270)
family p : type./const a : p./family q : p -> type./theorem t : q `256*(`a`256*)`. => 4 declarations
family p : type./const a : p./family q : p -> type./theorem t : q `257*(`a`257*)`. => TooDeep(322)
theorem t : `256*(`a`256*)`. => 1 declarations
theorem t : `257*(`a`257*)`. => TooDeep(268)
theorem t : `256*{x:`a`256*} a`. => 1 declarations
theorem t : `257*{x:`a`257*} a`. => TooDeep(780)
theorem t : q `128*([x]`a`128*)`. => 1 declarations
theorem t : q `129*([x]`a`129*)`. => TooDeep(526)
theorem t : `300*{x:a}`a. => 1 declarations
theorem t : `300*q ([x] x) -> `a. => 1 declarations"
}

/// Files that are only long.
pub(crate) fn long_files() -> &'static str {
    "\
family f : `300000*o -> `type. => 1 declarations
const c : `100000*{x:o}`o. => 1 declarations
const c : f`100000* a`. => 1 declarations
const c : f (a`100000* _`). => 1 declarations
data f =`100000* c`. => 1 declarations
`100000*data f=.` => 100000 declarations
const c : `100000*o -> `. => Expected(500010)"
}

/// A file with the places of its arguments.
pub(crate) fn places() -> &'static str {
    "\
const c : q a ([x] [y] a) (f (g) _) (([x] x) b). => 12;15;27;38;"
}

/// A file of many declarations.
pub(crate) fn realistic() -> &'static str {
    "\
family o : type.
const and : o -> o -> o.
const or : o -> o -> o.
const imp : o -> o -> o.
family prf : o -> type.
const and_i : {A:o} {B:o} prf A -> prf B -> prf (and A B).
const and_e : {A:o} {B:o} {C:o} prf (and A B) -> (prf A -> prf B -> prf C) -> prf C.
const or_l : {A:o} {B:o} prf A -> prf (or A B).
const or_r : {A:o} {B:o} prf B -> prf (or A B).
const or_e : {A:o} {B:o} {C:o} prf (or A B) -> (prf A -> prf C) -> (prf B -> prf C) -> prf C.
const imp_i : {A:o} {B:o} (prf A -> prf B) -> prf (imp A B).
const mp : {A:o} {B:o} prf (imp A B) -> prf A -> prf B.
rule and_e : norm 0 cases and_e at 4.
rule mp : norm 10 forward mp.
rule imp_i : safe 0 apply imp_i.
rule and_i : safe 10 apply and_i.
rule or_e : safe 20 cases or_e at 4.
rule or_l : unsafe 50 apply or_l.
rule or_r : unsafe 50 apply or_r.
theorem and_comm : {A:o} {B:o} prf (imp (and A B) (and B A)).
theorem or_comm : {A:o} {B:o} prf (imp (or A B) (or B A)).
theorem trans : {A:o} {B:o} {C:o} prf (imp (imp A B) (imp (imp B C) (imp A C))).
theorem no : {A:o} {B:o} prf (imp A B).
"
}
