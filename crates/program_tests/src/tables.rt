//! The tables of programs: what is given, `=>`, and what is wanted.

/// Files that are refused for one reason each, at the mark.
pub(crate) fn refused_files() -> &'static str {
    "\
family p : type. family ^p : type. => Taken
family p : type. const ^p : p. => Taken
family p : type. const a : p. const ^a : p. => Taken
family p : type. const a : p. family ^a : type. => Taken
family p : type. theorem t : p. theorem ^t : p. => Taken
family p : type. const a : p. rule ^assumption : safe 0 apply a. => Taken
family p : type. const a : p. rule ^hyps : safe 0 apply a. => Taken
family p : type. const a : p. rule r : safe 0 apply a. rule ^r : safe 1 apply a. => Taken
family p : type. const a : p. data p = a. data ^p = a. => Taken
family p : type. const a : p. data p = a ^a. => Taken
family p : type. data p = . data ^p = . => Taken
family p : type. const ^p : q. => Taken
family p : type. family ^p : q -> type. => Taken
family p : type. theorem t : p. theorem ^t : q. => Taken
family p : type. const a : p. rule ^hyps : unsafe 101 apply b. => Taken
family p : type. const a : p. data p = a. data ^p = b. => Taken
const a : ^p. => Unknown
theorem t : ^p. => Unknown
family p : ^q -> type. => Unknown
family p : ^p -> type. => Unknown
family p : {x:^q} type. => Unknown
family p : type. const a : p -> ^q. => Unknown
family p : type. const a : ^q -> p. => Unknown
family p : type. const a : {x:^a} p. => Unknown
family p : type. const a : p. theorem t : ^a. => Unknown
family p : type. family q : p -> type. const a : q ^b. => Unknown
family p : type. family q : p -> type. const a : q ^p. => Unknown
family p : type. family q : p -> type. const a : q ^a. => Unknown
family p : type. const a : p. const f : p -> p. family q : p -> type. theorem t : q (f ^b). => Unknown
family p : type. const a : p. family q : p -> type. theorem t : q (^g a). => Unknown
family p : type. theorem t : {p:p} ^p. => Unknown
family p : type. theorem t : {x:p} ^x. => Unknown
family p : type. family q : p -> type. theorem t : {x:p} q ^y. => Unknown
family p : type. family q : p -> type. theorem t : ({x:p} q x) -> q ^x. => Unknown
family p : type. family q : p -> type. theorem t : {_:p} q ^_1. => Unknown
family p : type. family q : p -> type. theorem t : p -> q ^x. => Unknown
family p : type. family q : (p -> p) -> type. theorem t : q ([x] ^y). => Unknown
family p : type. family q : p -> type. const a : p. theorem t : q ^b c. => Unknown
family p : type. rule r : safe 0 apply ^a. => Unknown
family p : type. rule r : safe 0 apply ^p. => Unknown
family p : type. const a : p. rule r : safe 0 constructors ^a. => Unknown
family p : type. const a : p. rule r : safe 0 constructors ^p. => Unknown
family p : type. const a : p. rule r : safe 0 cases ^b at 1. => Unknown
family p : type. const a : p. rule r : safe 0 apply ^b at 7. => Unknown
family p : type. const a : p. rule s : safe 0 apply a. rule r : safe 0 apply ^s. => Unknown
data ^p = . => Unknown
family p : type. const a : p. data ^a = . => Unknown
family p : type. data p = ^a. => Unknown
family p : type. family q : type. data p = ^q. => Unknown
family p : type. const a : p. data p = a ^b. => Unknown
family p : type. theorem t : p. theorem u : ^t. => Unknown
family p : type. const a : p. family q : p -> type. theorem t : q ((^[x] x) a). => Redex
family p : type. const a : p. family q : (p -> p) -> type. theorem t : q ((^[x] [y] y) a). => Redex
family p : type. const a : p. const f : p -> p. family q : p -> type. theorem t : q (f ((^[x] x) a)). => Redex
family p : type. family q : p -> type. theorem t : q ((^[x] x) b). => Redex
family p : type. const a : p. family q : p -> type. theorem t : q ((^[x] x) a a). => Redex
family p : type. const a : p. family q : p -> type. const c : q ((^[x] x) a) -> p. => Redex
family p : type. const a : p. family q : p -> type. family r : q ((^[x] x) a) -> type. => Redex
family p : type. family q : p -> type. theorem t : {y:p} q ((^[x] y) y). => Redex
family p : type. const a : p. family q : p -> type. theorem t : q (((^[x] x) a) a). => Redex
family p : type. const a : p. theorem t : p ^a. => IllTyped
family p : type. theorem t : p ^b. => IllTyped
family p : type. family q : p -> type. theorem t : ^q. => IllTyped
family p : type. family q : p -> p -> type. theorem t : ^q b. => IllTyped
family p : type. const a : p. family q : p -> type. theorem t : q a ^a. => IllTyped
family p : type. const a : p. family q : p -> type. theorem t : q a (^[x] x). => IllTyped
family p : type. family r : type. const a : r. family q : p -> type. theorem t : q ^a. => IllTyped
family p : type. family r : type. const a : p. const f : r -> p. family q : p -> type. theorem t : q (f ^a). => IllTyped
family p : type. const a : p. family q : p -> type. theorem t : q (a ^a). => IllTyped
family p : type. const a : p. const f : p -> p. family q : p -> type. theorem t : q (f b ^c). => IllTyped
family p : type. const a : p. const f : p -> p. family q : p -> type. theorem t : q (f a (^f a)). => IllTyped
family p : type. const a : p. const f : p -> p. family q : p -> type. theorem t : q (f a (^[x] x)). => IllTyped
family p : type. family q : p -> type. theorem t : q (^[x] x). => IllTyped
family p : type. const f : p -> p. family q : p -> type. theorem t : q ^f. => IllTyped
family p : type. const a : p. family s : (p -> p) -> type. theorem t : s ^a. => IllTyped
family p : type. family s : (p -> p) -> type. theorem t : s ([x] (^[y] x)). => IllTyped
family p : type. family r : type. const b : r. family s : (p -> p) -> type. theorem t : s ([x] ^b). => IllTyped
family p : type. const a : p. const b : p. family v : p -> type. const va : v a. family w : {x:p} v x -> type. theorem t : w b ^va. => IllTyped
family p : type. family r : type. family q : p -> type. theorem t : {x:r} q ^x. => IllTyped
family p : type. family q : p -> type. theorem t : {f:p -> p} q ^f. => IllTyped
family p : type. family q : p -> type. theorem t : {f:p -> p} q (f ^f). => IllTyped
family p : type. const a : p. family q : p -> type. theorem t : {f:p -> p} q (f a ^a). => IllTyped
family p : type. family r : type. const a : p. family q : p -> type. theorem t : {a:r} q ^a. => IllTyped
family p : type. family r : type. family q : p -> type. theorem t : {x:p} {x:r} q ^x. => IllTyped
family p : type. const f : p -> p. family q : p -> type. theorem t : q ((f) ^f). => IllTyped
family p : type. const a : p. const f : p -> p. family q : p -> type. theorem t : q ((f a) ^a). => IllTyped
family p : type. family r : type. const b : r. family q : p -> type. family z : q ^b -> type. => IllTyped
family p : type. family r : type. const b : r. family q : p -> type. theorem t : {x:q ^b} p. => IllTyped
family p : type. family q : p -> type. const c : ^q -> q b. => IllTyped
family p : type. family q : p -> type. const c : p -> ^q -> p. => IllTyped
family p : type. const a : p. rule r : unsafe ^101 apply a. => BadRule
family p : type. const a : p. rule r : unsafe ^-1 apply a. => BadRule
family p : type. const a : p. rule r : unsafe ^4294967296 apply a. => BadRule
family p : type. const a : p. rule r : norm ^2147483648 apply a. => BadRule
family p : type. const a : p. rule r : norm ^-2147483649 apply a. => BadRule
family p : type. const a : p. rule r : safe ^99999999999 apply a. => BadRule
family p : type. const a : p. rule r : safe ^-99999999999 apply a. => BadRule
family p : type. const a : p. rule r : unsafe ^101 apply b at 1. => BadRule
family p : type. const a : p. rule r : safe 0 cases ^a. => BadRule
family p : type. const a : p. rule r : safe 0 cases a at ^1. => BadRule
family p : type. const f : p -> p. rule r : safe 0 cases f at ^0. => BadRule
family p : type. const f : p -> p. rule r : safe 0 cases f at ^2. => BadRule
family p : type. const f : p -> p. rule r : safe 0 cases f at ^-1. => BadRule
family p : type. const f : p -> p. rule r : safe 0 cases f at ^4294967297. => BadRule
family p : type. const f : p -> p. rule r : safe 0 cases ^f. => BadRule
family p : type. const g : (p -> p) -> p. rule r : safe 0 cases g at ^1. => BadRule
family p : type. const f : p -> p. rule r : safe 0 apply f at ^1. => BadRule
family p : type. const f : p -> p. rule r : safe 0 apply f at ^-5. => BadRule
family p : type. const a : p. data p = a. rule r : safe 0 constructors p at ^1. => BadRule
family p : type. const a : p. rule r : norm 0 forward a at ^1. => BadRule
family p : type. const a : p. rule r : norm 0 forward ^a. => BadRule
family p : type. const a : p. rule r : norm 0 destruct ^a. => BadRule
family p : type. const h : p -> p -> p -> p -> p -> p. rule r : norm 0 forward ^h. => BadRule
family p : type. const g : (p -> p) -> p. rule r : norm 0 destruct ^g. => BadRule
family p : type. family q : p -> type. const k : {x:p} q x. rule r : norm 0 forward ^k. => BadRule
family p : type. family q : type. const b : q. data p = ^b. => BadRule
family p : type. family q : type. const a : p. const b : q. data p = a ^b. => BadRule
family p : type. family q : type. const f : p -> q. data p = ^f. => BadRule
family ^type : type. => Expected
family p ^type. => Expected
family p : ^. => Expected
family p : type^ => Expected
family p : p^. => Expected
^p : type. => Expected
rule r ^safe 0 apply a. => Expected
rule r : ^soft 0 apply a. => Expected
rule r : safe ^apply a. => Expected
rule r : safe 0 ^use a. => Expected
rule r : safe 0 apply a ^0. => Expected
rule r : safe 0 apply a ^b. => Expected
rule r : safe 0 apply a at ^b. => Expected
rule r : safe 0 apply a in ^3. => Expected
data p ^a. => Expected
data p = ^(a). => Expected
theorem t : ^[x] x. => Expected
theorem t : p ^: q. => Expected
theorem t : p -> ^type. => Expected
theorem t : q ^[x] x. => Expected
theorem t : q ([a ^b] c). => Expected
theorem t : {x ^p} p. => Expected
theorem t : (p^. => Expected
theorem t : p^) -> p. => Expected
theorem t : q. theorem^ => Expected
family p : type^; => BadChar
family p : type. const a ^- p. => BadChar
family family p. ^# => BadChar
family p : type. const a^' : p. => BadChar"
}

/// Files at the limits of the language.
pub(crate) fn large_files() -> &'static str {
    "\
family p : type. `65534*family f@ : type. `family q : type. => TooMany(1430662)
family p : type. `65534*const c@ : p. `const q : p. => TooMany(1168525)
family p : type. `65534*const c@ : p. ` => 0 theorems
family p : type. const a : p. `10000*rule r@ : safe 0 apply a. `rule x : unsafe 101 apply a. => TooMany(288925)
family p : type. `10000*theorem t@ : p. `theorem x : q. => TooMany(188915)
family p : type. `10000*theorem t@ : p. ` => 10000 theorems
family p : type. theorem t : `1000*{x:p} `p. => 1 theorems
family p : type. theorem t : `1001*{x:p} `p. => TooMany(6029)
family p : type. theorem t : `1001*p -> `p. => TooMany(5029)"
}

/// Files with the order of their rules.
pub(crate) fn orders() -> &'static str {
    "\
family i : type. const a : i. const b : i. family p : i -> type. family q : i -> type. family g : type. const ex : {x:i} p x -> q x -> g. const pa : p a. const pb : p b. const qb : q b. rule ex : unsafe 100 apply ex. rule pa : safe 0 apply pa. rule pb : unsafe 50 apply pb. rule qb : safe 0 apply qb. theorem t : g. => r0;r3;r5;r2;r1;r4;
family p : type. const z : p. const f : p -> p. family q : (p -> p) -> type. const c : q f. data p = z f. rule r : unsafe 60 constructors p in mine. => r0;r1;c0;c1;"
}

/// Files with their last constant.
pub(crate) fn constants() -> &'static str {
    "\
family p : type. const z : p. const f : p -> p. family q : (p -> p) -> type. const c : q f. => c : q ([_0] f _0)
family nat : type. const a : nat. const f : nat -> nat -> nat. const g : nat -> nat. => g : nat -> nat
family nat : type. const a : nat. const f : nat -> nat -> nat. const g : nat -> nat. family q : nat -> type. const c : q a. => c : q a
family nat : type. const a : nat. const f : nat -> nat -> nat. const g : nat -> nat. family q : nat -> type. const c : q (g (g a)). => c : q (g (g a))
family nat : type. const a : nat. const f : nat -> nat -> nat. const g : nat -> nat. family q : (nat -> nat -> nat) -> type. const c : q ([x] [y] f y (g x)). => c : q ([_0] [_1] f _1 (g _0))
family p : type. family q : p -> type. const c : {x : p} q x -> p. => c : {_0:p} q _0 -> p"
}

/// Files with the printed type of their last constant.
pub(crate) fn types() -> &'static str {
    "\
family nat : type. const z : nat. const s : nat -> nat. family o : type. const good : nat -> o. family prf : o -> type. const ind : #{P:nat -> o} prf (P z) -> ({n:nat} prf (P n) -> prf (P (s n))) -> {n:nat} prf (P n) => {_0:nat -> o} prf (_0 z) -> ({_2:nat} prf (_0 _2) -> prf (_0 (s _2))) -> {_3:nat} prf (_0 _3)"
}
