//! The programs of the tests.

/// The program of a name, by what its rules show, or no text.
pub(crate) fn source(name: &str) -> &'static str {
    match name {
        "witnesses" => witnesses(),
        "patterns" => patterns(),
        "constructors" => constructors(),
        "hypotheses" => hypotheses(),
        "induction" => induction(),
        "splitting" => splitting(),
        "conclusions" => conclusions(),
        "dependent" => dependent(),
        "premises" => premises(),
        "keys" => keys(),
        _ => "",
    }
}

// A witness that two premises share, and closed conclusions.
fn witnesses() -> &'static str {
    "\
family i : type. const a : i. const b : i. family p : i -> type. family q : i -> type. family g : type.
const ex : {x:i} p x -> q x -> g. const pa : p a. const pb : p b. const qb : q b.
rule ex : unsafe 100 apply ex. rule pa : unsafe 90 apply pa. rule pb : unsafe 50 apply pb. rule qb : unsafe 50 apply qb.
theorem t : g. theorem under : i -> g. theorem one : p b. theorem any : {x:i} p x. theorem other : q b."
}

// Conclusions with abstractions in them, and a premise with a binder.
fn patterns() -> &'static str {
    "\
family i : type. const a : i. family t : i -> type. family k : (i -> i) -> type.
const kc : {x:i} k ([y] x). const kf : {f:i -> i} k ([y] f a). const kl : {f:i -> i} ({x:i} t (f x)) -> k f.
rule kc : unsafe 50 apply kc. rule kf : unsafe 50 apply kf. rule kl : unsafe 50 apply kl.
theorem constant : k ([y] a). theorem same : k ([y] y)."
}

// Lists of constructors.
fn constructors() -> &'static str {
    "\
family nat : type. const z : nat. const s : nat -> nat. data nat = z s.
family t : nat -> type. const tz : t z. const ts : t (s z). const tx : {x:nat} t x. data t = tz ts tx.
rule nat : unsafe 60 constructors nat. rule t : safe 0 constructors t. rule tx : safe 0 apply tx.
theorem t : nat. theorem zero : t z. theorem any : {x:nat} t x."
}

// Hypotheses with and without binders.
fn hypotheses() -> &'static str {
    "\
family p : type. family q : type. family i : type. const a : i. family r : i -> type.
theorem arrow : (p -> q) -> p -> q. theorem some : p -> q -> (p -> p) -> p -> p.
theorem two : (p -> q) -> (p -> p -> q) -> q. theorem all : ({x:i} r x) -> r a. theorem open : ({x:i} r x -> p) -> p.
theorem mentioned : {x:i} r x -> r a -> r x. theorem missed : (p -> q) -> p."
}

// Induction, which splits a hypothesis that the target mentions.
fn induction() -> &'static str {
    "\
family nat : type. const z : nat. const s : nat -> nat. family o : type. const good : nat -> o. family prf : o -> type.
const ind : {P:nat -> o} prf (P z) -> ({n:nat} prf (P n) -> prf (P (s n))) -> {n:nat} prf (P n).
const gz : prf (good z). const gs : {n:nat} prf (good n) -> prf (good (s n)).
rule ind : unsafe 50 cases ind at 4. rule gz : safe 0 apply gz. rule gs : safe 0 apply gs.
theorem all : {n:nat} prf (good n). theorem zero : nat -> prf (good z)."
}

// The conditions under which a hypothesis that is split is dropped.
fn splitting() -> &'static str {
    "\
family a : type. family b : type. family g : type. family p : a -> type.
const e : a -> (b -> g) -> g. const f : {x:a} p x -> g. const h : a -> {y:a} p y.
rule e : safe 0 cases e at 1. rule f : safe 0 cases f at 1. rule h : safe 0 cases h at 1.
theorem plain : a -> g. theorem mentioned : {x:a} p x -> g. theorem aimed : {x:a} p x. theorem twice : a -> a -> g.
theorem other : b -> g. theorem arrow : (b -> a) -> g. theorem target : a -> b. theorem between : {x:a} a -> p x -> g.
theorem inside : {x:a} (p x -> b) -> g."
}

// Conclusions that are added, without arguments.
fn conclusions() -> &'static str {
    "\
family p : type. family q : type. const pq : p -> q. const l : p -> p.
rule pq : norm 0 forward pq. rule dpq : norm 0 destruct pq. rule l : norm 0 destruct l. rule fl : norm 0 forward l.
theorem t : p -> q. theorem after : p -> q -> q. theorem same : p -> p. theorem arrow : (q -> p) -> q.
theorem binders : p -> (p -> q) -> q."
}

// Conclusions that are added, and hypotheses that are dropped, with arguments.
fn dependent() -> &'static str {
    "\
family nat : type. family e : type. family q : nat -> type. family r : nat -> type.
const d : nat -> e. const m : {x:nat} q x -> nat -> r x. const w : {x:nat} q x -> e. const u : {x:nat} e -> q x.
rule d : norm 0 destruct d. rule fd : norm 0 forward d. rule m : norm 0 destruct m. rule w : norm 0 forward w. rule u : norm 0 forward u.
rule du : norm 0 destruct u.
theorem t : {n:nat} q n -> q n. theorem plain : nat -> e. theorem target : {n:nat} q n. theorem other : {n:nat} q n -> e.
theorem kept : {n:nat} q n -> nat -> e. theorem given : e -> e."
}

// Several premises, and arguments that later ones mention.
fn premises() -> &'static str {
    "\
family a : type. family b : type. family c : type. family g : type.
const four : a -> b -> a -> b -> c. const pair : a -> a -> c.
family p : a -> type. family d : {x:a} p x -> type. const dep : {x:a} {y:p x} d x y -> c. rule dep : norm 0 forward dep.
rule ddep : norm 0 destruct dep. rule adep : safe 0 apply dep. rule cdep : safe 0 cases dep at 3. rule ydep : safe 0 cases dep at 2.
rule four : norm 0 forward four. rule dfour : norm 0 destruct four. rule pair : norm 0 forward pair.
rule dpair : norm 0 destruct pair.
theorem both : a -> b -> g. theorem twice : a -> a -> g.
theorem closed : c. theorem found : {x:a} {y:p x} d x y -> g. theorem last : {x:a} {y:p x} d x y -> c. theorem middle : {x:a} p x -> c."
}

// Keys with constants, with variables, and without a family.
fn keys() -> &'static str {
    "\
family i : type. const a : i. const f : i -> i. family p : i -> i -> type. family j : type. family k : (i -> i) -> type.
const paf : {x:i} p a (f x). const pva : {x:i} p x a. const e : i -> {x:i} p a x. const ij : i -> j. const ka : k ([x] a).
data p = paf pva. rule paf : unsafe 40 apply paf. rule pva : unsafe 30 apply pva. rule p : unsafe 20 constructors p.
rule e : unsafe 10 cases e at 1. rule ij : norm 0 forward ij. rule ka : unsafe 5 apply ka.
theorem one : p a (f a). theorem two : p (f a) a. theorem three : {x:i} p x a. theorem four : {x:i} p a x.
theorem five : k ([x] x). theorem six : j."
}
