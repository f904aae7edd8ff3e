//! The programs of the tests.

/// The program of a name, by what its rules show, or no text.
pub(crate) fn source(name: &str) -> &'static str {
    match name {
        "endless" => endless(),
        "onward" => onward(),
        "conjunction" => conjunction(),
        "witnesses" => witnesses(),
        "untouched" => untouched(),
        "ties" => ties(),
        "normalising" => normalising(),
        "linked" => linked(),
        "dependent" => dependent(),
        "frozen" => frozen(),
        _ => "",
    }
}

// A rule that normalises without end.
fn endless() -> &'static str {
    "\
family p : type. const l : p -> p. rule l : norm 0 destruct l.
theorem t : p -> p."
}

// A rule that adds a conclusion, once.
fn onward() -> &'static str {
    "\
family p : type. family q : type. const pq : p -> q. rule pq : norm 0 forward pq.
theorem t : p -> q."
}

// Two premises without metavariables.
fn conjunction() -> &'static str {
    "\
family o : type. const and : o -> o -> o. family prf : o -> type.
const and_i : {A:o} {B:o} prf A -> prf B -> prf (and A B). rule and_i : safe 0 apply and_i.
theorem swap : {A:o} {B:o} prf A -> prf B -> prf (and B A)."
}

// A witness that two premises share, and a safe rule that would assign it.
fn witnesses() -> &'static str {
    "\
family i : type. const a : i. const b : i. family p : i -> type. family q : i -> type. family g : type.
const ex : {x:i} p x -> q x -> g. const pa : p a. const pb : p b. const qb : q b.
rule ex : unsafe 100 apply ex. rule pa : safe 0 apply pa. rule pb : unsafe 50 apply pb. rule qb : safe 0 apply qb.
theorem t : g."
}

// A witness that a safe rule leaves as it is.
fn untouched() -> &'static str {
    "\
family i : type. const a : i. family p : i -> type. family q : i -> type. family g : type.
const ex : {x:i} p x -> q x -> g. const pa : p a. const any : {x:i} p x.
rule ex : unsafe 100 apply ex. rule pa : safe 0 apply pa. rule any : safe 5 apply any.
theorem t : g."
}

// Rules of one percentage, postponed rules among them, and lists of constructors.
fn ties() -> &'static str {
    "\
family i : type. const a : i. const b : i. const c : i. family p : i -> type. family q : i -> type. family g : type.
const ex : {x:i} p x -> q x -> g. const pa : p a. const pb : p b. const pc : p c. data p = pa pb pc.
rule low : unsafe 40 apply pa. rule pb : unsafe 90 apply pb. rule pa : safe 9 apply pa. rule pc : unsafe 90 apply pc.
rule p : unsafe 60 constructors p. rule soon : safe 0 apply pb. rule high : unsafe 95 apply pc. rule ex : unsafe 100 apply ex.
family r : type. const rr : r -> r. rule rr : unsafe 75 apply rr.
family nat : type. const z : nat. const s : nat -> nat. data nat = z s. rule nat : unsafe 60 constructors nat.
family m : type. const mz : m. const ms : m -> m. data m = mz ms. rule m : safe 0 constructors m.
theorem t : g. theorem hypothesis : (r -> r) -> r. theorem number : nat. theorem committed : m."
}

// Rules that may normalise, and rules that may not.
fn normalising() -> &'static str {
    "\
family i : type. const a : i. family p : i -> type. family q : i -> type. family h : type.
family top : type. const tt : top. rule tt : norm 0 apply tt.
family box : type. const wrap : top -> box. rule wrap : norm 0 apply wrap.
family g : type. const two : top -> h -> g. rule two : safe 0 apply two.
family k : type. const pair : top -> top -> k. rule pair : norm 0 apply pair.
family w : type. const some : {x:i} p x -> w. rule some : norm 0 apply some.
family e : type. const ex : {x:i} p x -> q x -> e. rule ex : safe 0 apply ex. const pa : p a. rule pa : norm 0 apply pa.
family c : type. const both : top -> top -> c. const one : top -> c. data c = both one. rule c : norm 0 constructors c.
family l : type. const slow : top -> l. const fast : l. rule slow : norm 5 apply slow. rule fast : norm 1 apply fast.
theorem closed : top. theorem boxed : box. theorem first : g. theorem pairs : k. theorem witness : w. theorem shared : e.
theorem second : c. theorem order : l."
}

// Lists of goals that mention each other in several ways.
fn linked() -> &'static str {
    "\
family i : type. family h : type. family k : type. family p : i -> type. family q : i -> type. family r : i -> type.
family e : i -> i -> type. family d : {x:i} p x -> type. family s : i -> type. const any : {x:i} s x. rule any : safe 0 apply any.
family chained : type. const chain : {x:i} {y:i} {z:i} p x -> e x y -> e y z -> q z -> chained. rule chain : safe 0 apply chain.
family nested : type. const nest : {x:i} {y:p x} d x y -> nested. rule nest : safe 0 apply nest.
family starred : type. const star : {x:i} p x -> q x -> r x -> starred. rule star : safe 0 apply star.
family dealt : type. const deal : {x:i} {y:i} p x -> p y -> q x -> h -> q y -> dealt. rule deal : safe 0 apply deal.
family joined : type. const join : {x:i} {y:i} p x -> p y -> h -> e x y -> joined. rule join : safe 0 apply join.
family bound : type. const bind : {x:i} (p x -> h) -> k -> bound. rule bind : safe 0 apply bind.
family loose : type. const free : h -> k -> h -> loose. rule free : safe 0 apply free.
family lonely : type. const lone : {x:i} s x -> h -> lonely. rule lone : safe 0 apply lone.
family unit : type. const end : unit. rule end : safe 0 apply end.
family only : type. const sole : {x:i} s x -> only. rule sole : safe 0 apply sole. const b : i. rule b : unsafe 80 apply b.
const pb : p b. const dd : {x:i} {y:p x} d x y. rule dd : unsafe 30 apply dd.
const pq : {x:i} {y:i} q y -> p x. rule pq : unsafe 70 apply pq.
theorem chained : chained. theorem nested : nested. theorem starred : starred. theorem under : i -> starred.
theorem dealt : dealt. theorem joined : joined. theorem bound : bound. theorem loose : loose. theorem lonely : lonely.
theorem unit : unit. theorem only : only."
}

// A hypothesis that the target mentions.
fn dependent() -> &'static str {
    "\
family nat : type. family e : type. family q : nat -> type. const d : nat -> e. rule d : norm 0 destruct d.
theorem t : {n:nat} q n -> q n."
}

// A hypothesis that mentions a witness, which conclusions that are added don't assign.
fn frozen() -> &'static str {
    "\
family i : type. const a : i. family p : i -> type. family q : i -> type. family h : type. family g : type.
const ex : {x:i} (p x -> h) -> g. const pa : p a -> q a. const any : {x:i} p x -> q x. const qa : q a -> h.
rule ex : safe 0 apply ex. rule pa : norm 0 forward pa. rule any : norm 5 forward any. rule qa : unsafe 50 apply qa.
theorem t : g."
}
