//! Schedules by chance, in which a tree has to answer as a plain one does.

use crate::chance::{Chance, chance_from, chance_table};
use crate::plain::{Plain, Wanted, plain_start};
use crate::play::Play;
use crate::table::Table;
use basics::NoMemory;
use std::alloc::Global;
use tree_steps::{Claim, Event, Journal, Problem};

/// How often what came, and how many steps were answered otherwise than by the plain tree.
#[derive(Clone, Copy, PartialEq, Eq, Debug)]
pub(crate) struct Tally {
    pub(crate) taken: u32,
    pub(crate) decided: u32,
    pub(crate) spent: u32,
    pub(crate) idle: u32,
    pub(crate) committed: u32,
    pub(crate) released: u32,
    pub(crate) wrong: u32,
}

impl Tally {
    fn add(&mut self, wanted: Wanted) {
        match wanted {
            Wanted::Take(_, _) => self.taken = self.taken.saturating_add(1),
            Wanted::Decided => self.decided = self.decided.saturating_add(1),
            Wanted::Spent(_) => self.spent = self.spent.saturating_add(1),
            Wanted::Idle(_) => self.idle = self.idle.saturating_add(1),
        }
    }
}

/// So many schedules, one after another.
pub(crate) fn play_all(alloc: Global, count: u32) -> Result<Tally, NoMemory> {
    let mut tally = Tally {
        taken: 0,
        decided: 0,
        spent: 0,
        idle: 0,
        committed: 0,
        released: 0,
        wrong: 0,
    };
    let mut chance = chance_from(20_261_201);
    for _ in 0..count {
        play_one(alloc, &mut chance, &mut tally)?;
    }
    Ok(tally)
}

/// One schedule of one to four seats over one table.
fn play_one(alloc: Global, chance: &mut Chance, tally: &mut Tally) -> Result<(), NoMemory> {
    let table = chance_table(alloc, chance)?;
    let budget = chance.below(24).saturating_add(1);
    let seats = chance.below(4).saturating_add(1);
    let mut plain = plain_start(alloc, 0, budget)?;
    let mut play = Play::start(alloc, table, 0, budget)?;
    for _ in 0..60 {
        let seat = chance.below(seats);
        let is_right = step(alloc, &mut play, &mut plain, seat, chance, tally)?;
        if !is_right || !is_same(&play, &plain, seats) || !is_told(&play, &plain, chance, seat) {
            tally.wrong = tally.wrong.saturating_add(1);
            return Ok(());
        }
    }
    Ok(())
}

/// Whether verdict and held nodes are those of the plain tree.
fn is_same(play: &Play<Table>, plain: &Plain, seats: u32) -> bool {
    for seat in 0..seats {
        if play.held(seat) != plain.held(seat) {
            return false;
        }
    }
    play.verdict() == plain.verdict() && play.chosen() == plain.chosen()
}

/// Whether it is told rightly if a seat holds a node with some content that was claimed.
fn is_told(play: &Play<Table>, plain: &Plain, chance: &mut Chance, seat: u32) -> bool {
    let node = plain.held(seat).unwrap_or(chance.below(20));
    let place = chance.below(12) as usize;
    match play.holds_taken(place, seat, node) {
        Some((taken, holds)) => {
            let is_held = plain.held(seat) == Some(node);
            holds == (is_held && plain.content(taken) == plain.content(node))
        }
        None => true,
    }
}

/// What an event does.
#[derive(Clone, Copy, PartialEq, Eq)]
enum Kind {
    Claim,
    Commit,
    Release,
}

/// The last event of a journal: what it does, a seat and a node.
fn last_event(journal: &Journal) -> Option<(Kind, u32, u32)> {
    let count = journal.len();
    if count == 0 {
        return None;
    }
    match journal.event(count - 1) {
        Event::Claim(seat, node) => Some((Kind::Claim, seat, node)),
        Event::Commit(seat, node, _) => Some((Kind::Commit, seat, node)),
        Event::Release(seat, node) => Some((Kind::Release, seat, node)),
    }
}

/// Whether just this event was added since a journal had so many, or none.
fn is_added(journal: &Journal, before: usize, event: Option<(Kind, u32, u32)>) -> bool {
    let count = journal.len();
    match event {
        Some(_) => count == before.saturating_add(1) && last_event(journal) == event,
        None => count == before,
    }
}

/// Lets a seat claim, commit or release, and answers whether that went as in the plain tree.
fn step(
    alloc: Global,
    play: &mut Play<Table>,
    plain: &mut Plain,
    seat: u32,
    chance: &mut Chance,
    tally: &mut Tally,
) -> Result<bool, NoMemory> {
    let before = play.journal().len();
    match plain.held(seat) {
        None => {
            let wanted = plain.wanted();
            tally.add(wanted);
            let is_right = is_wanted(play.claim(seat)?, wanted);
            let event = take_plain(plain, seat, wanted);
            Ok(is_right && is_added(play.journal(), before, event))
        }
        Some(node) => if chance.below(4) == 0 {
            tally.released = tally.released.saturating_add(1);
            plain.hold(node, None);
            let is_right = play.release(seat);
            let event = Some((Kind::Release, seat, node));
            Ok(is_right && is_added(play.journal(), before, event))
        } else {
            tally.committed = tally.committed.saturating_add(1);
            let is_right = commit_both(alloc, play, plain, seat, node)?;
            let event = Some((Kind::Commit, seat, node));
            Ok(is_right && is_added(play.journal(), before, event))
        },
    }
}

/// The event of a claim, which a plain tree takes down.
fn take_plain(plain: &mut Plain, seat: u32, wanted: Wanted) -> Option<(Kind, u32, u32)> {
    match wanted {
        Wanted::Take(node, _) => {
            plain.hold(node, Some(seat));
            Some((Kind::Claim, seat, node))
        }
        _ => None,
    }
}

fn commit_both(
    alloc: Global,
    play: &mut Play<Table>,
    plain: &mut Plain,
    seat: u32,
    node: u32,
) -> Result<bool, NoMemory> {
    let branches = play.problem().expand(&plain.content(node))?;
    plain.commit(alloc, node, &branches)?;
    match play.commit(alloc, seat)? {
        Some(spans) => Ok(plain.has_alternatives(node, spans.as_slice())),
        None => Ok(false),
    }
}

fn is_wanted(found: Option<Claim<u32>>, wanted: Wanted) -> bool {
    match found {
        Some(Claim::Take(node, content)) => wanted == Wanted::Take(node, content),
        Some(Claim::Decided) => wanted == Wanted::Decided,
        Some(Claim::Spent(held)) => wanted == Wanted::Spent(held),
        Some(Claim::Idle(held)) => wanted == Wanted::Idle(held),
        None => false,
    }
}
