//! Moves on a tree and what is answered, as text.

ghost use Rattle.std.specs.Prelude.{◌<◌};

use crate::play::Play;
use crate::reading::{next_word, table_of};
use crate::table::Table;
use basics::{Bytes, NoMemory};
use std::alloc::Global;
use test_rows::{Answers, next_number};
use tree_steps::{Claim, Event, Journal, Root};

/// What is asked of a table, a budget and more.
#[derive(Clone, Copy)]
pub(crate) enum Asked {
    /// What each of some moves answers.
    Moves,
    /// What is known of the root after a search in the caller alone, the alternative that proves it, and the events.
    Still,
}

impl Answers for Asked {
    fn answer(&self, alloc: Global, given: &str) -> Result<Bytes, NoMemory> {
        let mut parts = given.split(';');
        let table = table_of(alloc, parts.next().unwrap_or(""))?;
        let budget = parts
            .next()
            .unwrap_or("")
            .trim()
            .parse()
            .unwrap_or(1)
            .max(1);
        let moves = parts.next().unwrap_or("");
        match self {
            Asked::Moves => moves_answer(alloc, table, budget, moves),
            Asked::Still => still_answer(alloc, table, budget),
        }
    }
}

fn still_answer(alloc: Global, table: Table, budget: u32) -> Result<Bytes, NoMemory>
    requires { 0 < budget }
{
    let play = Play::still(alloc, table, 0, budget)?;
    let mut text = Bytes::new(alloc);
    append_root(&mut text, play.verdict())?;
    append_chosen(alloc, &mut text, play.chosen())?;
    append_events(alloc, &mut text, play.journal())?;
    Ok(text)
}

fn append_chosen(alloc: Global, text: &mut Bytes, chosen: Option<u32>) -> Result<(), NoMemory> {
    match chosen {
        Some(alternative) => {
            let said = format!(in alloc; " by {alternative}")?;
            text.append(said.as_bytes())
        }
        None => Ok(()),
    }
}

fn append_events(alloc: Global, text: &mut Bytes, journal: &Journal) -> Result<(), NoMemory> {
    for place in 0..journal.len() {
        append_event(alloc, text, journal.event(place))?;
    }
    Ok(())
}

fn append_event(alloc: Global, text: &mut Bytes, event: Event<'_>) -> Result<(), NoMemory> {
    match event {
        Event::Claim(seat, node) => append_seat(alloc, text, ", claim", seat, node),
        Event::Commit(seat, node, counts) => {
            append_seat(alloc, text, ", commit", seat, node)?;
            append_counts(alloc, text, counts)
        }
        Event::Release(seat, node) => append_seat(alloc, text, ", release", seat, node),
    }
}

fn append_seat(
    alloc: Global,
    text: &mut Bytes,
    word: &str,
    seat: u32,
    node: u32,
) -> Result<(), NoMemory> {
    let said = format!(in alloc; "{word} {seat} {node}")?;
    text.append(said.as_bytes())
}

fn append_counts(alloc: Global, text: &mut Bytes, counts: &[u32]) -> Result<(), NoMemory> {
    for count in counts {
        let said = format!(in alloc; " {count}")?;
        text.append(said.as_bytes())?;
    }
    Ok(())
}

fn moves_answer(alloc: Global, table: Table, budget: u32, moves: &str) -> Result<Bytes, NoMemory>
    requires { 0 < budget }
{
    let mut text = Bytes::new(alloc);
    let mut play = Play::start(alloc, table, 0, budget)?;
    for one in moves.split(',') {
        if text.len() > 0 {
            text.append(b", ")?;
        }
        make_move(alloc, &mut play, one, &mut text)?;
    }
    Ok(text)
}

fn make_move(
    alloc: Global,
    play: &mut Play<Table>,
    given: &str,
    text: &mut Bytes,
) -> Result<(), NoMemory> {
    let mut words = given.split_whitespace();
    let word = next_word(&mut words);
    let seat = next_number(&mut words);
    match word {
        "claim" => append_claim(alloc, text, play.claim(seat)?),
        "commit" => append_children(alloc, text, play.commit(alloc, seat)?),
        "release" => append_released(text, play.release(seat)),
        "held" => append_held(alloc, text, play.held(seat)),
        "events" => append_events(alloc, text, play.journal()),
        _ => append_root(text, play.verdict()),
    }
}

fn append_claim(
    alloc: Global,
    text: &mut Bytes,
    answer: Option<Claim<u32>>,
) -> Result<(), NoMemory> {
    let said = match answer {
        Some(Claim::Take(node, row)) => format!(in alloc; "take {node} row {row}")?,
        Some(Claim::Decided) => format!(in alloc; "decided")?,
        Some(Claim::Spent(held)) => format!(in alloc; "spent {held}")?,
        Some(Claim::Idle(held)) => format!(in alloc; "idle {held}")?,
        None => format!(in alloc; "busy")?,
    };
    text.append(said.as_bytes())
}

fn append_children(
    alloc: Global,
    text: &mut Bytes,
    spans: Option<Vec<(u32, u32)>>,
) -> Result<(), NoMemory> {
    let Some(spans) = spans else {
        return text.append(b"nothing");
    };
    text.append(b"children")?;
    for span in spans.as_slice() {
        let (first, count) = *span;
        let said = format!(in alloc; " {first}+{count}")?;
        text.append(said.as_bytes())?;
    }
    Ok(())
}

fn append_released(text: &mut Bytes, is_released: bool) -> Result<(), NoMemory> {
    if is_released {
        text.append(b"released")
    } else {
        text.append(b"nothing")
    }
}

fn append_held(alloc: Global, text: &mut Bytes, held: Option<u32>) -> Result<(), NoMemory> {
    match held {
        Some(node) => {
            let said = format!(in alloc; "holds {node}")?;
            text.append(said.as_bytes())
        }
        None => text.append(b"nothing"),
    }
}

fn append_root(text: &mut Bytes, root: Root) -> Result<(), NoMemory> {
    match root {
        Root::Proved => text.append(b"proved"),
        Root::Stuck => text.append(b"stuck"),
        Root::Undecided => text.append(b"undecided"),
    }
}
