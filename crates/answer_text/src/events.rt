//! Journals as text.

ghost use Rattle.std.specs.Prelude.{◌≡◌, ◌++◌, OnOk, OnErr, flat_map};
ghost use Rattle.std.specs.Io.{StartsWith};
ghost use Rattle.tree_steps.specs.Journals.{event_shown};
ghost use Rattle.answer_text.specs.Texts.{event_text, number_text};

use crate::numerals::{append_number, append_numbers};
use basics::{Bytes, NoMemory};
use tree_steps::{Event, Journal};

// Adds a line for each event of a journal.
pub(crate) fn append_events(journal: &Journal, out: &mut Bytes) -> Result<(), NoMemory>
    ensures ok { OnOk result (out.new ≡ out.old ++ flat_map event_text journal.now.events) }
    ensures err { OnErr result (StartsWith out.new out.old) }
{
    for place in 0..journal.len() {
        append_event(journal.event(place), out)?;
    }
    Ok(())
}

// Adds the line of an event.
fn append_event(event: Event<'_>, out: &mut Bytes) -> Result<(), NoMemory>
    ensures ok { OnOk result (out.new ≡ out.old ++ event_text (event_shown event.entry)) }
    ensures err { OnErr result (StartsWith out.new out.old) }
{
    match event {
        Event::Claim(seat, node) => append_held(b"claim", seat, node, out)?,
        Event::Commit(seat, node, counts) => {
            append_held(b"commit", seat, node, out)?;
            append_numbers(counts, out)?;
        }
        Event::Release(seat, node) => append_held(b"release", seat, node, out)?,
    }
    out.push(b'\n')
}

// Adds a word, a seat and a node.
fn append_held(word: &[u8], seat: u32, node: u32, out: &mut Bytes) -> Result<(), NoMemory>
    ensures ok { OnOk result (out.new ≡ out.old ++ (word.now ++ number_text seat ++ number_text node)) }
    ensures err { OnErr result (StartsWith out.new out.old) }
{
    out.append(word)?;
    append_number(seat, out)?;
    append_number(node, out)
}
