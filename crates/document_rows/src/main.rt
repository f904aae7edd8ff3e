//! Rows of whole documents: the words of a command line, a file, and the status with the document that are to come of them. The words of the command line are names: the row of a
//! name is `NAME.row` of the folder, whose three parts have lines `---` between them. It writes a line for each.
#![tactic(auto)]

use aesop_session::run_still;
use basics::{Bytes, Name, NoMemory, Words};
use run_io::{SureSink, SureSource};
use std::alloc::Global;
use std::process::ExitCode;
use std::{env, fs, io};

/// The most bytes of a document.
const ROOM: usize = 1 << 20;

/// What stands between the parts of a row.
const BORDER: &str = "---\n";

/// A row: the words, the file, and what is to come of them.
#[derive(Clone, Copy)]
struct Row<'a> {
    words: &'a str,
    file: &'a str,
    wanted: &'a str,
}

fn row_of(text: &str) -> Option<Row<'_>> {
    let (words, rest) = text.split_once(BORDER)?;
    let (file, wanted) = rest.split_once(BORDER)?;
    Some(Row {
        words,
        file,
        wanted,
    })
}

fn words_of(alloc: Global, line: &str) -> Result<Words, NoMemory> {
    let mut words = Words::new(alloc);
    for word in line.split_whitespace() {
        words.push(Name::from_slice(alloc, word.as_bytes())?)?;
    }
    Ok(words)
}

fn status_of(alloc: Global, words: &Words, source: &mut SureSource, sink: &mut SureSink) -> u8 {
    run_still(alloc, words, source, sink).code()
}

/// Whether what comes of a row is what is wanted: the status in a line, and then the document.
fn is_answered(alloc: Global, row: &Row<'_>) -> Result<bool, NoMemory> {
    let words = words_of(alloc, row.words)?;
    let mut source = SureSource::new(Bytes::from_slice(alloc, row.file.as_bytes())?);
    let mut sink = SureSink::with_room(alloc, ROOM)?;
    let status = status_of(alloc, &words, &mut source, &mut sink);
    let Some((wanted_status, document)) = row.wanted.split_once("\n") else {
        return Ok(false);
    };
    Ok(wanted_status.parse() == Ok(status) && sink.held() == document.as_bytes())
}

/// What is to be said of a row.
fn verdict(rt: &HostRuntime, name: &str) -> io::Result<&'static str> {
    let path = format!(in rt.alloc(); "{name}.row")?;
    let text = fs::read_to_string(rt, path.as_str())?;
    let Some(row) = row_of(text.as_str()) else {
        return Ok("not a row");
    };
    match is_answered(rt.alloc(), &row) {
        Ok(true) => Ok("answered as written"),
        Ok(false) => Ok("answered otherwise"),
        Err(_) => Ok("out of memory"),
    }
}

fn say_all(rt: &HostRuntime) -> io::Result<()> {
    for name in env::args(rt)?.skip(1) {
        let said = verdict(rt, name.as_str())?;
        println!(rt; "{name}: {said}")?;
    }
    Ok(())
}

fn main(rt: HostRuntime) -> ExitCode {
    match say_all(&rt) {
        Ok(()) => ExitCode::SUCCESS,
        Err(_) => ExitCode::FAILURE,
    }
}
