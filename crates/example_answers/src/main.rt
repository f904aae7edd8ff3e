//! The examples, each with its answer. The words of the command line are their names: for a name, the file
//! `NAME.lf` of the folder is to be answered by what `NAME.answer` holds. It writes a line for each.
#![tactic(auto)]

use aesop_session::run_still;
use basics::{Bytes, Name, NoMemory, Words};
use run_io::{SureSink, SureSource};
use std::alloc::Global;
use std::process::ExitCode;
use std::{env, fs, io};

/// The most bytes of an answer.
const ROOM: usize = 1 << 20;

fn words(alloc: Global) -> Result<Words, NoMemory> {
    let mut words = Words::new(alloc);
    for word in ["prove", "--workers", "0"] {
        words.push(Name::from_slice(alloc, word.as_bytes())?)?;
    }
    Ok(words)
}

/// Whether a file has this answer.
fn is_answered(alloc: Global, file: &str, wanted: &str) -> Result<bool, NoMemory> {
    let words = words(alloc)?;
    let mut source = SureSource::new(Bytes::from_slice(alloc, file.as_bytes())?);
    let mut sink = SureSink::with_room(alloc, ROOM)?;
    answer(alloc, &words, &mut source, &mut sink);
    Ok(sink.held() == wanted.as_bytes())
}

fn answer(alloc: Global, words: &Words, source: &mut SureSource, sink: &mut SureSink) {
    let _ = run_still(alloc, words, source, sink);
}

/// What is to be said of an example.
fn verdict(rt: &HostRuntime, name: &str) -> io::Result<&'static str> {
    let path = format!(in rt.alloc(); "{name}.lf")?;
    let file = fs::read_to_string(rt, path.as_str())?;
    let path = format!(in rt.alloc(); "{name}.answer")?;
    let wanted = fs::read_to_string(rt, path.as_str())?;
    match is_answered(rt.alloc(), file.as_str(), wanted.as_str()) {
        Ok(true) => Ok("answered as written"),
        Ok(false) => Ok("answered otherwise"),
        Err(_) => Ok("out of memory"),
    }
}

fn say_all(rt: &HostRuntime) -> io::Result<()> {
    for name in env::args(rt)?.skip(1) {
        let said = verdict(rt, name.as_str())?;
        println!(rt; "{name}: {said}")?;
    }
    Ok(())
}

fn main(rt: HostRuntime) -> ExitCode {
    match say_all(&rt) {
        Ok(()) => ExitCode::SUCCESS,
        Err(_) => ExitCode::FAILURE,
    }
}
