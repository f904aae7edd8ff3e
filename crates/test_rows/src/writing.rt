//! What the signs of a row stand for.

use basics::{Bytes, NoMemory};
use std::alloc::Global;
use std::str::SplitWhitespace;

/// The text with a line end for each `/` and the byte 255 for each `~`. A part between two backquotes,
/// as `3*q@ `, is written so many times: in it `@` is the number of the time from 0, `$` the number
/// after it, and `&` how many times are left, this one among them.
///
/// # Errors
///
/// `NoMemory` where memory runs out.
pub fn written(alloc: Global, text: &str) -> Result<Bytes, NoMemory> {
    let mut bytes = Bytes::new(alloc);
    let mut is_repeated = false;
    for part in text.split('`') {
        if is_repeated {
            append_times(alloc, &mut bytes, part)?;
        } else {
            append_part(alloc, &mut bytes, part, 0, 1)?;
        }
        is_repeated = !is_repeated;
    }
    Ok(bytes)
}

fn append_times(alloc: Global, bytes: &mut Bytes, part: &str) -> Result<(), NoMemory> {
    let (count, text) = part.split_once('*').unwrap_or(("1", part));
    let count: u32 = count.parse().unwrap_or(0);
    for time in 0..count {
        append_part(alloc, bytes, text, time, count)?;
    }
    Ok(())
}

fn append_part(
    alloc: Global,
    bytes: &mut Bytes,
    text: &str,
    time: u32,
    count: u32,
) -> Result<(), NoMemory> {
    for byte in text.bytes() {
        match byte {
            b'/' => bytes.push(b'\n')?,
            b'~' => bytes.push(255)?,
            b'@' => append_number(alloc, bytes, time)?,
            b'$' => append_number(alloc, bytes, time.saturating_add(1))?,
            b'&' => append_number(alloc, bytes, count.saturating_sub(time))?,
            _ => bytes.push(byte)?,
        }
    }
    Ok(())
}

/// Adds the digits of a number.
///
/// # Errors
///
/// `NoMemory` where memory runs out.
pub fn append_number(alloc: Global, bytes: &mut Bytes, number: u32) -> Result<(), NoMemory> {
    let digits = format!(in alloc; "{number}")?;
    bytes.append(digits.as_bytes())
}

/// The number that the next word is, or 0 where it is none.
pub fn next_number(words: &mut SplitWhitespace<'_>) -> u32 {
    words.next().unwrap_or("").parse().unwrap_or(0)
}
