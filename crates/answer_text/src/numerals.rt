//! Numbers as text.

ghost use Rattle.std.specs.Prelude.{◌≡◌, ◌++◌, OnOk, OnErr, decimal, flat_map};
ghost use Rattle.std.specs.Io.{StartsWith};
ghost use Rattle.answer_text.specs.Texts.{listed_text, number_text};
ghost use Rattle.answer_text.specs.Parts.{other_text};

use basics::{Bytes, Ids, NoMemory};

// Adds the digits of a number, one by one: no text of it alone is made. At most ten calls lie one in another.
pub(crate) fn append_decimal(number: u32, out: &mut Bytes) -> Result<(), NoMemory>
    ensures ok { OnOk result (out.new ≡ out.old ++ decimal number) }
    ensures err { OnErr result (StartsWith out.new out.old) }
{
    if number < 10 {
        return out.push(b'0' + number as u8);
    }
    append_decimal(number / 10, out)?;
    out.push(b'0' + (number % 10) as u8)
}

// Adds a space and a number.
pub(crate) fn append_number(number: u32, out: &mut Bytes) -> Result<(), NoMemory>
    ensures ok { OnOk result (out.new ≡ out.old ++ number_text number) }
    ensures err { OnErr result (StartsWith out.new out.old) }
{
    out.push(b' ')?;
    append_decimal(number, out)
}

// Adds numbers, each after a space.
pub(crate) fn append_numbers(numbers: &[u32], out: &mut Bytes) -> Result<(), NoMemory>
    ensures ok { OnOk result (out.new ≡ out.old ++ flat_map number_text numbers.now) }
    ensures err { OnErr result (StartsWith out.new out.old) }
{
    for number in numbers {
        append_number(*number, out)?;
    }
    Ok(())
}

// Adds numbers with commas between them.
pub(crate) fn append_listed(numbers: &Ids, out: &mut Bytes) -> Result<(), NoMemory>
    ensures ok { OnOk result (out.new ≡ out.old ++ listed_text numbers.now) }
    ensures err { OnErr result (StartsWith out.new out.old) }
{
    let Some((first, rest)) = numbers.as_slice().split_first() else {
        return Ok(());
    };
    append_decimal(*first, out)?;
    append_others(rest, out)
}

// Adds numbers, each after a comma.
fn append_others(numbers: &[u32], out: &mut Bytes) -> Result<(), NoMemory>
    ensures ok { OnOk result (out.new ≡ out.old ++ flat_map other_text numbers.now) }
    ensures err { OnErr result (StartsWith out.new out.old) }
{
    for number in numbers {
        append_other(*number, out)?;
    }
    Ok(())
}

// Adds a comma and a number.
fn append_other(number: u32, out: &mut Bytes) -> Result<(), NoMemory>
    ensures ok { OnOk result (out.new ≡ out.old ++ other_text number) }
    ensures err { OnErr result (StartsWith out.new out.old) }
{
    out.push(b',')?;
    append_decimal(number, out)
}
