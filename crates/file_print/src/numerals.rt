//! Numbers and variables as text.

ghost use Rattle.std.specs.Prelude.{◌≡◌, ◌++◌, OnOk, OnErr, decimal};
ghost use Rattle.std.specs.Io.{StartsWith};
ghost use Rattle.file_print.specs.Texts.{variable_text};

use basics::{Bytes, NoMemory};

// Adds the digits of a number, one by one: no text of it alone is made. At most ten calls lie one in another.
pub(crate) fn append_decimal(number: u32, out: &mut Bytes) -> Result<(), NoMemory>
    ensures ok { OnOk result (out.new ≡ out.old ++ decimal number) }
    ensures err { OnErr result (StartsWith out.new out.old) }
{
    if number < 10 {
        return out.push(b'0' + number as u8);
    }
    append_decimal(number / 10, out)?;
    out.push(b'0' + (number % 10) as u8)
}

// Adds the variable that is bound under so many binders.
pub(crate) fn append_variable(count: u32, out: &mut Bytes) -> Result<(), NoMemory>
    ensures ok { OnOk result (out.new ≡ out.old ++ variable_text count) }
    ensures err { OnErr result (StartsWith out.new out.old) }
{
    out.push(b'_')?;
    append_decimal(count, out)
}
