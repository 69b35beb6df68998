ghost use Rattle.std.specs.Prelude.{◌≡◌, ◌+◌, ◌^◌, ◌<◌, ◌≤◌, OnOk, ◌++◌, length, is_ok, IsOk, if◌then◌else◌, vec_len, vec_capacity};
ghost use Rattle.tokens.specs.Decimal.{decimal_of, ended, spaced};

use itoa::Buffer;
use std::alloc::AllocError;

/// Appends the text. Where memory runs out, nothing is appended.
pub fn push_text(out: &mut Vec<u8>, text: &str) -> Result<(), AllocError>
    ensures items { out.new.items ≡ (if is_ok result then out.old.items ++ text.now else out.old.items) }
    ensures succeeds { vec_len out.old + length text.now ≤ vec_capacity out.old → IsOk result }
{
    out.extend_from_slice(text.as_bytes())
}

/// Appends the number in decimal, with no leading zeros, after a minus where it is negative. Where
/// memory runs out, nothing is appended.
pub fn push_number(out: &mut Vec<u8>, value: i64) -> Result<(), AllocError>
    ensures items { out.new.items ≡ (if is_ok result then out.old.items ++ decimal_of value else out.old.items) }
    ensures succeeds { vec_len out.old + length (decimal_of value) ≤ vec_capacity out.old → IsOk result }
{
    let mut buffer = Buffer::new();
    out.extend_from_slice(buffer.format(value).as_bytes())
}

/// Appends a number and a space. Fails only where memory runs out; the number may then stand there without the space.
pub fn push_spaced(out: &mut Vec<u8>, number: u64) -> Result<(), AllocError>
    requires { number < 2 ^ 63 }
    ensures { OnOk result (out.new.items ≡ out.old.items ++ spaced number) }
{
    push_number(out, number as i64)?;
    push_text(out, " ")
}

/// Appends a number and the end of its line. Fails only where memory runs out; the number may then stand there without the end.
pub fn push_ended(out: &mut Vec<u8>, number: i64) -> Result<(), AllocError>
    ensures { OnOk result (out.new.items ≡ out.old.items ++ ended number) }
{
    push_number(out, number)?;
    push_text(out, "\n")
}
