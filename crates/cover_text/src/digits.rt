//! Short numbers, printed digit by digit: what a cover has most.

ghost use Rattle.std.specs.Prelude.{◌≡◌, [], ◌∷◌, ◌++◌, ◌+◌, ◌<◌, ◌≤◌, ◌^◌, codes, decimal, pos, neg_ℤ, OnOk, vec_len, vec_capacity};
ghost use Rattle.cover_text.specs.Printed.{printed_number};

use dp_model::OutOfMemory;

/// A number below this has at most four digits.
pub(crate) const SHORT: i64 = 10_000;

/// Appends a digit, for which there is room.
#[inline]
fn put_digit(out: &mut Vec<u8>, digit: u64)
    requires digit { digit < 10 }
    requires room { vec_len out.old < vec_capacity out.old }
    ensures items { out.new.items ≡ out.old.items ++ (48 + digit) ∷ [] }
    ensures len { vec_len out.new ≡ vec_len out.old + 1 }
    ensures room { vec_capacity out.new ≡ vec_capacity out.old }
{
    out.push_reserved(b'0' + digit as u8);
}

/// Appends a number of at most two digits, for which there is room.
#[inline]
#[tactic(auto, using(crate::proofs::ShortNumbers::one_digit, crate::proofs::ShortNumbers::two_digits))]
fn put_pair(out: &mut Vec<u8>, number: u64)
    requires short { number < 100 }
    requires room { vec_len out.old + 2 ≤ vec_capacity out.old }
    ensures items { out.new.items ≡ out.old.items ++ decimal number }
    ensures len { vec_len out.new ≤ vec_len out.old + 2 }
    ensures room { vec_capacity out.new ≡ vec_capacity out.old }
{
    if number < 10 {
        return put_digit(out, number);
    }
    put_digit(out, number / 10);
    put_digit(out, number % 10);
}

/// Appends a number of at most four digits, for which there is room.
#[inline]
#[tactic(auto, using(crate::proofs::ShortNumbers::last_digits))]
fn put_short(out: &mut Vec<u8>, number: u64)
    requires short { number < 10000 }
    requires room { vec_len out.old + 4 ≤ vec_capacity out.old }
    ensures { out.new.items ≡ out.old.items ++ decimal number }
{
    if number < 100 {
        return put_pair(out, number);
    }
    let front = number / 10;
    put_pair(out, front / 10);
    put_digit(out, front % 10);
    put_digit(out, number % 10);
}

/// Appends a space and a number of at most four digits.
#[inline]
pub(crate) fn push_short(out: &mut Vec<u8>, number: u64) -> Result<(), OutOfMemory>
    requires { number < 10000 }
    ensures { OnOk result (out.new.items ≡ out.old.items ++ printed_number (pos number)) }
{
    out.reserve(5)?;
    out.push_reserved(b' ');
    put_short(out, number);
    Ok(())
}

/// Appends a space, a minus and a number from 1 of at most four digits.
#[inline]
#[tactic(auto, using(crate::proofs::ShortNumbers::minus))]
pub(crate) fn push_negative(out: &mut Vec<u8>, number: u64) -> Result<(), OutOfMemory>
    requires some { 0 < number }
    requires short { number < 10000 }
    ensures { OnOk result (out.new.items ≡ out.old.items ++ printed_number (neg_ℤ (pos number))) }
{
    out.reserve(6)?;
    out.push_reserved(b' ');
    out.push_reserved(b'-');
    put_short(out, number);
    Ok(())
}
