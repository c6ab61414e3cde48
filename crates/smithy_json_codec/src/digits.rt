//! The text of a whole number (RFC 8259, section 6), at the end of a body.
ghost use Rattle.std.specs.Prelude.{◌≡◌, ◌+◌, ◌/◌, ◌%◌, ◌<◌, ◌≤◌, ◌++◌, ◌∷◌, [], OnOk, vec_len, vec_capacity};
ghost use Rattle.std.specs.Fmt.{decimal, signed_decimal};

use itoa::Buffer;
use std::alloc::AllocError;

// The number of digits of those that are written one by one, and the least number with more.
const SHORT: usize = 4;

const LONG: i64 = 10_000;

// The ASCII digit of a number below ten.
#[inline(always)]
fn digit(n: u16) -> u8
    requires { n < 10 }
    ensures { result ≡ 48 + n }
{
    b'0' + n as u8
}

// Adds two digits, of which the first may be zero.
#[inline(always)]
fn push_pair(out: &mut Vec<u8>, n: u16)
    requires below { n < 100 }
    requires room { vec_len out.old + 2 ≤ vec_capacity out.old }
    ensures digits { out.new.items ≡ out.old.items ++ (48 + n / 10) ∷ (48 + n % 10) ∷ [] }
    ensures length { vec_len out.new ≡ vec_len out.old + 2 }
    ensures capacity { vec_capacity out.new ≡ vec_capacity out.old }
{
    out.push_reserved(digit(n / 10));
    out.push_reserved(digit(n % 10));
}

// Adds a number of one digit or two.
#[inline(always)]
fn push_front(out: &mut Vec<u8>, n: u16)
    requires below { n < 100 }
    requires room { vec_len out.old + 2 ≤ vec_capacity out.old }
    ensures digits { out.new.items ≡ out.old.items ++ decimal n }
    ensures length { vec_len out.new ≤ vec_len out.old + 2 }
    ensures capacity { vec_capacity out.new ≡ vec_capacity out.old }
{
    if n >= 10 {
        return push_pair(out, n);
    }
    out.push_reserved(digit(n));
}

// Adds a number of four digits at most.
#[inline(always)]
fn push_short(out: &mut Vec<u8>, n: u16)
    requires below { n < 10000 }
    requires room { vec_len out.old + 4 ≤ vec_capacity out.old }
    ensures { out.new.items ≡ out.old.items ++ decimal n }
{
    if n < 100 {
        return push_front(out, n);
    }
    push_front(out, n / 100);
    push_pair(out, n % 100);
}

// Adds any number.
#[inline(never)]
fn push_any(out: &mut Vec<u8>, n: i64) -> Result<(), AllocError>
    ensures { OnOk result (out.new.items ≡ out.old.items ++ signed_decimal n) }
{
    let mut buffer = Buffer::new();
    out.extend_from_slice(buffer.format(n).as_bytes())
}

/// Adds a number. A short one, for which there is room, is written in line.
#[inline(always)]
pub(crate) fn push_long(out: &mut Vec<u8>, n: i64) -> Result<(), AllocError>
    ensures { OnOk result (out.new.items ≡ out.old.items ++ signed_decimal n) }
{
    if n < 0 || n >= LONG || out.capacity() - out.len() < SHORT {
        return push_any(out, n);
    }
    push_short(out, n as u16);
    Ok(())
}
