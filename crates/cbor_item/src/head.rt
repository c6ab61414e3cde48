//! The head of an item: its major type and its argument.

ghost use Rattle.std.specs.Prelude.{◌≡◌, ◌≤◌, Some, ◌∷◌, drop, length};
ghost use Rattle.cbor_item.specs.Head.{shortest_head};
ghost use Rattle.cbor_item.specs.HeadView.{head_read};
ghost use Rattle.cbor_item.specs.Answer.{ReadsHead};
ghost use Rattle.cbor_item.specs.Writing.{Appends};

use crate::error::ItemError;
use std::alloc::AllocError;

/// The initial byte of a simple value that stands in the byte after it.
const SIMPLE_IN_NEXT_BYTE: u8 = 0xf8;

/// A head: the major type from 0 to 7, the argument, and how many bytes they take.
#[derive(Clone, Copy, Debug, PartialEq, Eq)]
pub struct Head {
    pub major: u8,
    /// `None` under additional information 31: an indefinite length, or a break.
    pub argument: Option<u64>,
    /// The number of the head's bytes, the initial byte included.
    pub length: u8,
}

/// Reads the head that begins at the offset.
pub fn read_head(input: &[u8], at: usize) -> Result<Head, ItemError>
    requires { at ≤ length input.now }
    ensures { ReadsHead (drop at input.now) result }
{
    match &input[at..] {
        [] => Err(ItemError::Truncated),
        [initial, following @ ..] => head_after(*initial, following),
    }
}

/// The head of the initial byte and the bytes after it.
fn head_after(initial: u8, following: &[u8]) -> Result<Head, ItemError>
    ensures { ReadsHead (initial ∷ following.now) result }
{
    let major = initial / 32;
    match (initial % 32, following) {
        (information @ 0..=23, _) => Ok(head_of(major, u64::from(information), 1)),
        (24, [a, ..]) if initial == SIMPLE_IN_NEXT_BYTE && *a < 32 => Err(ItemError::NotWellFormed),
        (24, [a, ..]) => Ok(head_of(major, u64::from(*a), 2)),
        (25, [a, b, ..]) => Ok(head_of(major, u64::from(u16::from_be_bytes([*a, *b])), 3)),
        (26, [a, b, c, d, ..]) => Ok(head_of(
            major,
            u64::from(u32::from_be_bytes([*a, *b, *c, *d])),
            5,
        )),
        (27, [a, b, c, d, e, f, g, h, ..]) => Ok(head_of(
            major,
            u64::from_be_bytes([*a, *b, *c, *d, *e, *f, *g, *h]),
            9,
        )),
        (24..=27, _) => Err(ItemError::Truncated),
        (31, _) if matches!(major, 2..=5 | 7) => Ok(Head {
            major,
            argument: None,
            length: 1,
        }),
        _ => Err(ItemError::NotWellFormed),
    }
}

/// A head that has an argument.
fn head_of(major: u8, argument: u64, length: u8) -> Head
    ensures { head_read result ≡ record { major = major; argument = Some argument; length = length } }
{
    Head {
        major,
        argument: Some(argument),
        length,
    }
}

/// Writes the shortest head of a major type and an argument.
#[inline(always)]
pub fn write_head(out: &mut Vec<u8>, major: u8, argument: u64) -> Result<(), AllocError>
    requires { major ≤ 7 }
    ensures { Appends (shortest_head major argument) out.old.items result out.new.items }
{
    if argument < 24 {
        return Ok(out.push(32 * major + argument as u8)?);
    }
    write_long_head(out, major, argument)
}

/// Writes the head of an argument that its initial byte doesn't hold.
#[inline(always)]
fn write_long_head(out: &mut Vec<u8>, major: u8, argument: u64) -> Result<(), AllocError>
    requires major { major ≤ 7 }
    requires long { 24 ≤ argument }
    ensures { Appends (shortest_head major argument) out.old.items result out.new.items }
{
    let kind = 32 * major;
    match argument {
        0..=0xff => out.extend_from_slice(&[kind + 24, argument as u8]),
        0x100..=0xffff => {
            let [a, b] = (argument as u16).to_be_bytes();
            out.extend_from_slice(&[kind + 25, a, b])
        }
        _ => write_wide_head(out, major, argument),
    }
}

/// Writes the head of an argument of more than two bytes. It takes more registers than the others.
#[inline(never)]
fn write_wide_head(out: &mut Vec<u8>, major: u8, argument: u64) -> Result<(), AllocError>
    requires major { major ≤ 7 }
    requires wide { 65536 ≤ argument }
    ensures { Appends (shortest_head major argument) out.old.items result out.new.items }
{
    let kind = 32 * major;
    if argument <= 0xffff_ffff {
        let [a, b, c, d] = (argument as u32).to_be_bytes();
        return out.extend_from_slice(&[kind + 26, a, b, c, d]);
    }
    let [a, b, c, d, e, f, g, h] = argument.to_be_bytes();
    out.extend_from_slice(&[kind + 27, a, b, c, d, e, f, g, h])
}
