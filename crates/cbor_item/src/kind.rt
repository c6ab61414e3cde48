//! The type of an item, as its first bytes tell it.

ghost use Rattle.std.specs.Prelude.{◌≡◌, ◌≤◌, IfOk, IfErr, Some, None, ◌∷◌, drop, length};
ghost use Rattle.std.specs.Int.{IsInRange};
ghost use Rattle.cbor_item.specs.Kind.{kind_of, kind_of_initial, kind_of_negative};

use crate::error::ItemError;

/// The type of an item. An integer has the narrowest type that its head's width shows.
#[derive(Clone, Copy, Debug, PartialEq, Eq, PartialOrd, Ord, Hash)]
pub enum ItemType {
    Bool,
    Null,
    Undefined,
    U8,
    U16,
    U32,
    U64,
    I8,
    I16,
    I32,
    I64,
    /// A negative integer below -2^63.
    Int,
    F16,
    F32,
    F64,
    Simple,
    Bytes,
    BytesIndef,
    String,
    StringIndef,
    Array,
    ArrayIndef,
    Map,
    MapIndef,
    Tag,
    Break,
    /// No well-formed item begins with this initial byte.
    Unknown(u8),
}

/// The type of the item that begins at the offset. Of a negative integer after an initial byte of 38
/// to 3b (hexadecimal), the next byte is looked at too. What follows is not looked at.
pub fn item_type(input: &[u8], at: usize) -> Result<ItemType, ItemError>
    requires { at ≤ length input.now }
    ensures shown { IfOk result (λ t. kind_of (drop at input.now) ≡ Some t) }
    ensures truncated { IfErr result (λ e. (e ≡ ItemError.Truncated) × (kind_of (drop at input.now) ≡ None)) }
{
    match &input[at..] {
        [] => Err(ItemError::Truncated),
        [initial, following @ ..] => type_after(*initial, following),
    }
}

/// The type by the initial byte and the bytes after it.
fn type_after(initial: u8, following: &[u8]) -> Result<ItemType, ItemError>
    ensures shown { IfOk result (λ t. kind_of (initial ∷ following.now) ≡ Some t) }
    ensures truncated { IfErr result (λ e. (e ≡ ItemError.Truncated) × (kind_of (initial ∷ following.now) ≡ None)) }
{
    if !matches!(initial, 0x38..=0x3b) {
        return Ok(initial_type(initial));
    }
    match following {
        [] => Err(ItemError::Truncated),
        [next, ..] => Ok(negative_type(initial, *next)),
    }
}

/// The type of a negative integer whose argument begins with the next byte: of the argument's width
/// where that byte's first bit is clear, and of the next width where it is set.
fn negative_type(initial: u8, next: u8) -> ItemType
    requires { IsInRange 0x38 0x3b initial }
    ensures { result ≡ kind_of_negative initial next }
{
    match (initial, next < 0x80) {
        (0x38, true) => ItemType::I8,
        (0x38, false) | (0x39, true) => ItemType::I16,
        (0x39, false) | (0x3a, true) => ItemType::I32,
        (0x3a, false) | (_, true) => ItemType::I64,
        _ => ItemType::Int,
    }
}

/// The type that the initial byte alone tells.
fn initial_type(initial: u8) -> ItemType
    ensures { result ≡ kind_of_initial initial }
{
    match initial {
        0x00..=0x18 => ItemType::U8,
        0x19 => ItemType::U16,
        0x1a => ItemType::U32,
        0x1b => ItemType::U64,
        0x20..=0x37 => ItemType::I8,
        0x40..=0x5b => ItemType::Bytes,
        0x5f => ItemType::BytesIndef,
        0x60..=0x7b => ItemType::String,
        0x7f => ItemType::StringIndef,
        0x80..=0x9b => ItemType::Array,
        0x9f => ItemType::ArrayIndef,
        0xa0..=0xbb => ItemType::Map,
        0xbf => ItemType::MapIndef,
        0xc0..=0xdb => ItemType::Tag,
        0xe0..=0xf3 | 0xf8 => ItemType::Simple,
        0xf4 | 0xf5 => ItemType::Bool,
        0xf6 => ItemType::Null,
        0xf7 => ItemType::Undefined,
        0xf9 => ItemType::F16,
        0xfa => ItemType::F32,
        0xfb => ItemType::F64,
        0xff => ItemType::Break,
        _ => ItemType::Unknown(initial),
    }
}
