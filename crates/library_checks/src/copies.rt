//! Copies, comparisons, order and hashes.

use cbor_item::{Head, ItemError, ItemType};
use smithy_cbor::Decoder;
use smithy_json::{EscapeError, EscapedStr};
use smithy_json_grammar::number_text::scan_number;
use smithy_json_grammar::string_text::scan_string;
use smithy_json_tokens::{Offset, Token};
use smithy_schema::TableFault;
use smithy_transcode::Wire;
use smithy_types::{BigDecimal, BigInteger, Blob, DateTime, Number};
use std::alloc::{AllocError, Global};
use std::hash::{DefaultHasher, Hash, Hasher};

fn hash<T: Hash>(value: &T) -> u64 {
    let mut state = DefaultHasher::new();
    value.hash(&mut state);
    state.finish()
}

// Whether a value is the same as its copy.
fn is_copied<T: Clone + PartialEq + Drop>(value: &T) -> bool {
    match value.clone() {
        Ok(copy) => copy == *value,
        Err(_) => false,
    }
}

pub fn a_blob_keeps_its_bytes(alloc: Global) -> Result<bool, AllocError> {
    let blob = Blob::new(Vec::from_slice(alloc, b"\x00\x7f\xab\xff")?);
    let copy = blob.clone_in(alloc)?;
    let is_same = copy == blob
        && hash(&copy) == hash(&blob)
        && copy.as_ref() == b"\x00\x7f\xab\xff".as_slice()
        && Blob::new(Vec::new(alloc)) != blob;
    let bytes = Vec::from(copy);
    Ok(is_same && bytes.len() == 4 && Blob::from(bytes).into_inner().as_slice() == blob.as_ref())
}

// Whether a number is the same as its copy, with the same hash, and differs from another.
fn is_copied_in(alloc: Global, number: &BigInteger, other: &BigInteger) -> bool {
    match number.clone_in(alloc) {
        Ok(copy) => copy == *number && hash(&copy) == hash(number) && other != number,
        Err(_) => false,
    }
}

pub fn big_integers_are_compared(alloc: Global) -> Result<bool, AllocError> {
    let number = BigInteger::from_i128(alloc, -5)?;
    let other = BigInteger::from_i128(alloc, 5)?;
    Ok(is_copied_in(alloc, &number, &other))
}

pub fn numbers_are_compared(alloc: Global) -> Result<bool, AllocError> {
    let decimal = BigDecimal::from_parts(alloc, 12300, -4)?;
    let copy = decimal.clone_in(alloc)?;
    Ok(
        copy == decimal
            && Number::PosInt(1) == Number::PosInt(1)
            && Number::PosInt(1) != Number::NegInt(1),
    )
}

pub fn instants_are_in_order() -> bool {
    let mut instant = DateTime::from_secs(0);
    instant.set_seconds(7).set_subsec_nanos(1);
    instant == DateTime::from_secs_and_nanos(7, 1)
        && DateTime::from_millis(-1) < DateTime::from_secs(0)
        && DateTime::from_millis(5000) == DateTime::from_secs(5)
        && hash(&DateTime::from_millis(5000)) == hash(&DateTime::from_secs(5))
}

pub fn what_was_found_in_json_is_copied() -> bool {
    is_copied(&EscapedStr::new("a\\n"))
        && EscapedStr::new("a\\n") != EscapedStr::new("a")
        && scan_number(b"x-10 ", 1).is_some_and(|number| is_copied(&number))
        && is_copied(&EscapeError::NoMemory)
}

pub fn a_string_that_was_found_is_copied() -> Option<bool> {
    let string = scan_string(b"x\"\\n\"", 1)?;
    let copy = string.clone().ok()?;
    Some(copy.text == "\\n")
}

pub fn tokens_and_faults_are_compared() -> bool {
    let token = Token::EndArray { offset: Offset(3) };
    token == Token::EndArray { offset: Offset(3) }
        && token != Token::EndObject { offset: Offset(3) }
        && token != Token::EndArray { offset: Offset(4) }
        && TableFault::BadLine(3) == TableFault::BadLine(3)
        && TableFault::BadLine(3) != TableFault::BadLine(4)
        && TableFault::TooMany(3) != TableFault::NoMemory
}

// A form of the action `A`.
fn form(alloc: Global, version: &str) -> Result<Wire, AllocError> {
    Ok(Wire::Query {
        action: "A".to_string(alloc)?,
        version: version.to_string(alloc)?,
    })
}

pub fn wires_are_compared_by_what_is_chosen(alloc: Global) -> Result<bool, AllocError> {
    let cbor = Wire::Cbor { definite: true };
    let first = form(alloc, "1")?;
    let second = form(alloc, "2")?;
    Ok(
        cbor == Wire::Cbor { definite: true }
            && cbor != Wire::Cbor { definite: false }
            && first != second
            && first != cbor,
    )
}

pub fn a_copy_of_a_decoder_stands_where_it_stood() -> Option<bool> {
    let mut decoder = Decoder::new(b"\x00\xf5\x00");
    decoder.set_position(1);
    let mut copy = decoder.clone().ok()?;
    let value = copy.boolean().ok()?;
    Some(value && (copy.position(), decoder.position()) == (2, 1))
}

/// Each type, in order; the last two are unknown by their bytes.
const TYPES: [ItemType; 28] = [
    ItemType::Bool,
    ItemType::Null,
    ItemType::Undefined,
    ItemType::U8,
    ItemType::U16,
    ItemType::U32,
    ItemType::U64,
    ItemType::I8,
    ItemType::I16,
    ItemType::I32,
    ItemType::I64,
    ItemType::Int,
    ItemType::F16,
    ItemType::F32,
    ItemType::F64,
    ItemType::Simple,
    ItemType::Bytes,
    ItemType::BytesIndef,
    ItemType::String,
    ItemType::StringIndef,
    ItemType::Array,
    ItemType::ArrayIndef,
    ItemType::Map,
    ItemType::MapIndef,
    ItemType::Tag,
    ItemType::Break,
    ItemType::Unknown(0x1c),
    ItemType::Unknown(0xfc),
];

pub fn types_of_items_are_in_order() -> bool {
    for pair in TYPES.windows(2) {
        if pair[0] >= pair[1] {
            return false;
        }
    }
    for item_type in &TYPES {
        if !is_copied(item_type) {
            return false;
        }
    }
    let head = Head {
        major: 0,
        argument: Some(24),
        length: 2,
    };
    is_copied(&head) && is_copied(&ItemError::WrongType)
}
