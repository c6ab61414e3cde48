//! The value that a body stands for, whichever wire carries it, as a tree.
use smithy_types::{DateTime, Document};
use std::alloc::Global;
use std::borrow::{CowSlice, CowStr};
use std::collections::BTreeMap;

/// A value. Its texts and bytes borrow from the input that it was read from, where they stand in it in one piece.
#[derive(Debug, Drop)]
pub enum Value<'a> {
    /// False or true.
    Boolean(bool),
    /// A whole number of any integer kind, big integers too, from -2^127 to 2^127-1.
    Whole(i128),
    /// A text.
    Text(CowStr<'a, Global>),
    /// Any bytes.
    Bytes(CowSlice<'a, u8, Global>),
    /// A mantissa, times ten to an exponent, as they were given.
    Decimal(i128, i64),
    /// An instant.
    Instant(DateTime),
    /// The elements of a list, in their order.
    List(Vec<Value<'a>>),
    /// The values of a map by their keys.
    Map(BTreeMap<String, Value<'a>>),
    /// The members that are present, by their positions in the table, from 0.
    Structure(BTreeMap<u32, Value<'a>>),
    /// The member of a union, by its position in the table, from 0, and its value.
    Union(u32, Box<Value<'a>>),
    /// A null among the elements of a sparse list or the values of a sparse map.
    Null,
    /// A document. Of its numbers the whole number alone counts.
    Document(Document),
}
