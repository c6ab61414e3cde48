//! Calls on a serializer.

use crate::numbers::{Elements, Entries};
use crate::places::{place_of, split};
use smithy_json_codec::JsonCodec;
use smithy_rows::bytes_of;
use smithy_schema::{Schema, SerdeError, ShapeDeserializer, ShapeSerializer, ShapeType, Shapes};
use smithy_types::{BigDecimal, BigInteger, Blob, DateTime, Document};
use std::alloc::Global;

/// Whether a line of a row is a call on a serializer.
pub fn is_call(word: &str) -> bool {
    word.starts_with("begin_")
        || word.starts_with("end_")
        || word.starts_with("write_")
        || word == "fail"
}

/// Makes a call, and tells what it answers. A word that names no call, a place that isn't in the table, or a value that can't be
/// made, gives no answer.
pub fn write_call<S: ShapeSerializer>(
    alloc: Global,
    shapes: &Shapes,
    sink: &mut S,
    word: &str,
    text: &[u8],
) -> Option<Result<(), SerdeError>> {
    match word {
        "end_struct" => return Some(sink.end_struct()),
        "end_list" => return Some(sink.end_list()),
        "end_map" => return Some(sink.end_map()),
        "fail" => {
            sink.fail();
            return Some(Ok(()));
        }
        _ => {}
    }
    let (place, value) = split(str::from_utf8(text).ok()?);
    let place = place_of(shapes, place)?;
    match word {
        "begin_struct" => Some(sink.begin_struct(&place)),
        "begin_list" => Some(sink.begin_list(&place, None)),
        "begin_map" => Some(sink.begin_map(&place, None)),
        "begin_list_of" => Some(sink.begin_list(&place, Some(value.parse::<usize>().ok()?))),
        "begin_map_of" => Some(sink.begin_map(&place, Some(value.parse::<usize>().ok()?))),
        "write_null" => Some(sink.write_null(&place)),
        "write_list" | "write_list_with_length" => numbers_in_list(sink, &place, word, value),
        "write_map" | "write_map_with_length" => numbers_in_map(sink, &place, word, value),
        _ => write_value(alloc, sink, &place, word, value),
    }
}

// The calls that write a value.
fn write_value<S: ShapeSerializer>(
    alloc: Global,
    sink: &mut S,
    place: &Schema<'_>,
    word: &str,
    value: &str,
) -> Option<Result<(), SerdeError>> {
    match word {
        "write_integer_list" => integers(alloc, sink, place, value),
        "write_string" => string(alloc, sink, place, value),
        "write_blob" => blob(alloc, sink, place, value),
        "write_big_integer" => big_integer(alloc, sink, place, value),
        "write_big_decimal" => big_decimal(alloc, sink, place, value),
        "write_document" => document(alloc, sink, place, value),
        "write_i128" => Some(sink.write_i128(place, value.parse::<i128>().ok()?)),
        "write_decimal" => decimal(sink, place, value),
        "write_timestamp" => timestamp(sink, place, value),
        _ => write_number(sink, place, word, value),
    }
}

// The calls that write a boolean or a whole number of 64 bits at most.
fn write_number<S: ShapeSerializer>(
    sink: &mut S,
    place: &Schema<'_>,
    word: &str,
    value: &str,
) -> Option<Result<(), SerdeError>> {
    match word {
        "write_boolean" => Some(sink.write_boolean(place, value.parse::<bool>().ok()?)),
        "write_byte" => Some(sink.write_byte(place, value.parse::<i8>().ok()?)),
        "write_short" => Some(sink.write_short(place, value.parse::<i16>().ok()?)),
        "write_integer" => Some(sink.write_integer(place, value.parse::<i32>().ok()?)),
        "write_long" => Some(sink.write_long(place, value.parse::<i64>().ok()?)),
        _ => None,
    }
}

// The length that is told, where the word is of a call that takes one, and the number of elements or entries.
fn told_and_count(word: &str, text: &str) -> Option<(Option<usize>, u8)> {
    if !word.ends_with("_with_length") {
        return Some((None, text.parse::<u8>().ok()?));
    }
    let (length, count) = split(text);
    Some((
        Some(length.parse::<usize>().ok()?),
        count.parse::<u8>().ok()?,
    ))
}

// Writes a list of whole numbers in one call. None of a place where no list stands.
fn numbers_in_list<S: ShapeSerializer>(
    sink: &mut S,
    place: &Schema<'_>,
    word: &str,
    value: &str,
) -> Option<Result<(), SerdeError>> {
    let (told, count) = told_and_count(word, value)?;
    let elements = Elements {
        element: place.element()?.nameless(),
        count,
    };
    match told {
        Some(length) => Some(sink.write_list_with_length(place, length, &elements)),
        None => Some(sink.write_list(place, &elements)),
    }
}

// Writes a map of whole numbers in one call. None of a place where no map stands.
fn numbers_in_map<S: ShapeSerializer>(
    sink: &mut S,
    place: &Schema<'_>,
    word: &str,
    value: &str,
) -> Option<Result<(), SerdeError>> {
    let (told, count) = told_and_count(word, value)?;
    let entries = Entries {
        key: place.key()?,
        value: place.member()?.nameless(),
        count,
    };
    match told {
        Some(length) => Some(sink.write_map_with_length(place, length, &entries)),
        None => Some(sink.write_map(place, &entries)),
    }
}

// The whole numbers of a list, with a blank behind each but the last.
fn integers_of(alloc: Global, text: &str) -> Option<Vec<i32>> {
    let mut numbers = Vec::new(alloc);
    for word in text.split(' ') {
        if !word.is_empty() {
            numbers.push(word.parse::<i32>().ok()?).ok()?;
        }
    }
    Some(numbers)
}

// None of a place where no list stands.
fn integers<S: ShapeSerializer>(
    alloc: Global,
    sink: &mut S,
    place: &Schema<'_>,
    value: &str,
) -> Option<Result<(), SerdeError>> {
    let numbers = integers_of(alloc, value)?;
    match place.shape_type() {
        ShapeType::List => Some(sink.write_integer_list(place, &numbers)),
        _ => None,
    }
}

fn string<S: ShapeSerializer>(
    alloc: Global,
    sink: &mut S,
    place: &Schema<'_>,
    value: &str,
) -> Option<Result<(), SerdeError>> {
    let bytes = bytes_of(alloc, value).ok()?;
    Some(sink.write_string(place, str::from_utf8(&bytes).ok()?))
}

fn blob<S: ShapeSerializer>(
    alloc: Global,
    sink: &mut S,
    place: &Schema<'_>,
    value: &str,
) -> Option<Result<(), SerdeError>> {
    let bytes = bytes_of(alloc, value).ok()?;
    Some(sink.write_blob(place, &Blob::new(bytes)))
}

fn big_integer<S: ShapeSerializer>(
    alloc: Global,
    sink: &mut S,
    place: &Schema<'_>,
    value: &str,
) -> Option<Result<(), SerdeError>> {
    let number = BigInteger::from_str(alloc, value).ok()?;
    Some(sink.write_big_integer(place, &number))
}

fn big_decimal<S: ShapeSerializer>(
    alloc: Global,
    sink: &mut S,
    place: &Schema<'_>,
    value: &str,
) -> Option<Result<(), SerdeError>> {
    let number = BigDecimal::from_str(alloc, value).ok()?;
    Some(sink.write_big_decimal(place, &number))
}

/// The document of a JSON text.
pub fn document_of(alloc: Global, place: &Schema<'_>, text: &[u8]) -> Option<Document> {
    let codec = JsonCodec::strict(false);
    let mut source = codec.create_deserializer(alloc, text);
    source.read_document(place).ok()
}

fn document<S: ShapeSerializer>(
    alloc: Global,
    sink: &mut S,
    place: &Schema<'_>,
    value: &str,
) -> Option<Result<(), SerdeError>> {
    let text = bytes_of(alloc, value).ok()?;
    let document = document_of(alloc, place, &text)?;
    Some(sink.write_document(place, &document))
}

fn decimal<S: ShapeSerializer>(
    sink: &mut S,
    place: &Schema<'_>,
    value: &str,
) -> Option<Result<(), SerdeError>> {
    let (mantissa, exponent) = split(value);
    let mantissa = mantissa.parse::<i128>().ok()?;
    Some(sink.write_decimal(place, mantissa, exponent.parse::<i64>().ok()?))
}

fn timestamp<S: ShapeSerializer>(
    sink: &mut S,
    place: &Schema<'_>,
    value: &str,
) -> Option<Result<(), SerdeError>> {
    let instant = DateTime::from_nanos(value.parse::<i128>().ok()?).ok()?;
    Some(sink.write_timestamp(place, &instant))
}
