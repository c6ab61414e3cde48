//! What a reader that has failed answers, and what is left of one that is gone.

use smithy_cbor_codec::CborCodec;
use smithy_json_codec::JsonCodec;
use smithy_schema::{BorrowDeserializer, SerdeError, ShapeDeserializer, Shapes, TableText};
use smithy_transcode::read_value;
use std::alloc::Global;
use std::borrow::CowStr;

const TABLE: &[u8] = b"structure S\nmember a long\n";

pub fn a_reader_that_has_failed_answers_so(alloc: Global) -> Option<bool> {
    let table = TableText::read(alloc, TABLE).ok()?;
    let shapes = Shapes::build(alloc, table).ok()?;
    let schema = shapes.schema(shapes.find("S")?);
    let codec = JsonCodec::strict(false);
    let mut json = codec.create_deserializer(alloc, b"{}");
    json.fail();
    let in_json = read_value(alloc, &mut json, &schema);
    let mut cbor = CborCodec::strict().create_deserializer(alloc, b"\xa0");
    cbor.fail();
    let in_cbor = read_value(alloc, &mut cbor, &schema);
    Some(matches!(in_json, Err(SerdeError::Failed)) && matches!(in_cbor, Err(SerdeError::Failed)))
}

pub fn a_text_outlives_its_codec(alloc: Global) -> Option<bool> {
    let table = TableText::read(alloc, b"list L string\n").ok()?;
    let shapes = Shapes::build(alloc, table).ok()?;
    let schema = shapes.schema(shapes.find("L")?).member()?;
    let text = {
        let codec = JsonCodec::strict(false);
        let mut reader = codec.create_deserializer(alloc, b"\"hi\"");
        reader.read_text(&schema).ok()?
    };
    Some(matches!(text, CowStr::Borrowed(_)) && text.as_str() == "hi")
}
