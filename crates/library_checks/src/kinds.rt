//! A structure with a field of each small kind of scalar, read by `read_field` and written by `write_field`.
ghost use Rattle.smithy_shapes.specs.Site.{site_of};

use smithy_cbor_codec::CborCodec;
use smithy_json_codec::JsonCodec;
use smithy_schema::{
    FinishSerializer, Schema, SerdeError, SerializableStruct, ShapeDeserializer, ShapeSerializer,
    ShapeType, Shapes, StructConsumer, TableText, read_field, write_field,
};
use smithy_types::Blob;
use std::alloc::Global;

const TABLE: &[u8] =
    b"structure S\nmember truth boolean\nmember byte byte\nmember short short\nmember long long\nmember bytes blob\n";

// The fields in the order of the table.
#[derive(Drop)]
struct Fields {
    truth: Option<bool>,
    byte: Option<i8>,
    short: Option<i16>,
    long: Option<i64>,
    bytes: Option<Blob>,
}

impl StructConsumer for Fields {
    // The check tells what it reads.
    ghost call = { λ _ _ _ _ _ _ _. Unit {0} };

    fn takes_nulls(&self) -> bool {
        true
    }

    fn member<D: ShapeDeserializer>(
        &mut self,
        member: Option<&Schema<'_>>,
        source: &mut D,
    ) -> Result<(), SerdeError> {
        let Some(schema) = member else {
            return Ok(());
        };
        match schema.member_index() {
            Some(0) => read_field(source, schema, &mut self.truth),
            Some(1) => read_field(source, schema, &mut self.byte),
            Some(2) => read_field(source, schema, &mut self.short),
            Some(3) => read_field(source, schema, &mut self.long),
            Some(4) => read_field(source, schema, &mut self.bytes),
            _ => Ok(()),
        }
    }
}

// The fields under a schema.
#[derive(Drop)]
struct Kinds<'s> {
    shape: Schema<'s>,
    fields: &'s Fields,
}

impl<'s> SerializableStruct for Kinds<'s> {
    ghost site = { λ kinds. site_of kinds.shape };

    // The check tells what it adds.
    ghost adds = { λ _ _ _ _ _. Unit {0} };

    fn schema(&self) -> Schema<'_> {
        self.shape
    }

    fn serialize_members<S: ShapeSerializer>(&self, sink: &mut S) -> Result<(), SerdeError> {
        write_field(sink, &self.shape, 0, &self.fields.truth)?;
        write_field(sink, &self.shape, 1, &self.fields.byte)?;
        write_field(sink, &self.shape, 2, &self.fields.short)?;
        write_field(sink, &self.shape, 3, &self.fields.long)?;
        write_field(sink, &self.shape, 4, &self.fields.bytes)
    }
}

// Reads the structure that is due.
fn read_fields<D: ShapeDeserializer>(
    source: &mut D,
    shape: &Schema<'_>,
    fields: &mut Fields,
) -> Result<(), SerdeError> {
    match shape.shape_type() {
        ShapeType::Structure => source.read_struct(shape, fields),
        _ => Err(SerdeError::InvalidInput),
    }
}

// No field yet.
fn unread() -> Fields {
    Fields {
        truth: None,
        byte: None,
        short: None,
        long: None,
        bytes: None,
    }
}

// The body of the fields.
fn written(alloc: Global, shape: Schema<'_>, fields: &Fields) -> Result<Vec<u8>, SerdeError> {
    let mut writer = JsonCodec::strict(false).create_serializer(alloc);
    writer.write_struct(&shape, &Kinds { shape, fields })?;
    writer.finish()
}

pub fn each_kind_is_written_as_it_was_read(alloc: Global) -> Option<bool> {
    let body =
        b"{\"truth\":true,\"byte\":-128,\"short\":32767,\"long\":-9223372036854775808,\"bytes\":\"+/8=\"}";
    let shapes = Shapes::build(alloc, TableText::read(alloc, TABLE).ok()?).ok()?;
    let shape = shapes.schema(shapes.find("S")?);
    let mut fields = unread();
    let codec = JsonCodec::strict(false);
    let mut reader = codec.create_deserializer(alloc, body);
    read_fields(&mut reader, &shape, &mut fields).ok()?;
    let again = written(alloc, shape, &fields).ok()?;
    Some(
        fields.truth == Some(true)
            && fields.byte == Some(-128)
            && fields.short == Some(32767)
            && fields.long == Some(-9223372036854775808)
            && again.as_slice() == body.as_slice(),
    )
}

// The consumer takes nulls, so the reader gives each of them to it.
pub fn a_null_leaves_a_field_as_it_was(alloc: Global) -> Option<bool> {
    let body = b"\xa4\x65truth\xf6\x64byte\x01\x64byte\xf6\x65bytes\xf6";
    let shapes = Shapes::build(alloc, TableText::read(alloc, TABLE).ok()?).ok()?;
    let shape = shapes.schema(shapes.find("S")?);
    let mut fields = unread();
    let codec = CborCodec::default();
    let mut reader = codec.create_deserializer(alloc, body);
    read_fields(&mut reader, &shape, &mut fields).ok()?;
    Some(fields.truth.is_none() && fields.byte == Some(1) && fields.bytes.is_none())
}
