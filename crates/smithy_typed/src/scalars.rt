//! Scalars and documents.
ghost use Rattle.smithy_declarations.specs.declared.shape_type.Scalar.TheVariants as scalars;
ghost use Rattle.smithy_typed.specs.Places.{IsScalar, IsOpen};
ghost use Rattle.smithy_typed.specs.Values.{text_value, bytes_value, boolean_value, whole_value, instant_value, open_value};

use crate::typed::Typed;
use smithy_schema::{Scalar, Schema, SerdeError, ShapeDeserializer, ShapeSerializer, Target};
use smithy_types::{Blob, DateTime, Document};

impl Typed for String {
    ghost value = { text_value };

    ghost place = { IsScalar scalars.String };

    fn is_at(schema: &Schema<'_>) -> bool {
        schema.target() == Target::Simple(Scalar::String)
    }

    fn read_from<D: ShapeDeserializer>(
        source: &mut D,
        schema: &Schema<'_>,
    ) -> Result<String, SerdeError> {
        source.read_string(schema)
    }

    fn write_to<S: ShapeSerializer>(
        &self,
        sink: &mut S,
        schema: &Schema<'_>,
    ) -> Result<(), SerdeError> {
        sink.write_string(schema, self.as_str())
    }
}

impl Typed for Blob {
    ghost value = { bytes_value };

    ghost place = { IsScalar scalars.Blob };

    fn is_at(schema: &Schema<'_>) -> bool {
        schema.target() == Target::Simple(Scalar::Blob)
    }

    fn read_from<D: ShapeDeserializer>(
        source: &mut D,
        schema: &Schema<'_>,
    ) -> Result<Blob, SerdeError> {
        source.read_blob(schema)
    }

    fn write_to<S: ShapeSerializer>(
        &self,
        sink: &mut S,
        schema: &Schema<'_>,
    ) -> Result<(), SerdeError> {
        sink.write_blob(schema, self)
    }
}

impl Typed for bool {
    ghost value = { boolean_value };

    ghost place = { IsScalar scalars.Boolean };

    fn is_at(schema: &Schema<'_>) -> bool {
        schema.target() == Target::Simple(Scalar::Boolean)
    }

    fn read_from<D: ShapeDeserializer>(
        source: &mut D,
        schema: &Schema<'_>,
    ) -> Result<bool, SerdeError> {
        source.read_boolean(schema)
    }

    fn write_to<S: ShapeSerializer>(
        &self,
        sink: &mut S,
        schema: &Schema<'_>,
    ) -> Result<(), SerdeError> {
        sink.write_boolean(schema, *self)
    }
}

impl Typed for i8 {
    ghost value = { whole_value };

    ghost place = { IsScalar scalars.Byte };

    fn is_at(schema: &Schema<'_>) -> bool {
        schema.target() == Target::Simple(Scalar::Byte)
    }

    fn read_from<D: ShapeDeserializer>(
        source: &mut D,
        schema: &Schema<'_>,
    ) -> Result<i8, SerdeError> {
        source.read_byte(schema)
    }

    fn write_to<S: ShapeSerializer>(
        &self,
        sink: &mut S,
        schema: &Schema<'_>,
    ) -> Result<(), SerdeError> {
        sink.write_byte(schema, *self)
    }
}

impl Typed for i16 {
    ghost value = { whole_value };

    ghost place = { IsScalar scalars.Short };

    fn is_at(schema: &Schema<'_>) -> bool {
        schema.target() == Target::Simple(Scalar::Short)
    }

    fn read_from<D: ShapeDeserializer>(
        source: &mut D,
        schema: &Schema<'_>,
    ) -> Result<i16, SerdeError> {
        source.read_short(schema)
    }

    fn write_to<S: ShapeSerializer>(
        &self,
        sink: &mut S,
        schema: &Schema<'_>,
    ) -> Result<(), SerdeError> {
        sink.write_short(schema, *self)
    }
}

impl Typed for i32 {
    ghost value = { whole_value };

    ghost place = { IsScalar scalars.Integer };

    fn is_at(schema: &Schema<'_>) -> bool {
        schema.target() == Target::Simple(Scalar::Integer)
    }

    fn read_from<D: ShapeDeserializer>(
        source: &mut D,
        schema: &Schema<'_>,
    ) -> Result<i32, SerdeError> {
        source.read_integer(schema)
    }

    fn write_to<S: ShapeSerializer>(
        &self,
        sink: &mut S,
        schema: &Schema<'_>,
    ) -> Result<(), SerdeError> {
        sink.write_integer(schema, *self)
    }
}

impl Typed for i64 {
    ghost value = { whole_value };

    ghost place = { IsScalar scalars.Long };

    fn is_at(schema: &Schema<'_>) -> bool {
        schema.target() == Target::Simple(Scalar::Long)
    }

    fn read_from<D: ShapeDeserializer>(
        source: &mut D,
        schema: &Schema<'_>,
    ) -> Result<i64, SerdeError> {
        source.read_long(schema)
    }

    fn write_to<S: ShapeSerializer>(
        &self,
        sink: &mut S,
        schema: &Schema<'_>,
    ) -> Result<(), SerdeError> {
        sink.write_long(schema, *self)
    }
}

impl Typed for DateTime {
    ghost value = { instant_value };

    ghost place = { IsScalar scalars.Timestamp };

    fn is_at(schema: &Schema<'_>) -> bool {
        schema.target() == Target::Simple(Scalar::Timestamp)
    }

    fn read_from<D: ShapeDeserializer>(
        source: &mut D,
        schema: &Schema<'_>,
    ) -> Result<DateTime, SerdeError> {
        source.read_timestamp(schema)
    }

    fn write_to<S: ShapeSerializer>(
        &self,
        sink: &mut S,
        schema: &Schema<'_>,
    ) -> Result<(), SerdeError> {
        sink.write_timestamp(schema, self)
    }
}

impl Typed for Document {
    ghost value = { open_value };

    ghost place = { IsOpen };

    fn is_at(schema: &Schema<'_>) -> bool {
        schema.target() == Target::Document
    }

    fn read_from<D: ShapeDeserializer>(
        source: &mut D,
        schema: &Schema<'_>,
    ) -> Result<Document, SerdeError> {
        source.read_document(schema)
    }

    fn write_to<S: ShapeSerializer>(
        &self,
        sink: &mut S,
        schema: &Schema<'_>,
    ) -> Result<(), SerdeError> {
        sink.write_document(schema, self)
    }
}
