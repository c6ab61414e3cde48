//! The structure `Tag`.

use smithy_schema::{Schema, SerdeError, ShapeDeserializer, ShapeSerializer, WriteFields};
use smithy_typed::{
    Field, FieldRef, FromFields, NoField, Typed, WriteFieldList, is_structure_of, read_structure,
    write_structure,
};

/// A key with its value.
#[derive(Drop)]
pub struct Tag {
    /// `Key`: The key.
    pub key: Option<String>,
    /// `Value`: The value.
    pub value: Option<String>,
}

// Its fields, one inside another.
type Fields = Field<String, Field<String, NoField>>;

impl FromFields<Fields> for Tag {
    ghost use Rattle.sts_client.specs.OfTag.{tag_names, tag_fields};

    ghost names = { tag_names };

    ghost made = { tag_fields };

    fn from_fields(list: Fields) -> Tag {
        let Field { value: key, rest } = list;
        let Field { value, rest: _ } = rest;
        Tag { key, value }
    }
}

impl WriteFields for Tag {
    ghost use Rattle.sts_client.specs.OfTag.{tag_fields};

    ghost fields = { tag_fields };

    fn write_fields<S: ShapeSerializer>(
        &self,
        sink: &mut S,
        shape: &Schema<'_>,
    ) -> Result<(), SerdeError> {
        let rest = FieldRef {
            value: &self.value,
            rest: NoField,
        };
        let rest = FieldRef {
            value: &self.key,
            rest,
        };
        rest.write_from(sink, shape, 0)
    }
}

impl Typed for Tag {
    ghost use Rattle.sts_client.specs.OfTag.{IsTag, tag_value};

    ghost value = { tag_value };

    ghost place = { IsTag };

    fn is_at(schema: &Schema<'_>) -> bool {
        is_structure_of::<Fields>(schema, &["Key", "Value"])
    }

    fn read_from<D: ShapeDeserializer>(
        source: &mut D,
        schema: &Schema<'_>,
    ) -> Result<Tag, SerdeError> {
        read_structure::<Tag, Fields, D>(source, schema)
    }

    fn write_to<S: ShapeSerializer>(
        &self,
        sink: &mut S,
        schema: &Schema<'_>,
    ) -> Result<(), SerdeError> {
        write_structure(sink, schema, self)
    }
}
