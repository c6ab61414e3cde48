//! What PutItem is given.
ghost use Rattle.std.specs.Prelude.{◌≡◌, false};
ghost use Rattle.smithy_shapes.specs.Site.{site_of};
ghost use Rattle.smithy_schema.specs.Typed.{ReadsDueAs, WritesWhole};
ghost use Rattle.smithy_schema.specs.Writing.{events};
ghost use Rattle.smithy_schema.specs.Fields.{structure_with};
ghost use Rattle.dynamodb_client.specs.PutItem.{IsPutItem, put_item_fields};

use crate::attribute_value::{AttributeValue, are_attributes, read_attributes};
use crate::attribute_writing::{member_under, write_attributes};
use smithy_schema::{
    Accept, Scalar, Schema, SerdeError, ShapeDeserializer, ShapeSerializer, ShapeType,
    StructConsumer, Target, WriteFields, Written, read_field, write_field,
};
use std::collections::BTreeMap;

/// An item to keep in a table.
#[derive(Debug, Drop)]
pub struct PutItemInput {
    /// The member `TableName`.
    pub table_name: Option<String>,
    /// The member `Item`.
    pub item: Option<BTreeMap<String, AttributeValue>>,
}

impl StructConsumer for PutItemInput {
    ghost use Rattle.std.specs.Prelude.{false};
    ghost use Rattle.smithy_schema.specs.Fields.{TakesField};
    ghost use Rattle.dynamodb_client.specs.PutItem.{put_item_fields, IsPutItem};

    ghost call = { TakesField put_item_fields };

    ghost can_take = { λ _ outer. IsPutItem outer };

    ghost takes_nulls = { false };

    fn takes_nulls(&self) -> bool {
        false
    }

    fn member<D: ShapeDeserializer>(
        &mut self,
        member: Option<&Schema<'_>>,
        source: &mut D,
    ) -> Result<(), SerdeError> {
        let Some(schema) = member else {
            return Ok(());
        };
        if schema.member_index() == Some(0) {
            return read_field(source, schema, &mut self.table_name);
        }
        self.item = Some(read_attributes(source, schema)?);
        Ok(())
    }
}

impl Accept for PutItemInput {
    ghost use Rattle.dynamodb_client.specs.PutItem.{IsPutItem};

    ghost place = { IsPutItem };

    fn is_at(schema: &Schema<'_>) -> bool {
        let Some(item) = schema.member_at(1) else {
            return false;
        };
        let is_declared = schema.declares(
            ShapeType::Structure,
            &[
                ("TableName", Target::Simple(Scalar::String)),
                ("Item", item.target()),
            ],
        );
        is_declared && are_attributes(&item)
    }
}

impl WriteFields for PutItemInput {
    ghost use Rattle.dynamodb_client.specs.PutItem.{put_item_fields};

    ghost fields = { put_item_fields };

    fn write_fields<S: ShapeSerializer>(
        &self,
        sink: &mut S,
        shape: &Schema<'_>,
    ) -> Result<(), SerdeError> {
        write_field(sink, shape, 0, &self.table_name)?;
        let Some(item) = &self.item else {
            return Ok(());
        };
        write_attributes(sink, &member_under(shape, 1), item)
    }
}

/// Reads the input that is due.
pub fn read_put_item<D: ShapeDeserializer>(
    schema: &Schema<'_>,
    source: &mut D,
) -> Result<PutItemInput, SerdeError>
    requires place { IsPutItem (site_of schema.now) }
    ensures same { D.settings source.new ≡ D.settings source.old }

    // What stood there, nulls of members dropped, is the structure of these fields, and a fault comes only where no such structure stands.
    ensures reads { ReadsDueAs (D.reading (D.with_nulls false (D.settings source.old))).wire (D.state source.old) (D.state source.new) (site_of schema.now) (λ input. structure_with (put_item_fields input)) result }
{
    let mut input = PutItemInput {
        table_name: None,
        item: None,
    };
    source.read_struct(schema, &mut input)?;
    Ok(input)
}

/// Writes the input.
pub fn write_put_item<S: ShapeSerializer>(
    sink: &mut S,
    schema: &Schema<'_>,
    input: &PutItemInput,
) -> Result<(), SerdeError>
    // The members that are there are written in the table's order; a fault is that of this very run of calls.
    ensures { WritesWhole S.after S.open_in (events (site_of schema.now) (structure_with (put_item_fields input.now))) (S.state sink.old) (S.failed sink.old) (S.state sink.new) (S.failed sink.new) result }
{
    let written = Written {
        shape: *schema,
        fields: input,
    };
    sink.write_struct(schema, &written)
}
