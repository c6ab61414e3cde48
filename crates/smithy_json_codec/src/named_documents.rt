//! Writing documents with the identifier of their shape.
ghost use Rattle.std.specs.Prelude.{◌≡◌, ◌++◌, Ok, Err, true, OnOk};
ghost use Rattle.smithy_schema.specs.Writing.{Makes, after_value};
ghost use Rattle.smithy_shapes.specs.Site.{site_of};
ghost use Rattle.smithy_types.specs.Discriminated.{discriminated_view};
ghost use Rattle.smithy_types.specs.Document.{whole_document};
ghost use Rattle.smithy_types.specs.DocumentView.{document_view, properties_view};
ghost use Rattle.smithy_types.specs.Identifier.{type_name};
ghost use Rattle.smithy_json.specs.DocumentText.{comma};
ghost use Rattle.smithy_json.specs.Escape.{quoted};
ghost use Rattle.smithy_json_codec.specs.Canonical.{document_text};
ghost use Rattle.smithy_json.specs.ValueTexts.{name_text};
ghost use Rattle.smithy_json_codec.specs.NamedDocument.{more_properties, named_text, discriminated_text};
ghost use Rattle.smithy_json_codec.specs.Serializing.{state_of, has_failed};
ghost use Rattle.smithy_json_codec.specs.Writing.{wrote, wrote_any, where_taken};

use crate::output::{push_name, push_quoted, push_whole_document};
use crate::serializer::JsonSerializer;
use smithy_schema::{Schema, SerdeError, ShapeSerializer};
use smithy_types::named_document::has_type;
use smithy_types::{DiscriminatedDocument, Document, has_hash};
use std::alloc::AllocError;
use std::collections::BTreeMap;

// A property behind a comma.
fn push_property(out: &mut Vec<u8>, name: &str, property: &Document) -> Result<(), AllocError>
    ensures { OnOk result (out.new.items ≡ out.old.items ++ (comma ++ (name_text name.now ++ document_text (whole_document (document_view property.now))))) }
{
    out.push(b',')?;
    push_name(out, name)?;
    push_whole_document(out, property)
}

// The properties, each behind a comma.
fn push_more_properties(
    out: &mut Vec<u8>,
    properties: &BTreeMap<String, Document>,
) -> Result<(), AllocError>
    ensures { OnOk result (out.new.items ≡ out.old.items ++ more_properties (properties_view properties.now.entries)) }
{
    for (name, property) in properties {
        push_property(out, name.as_str(), property)?;
    }
    Ok(())
}

// An object that begins with the identifier.
fn push_named(
    out: &mut Vec<u8>,
    identifier: &str,
    properties: &BTreeMap<String, Document>,
) -> Result<(), AllocError>
    ensures { OnOk result (out.new.items ≡ out.old.items ++ named_text identifier.now (properties_view properties.now.entries)) }
{
    out.push(b'{')?;
    push_name(out, "__type")?;
    push_quoted(out, identifier)?;
    push_more_properties(out, properties)?;
    out.push(b'}')?;
    Ok(())
}

impl JsonSerializer {
    fn write_named(
        &mut self,
        schema: &Schema<'_>,
        identifier: &str,
        properties: &BTreeMap<String, Document>,
    ) -> Result<(), SerdeError>
        ensures { Makes (where_taken (wrote (state_of self.old) (site_of schema.now).view (named_text identifier.now (properties_view properties.now.entries))) (after_value (state_of self.old).frames)) (has_failed self.old) (state_of self.new) (has_failed self.new) result }
    {
        self.begin_value(schema)?;
        push_named(&mut self.out, identifier, properties)?;
        self.needs_comma = true;
        self.containers.succeed();
        Ok(())
    }

    /// Writes a document. Where it is an object and the identifier of its shape is there, that stands first in the object, under
    /// `__type`; it is `Unwritable` where the identifier has no `#`, or the object has such an entry already. Else the document is written alone.
    pub fn write_discriminated_document(
        &mut self,
        schema: &Schema<'_>,
        value: &DiscriminatedDocument,
    ) -> Result<(), SerdeError>
        ensures { Makes (wrote_any (state_of self.old) (site_of schema.now).view (discriminated_text (discriminated_view value.now).discriminator (discriminated_view value.now).document)) (has_failed self.old) (state_of self.new) (has_failed self.new) result }
    {
        let Some(identifier) = value.discriminator() else {
            return self.write_document(schema, value.document());
        };
        let Some(properties) = value.document().as_object() else {
            return self.write_document(schema, value.document());
        };
        if !has_hash(identifier.as_bytes()) || has_type(properties) {
            self.containers.begin()?;
            return Err(SerdeError::Unwritable);
        }
        self.write_named(schema, identifier, properties)
    }
}
