//! Reading documents with the identifier of their shape.
ghost use Rattle.std.specs.Prelude.{◌≡◌, false, true, IfOk, IfErr, IsErrOf, OnOk};
ghost use Rattle.smithy_schema.specs.Errors.{IsInvalid, IsNoAnswer, IsRefused};
ghost use Rattle.smithy_schema.specs.Reading.{depth, Conducts, Passes};
ghost use Rattle.smithy_schema.specs.declared.error.SerdeError.TheVariants.{NotCarried, TooDeep, TooWide, TypeMismatch};
ghost use Rattle.smithy_types.specs.Discriminated.{discriminated_view};
ghost use Rattle.smithy_json_codec.specs.Cursor.{cursor_of, reading_settings_of, reader_settings_of};
ghost use Rattle.smithy_json_values.specs.Settings.{without_limits};
ghost use Rattle.smithy_json_values.specs.Documents.{NoDocumentStands, MeetsOtherNumber, OpensDocumentTooDeep};
ghost use Rattle.smithy_json_codec.specs.NamedReading.{NamedStands};
ghost use Rattle.smithy_json_values.specs.Standing.{json_grammar};
ghost use Rattle.smithy_json_values.specs.Private.OpenDocuments.{RefusesStanding};

use crate::deserializer::JsonDeserializer;
use smithy_json_values::documents::{DocumentFault, standing_document_at};
use smithy_schema::SerdeError;
use smithy_types::named_document::named;
use smithy_types::{DiscriminatedDocument, DocumentCoercion};
use std::borrow::CowStr;

impl JsonDeserializer<'_, '_> {
    // The document that stands at the position, with its end.
    fn named_document(&self) -> Result<(DiscriminatedDocument, usize), DocumentFault>
        ensures ok { IfOk result (λ r. NamedStands (reader_settings_of self.now) (depth (cursor_of self.now)) (cursor_of self.now).input (cursor_of self.now).at (discriminated_view r.0) r.1) }
        ensures refused { IfErr result (RefusesStanding (json_grammar (reading_settings_of self.now)) (reading_settings_of self.now) (depth (cursor_of self.now)) (cursor_of self.now).input (cursor_of self.now).at) }
    {
        let (document, end) = standing_document_at(
            self.alloc,
            self.input(),
            self.walk.position,
            self.walk.depth(),
        )?;
        let protocol_id = String::from_str(self.alloc, self.protocol_id)?;
        let coercion = DocumentCoercion {
            protocol_id: CowStr::Owned(protocol_id),
            default_timestamp_format: self.settings.default_timestamp_format,
        };
        let document = named(self.alloc, self.namespace, coercion, document)?;
        Ok((document, end))
    }

    /// Reads the document that is due. Where it is an object whose entry `__type` is a text that gives the identifier of its shape,
    /// it is handed out with that and without the entry: an identifier stands there itself, with a `#`, or a name in the namespace of
    /// the reader. The answer carries the settings by which its texts and numbers stand for bytes and instants.
    pub fn read_discriminated_document(&mut self) -> Result<DiscriminatedDocument, SerdeError>
        ensures same { reader_settings_of self.new ≡ reader_settings_of self.old }
        ensures conduct { Conducts (cursor_of self.old) (cursor_of self.new) result }
        ensures narrow { (IsErrOf result TooWide → ⊥) × (IsErrOf result TypeMismatch → ⊥) }
        ensures undue { (cursor_of self.old).due ≡ false → IsNoAnswer result }
        ensures ok { IfOk result (λ d. NamedStands (reader_settings_of self.old) (depth (cursor_of self.old)) (cursor_of self.old).input (cursor_of self.old).at (discriminated_view d) (cursor_of self.new).at) }
        ensures passes { OnOk result (Passes (cursor_of self.old) (cursor_of self.new)) }
        ensures refused { IsRefused result → (cursor_of self.old).due ≡ true → NoDocumentStands (json_grammar (reading_settings_of self.old)) (reading_settings_of self.old) (depth (cursor_of self.old)) (cursor_of self.old).input (cursor_of self.old).at }
        ensures none_without_limits { IsInvalid result → (cursor_of self.old).due ≡ true → NoDocumentStands (json_grammar (reading_settings_of self.old)) (without_limits (reading_settings_of self.old)) (depth (cursor_of self.old)) (cursor_of self.old).input (cursor_of self.old).at }
        ensures too_deep { IsErrOf result TooDeep → OpensDocumentTooDeep (json_grammar (reading_settings_of self.old)) (reading_settings_of self.old).max_depth (depth (cursor_of self.old)) (cursor_of self.old).input (cursor_of self.old).at }
        ensures other_number { IsErrOf result NotCarried → MeetsOtherNumber (json_grammar (reading_settings_of self.old)) (cursor_of self.old).input (cursor_of self.old).at }
    {
        self.walk.ready()?;
        match self.named_document() {
            Ok((document, end)) => {
                self.walk.pass(end);
                Ok(document)
            }
            Err(fault) => Err(self.walk.refuse(fault.refusal())),
        }
    }
}
