//! Reading texts and bytes by the places of the input at which they stand.
use crate::deserializer::JsonDeserializer;
use smithy_json_values::mismatch::told;
use smithy_json_values::texts::{bytes_span_at, text_span_at};
use smithy_schema::{BytesSpan, PieceDeserializer, Scalar, Schema, SerdeError, TextSpan};

impl PieceDeserializer for JsonDeserializer<'_, '_> {
    ghost use Rattle.std.specs.Prelude.{◌≡◌, IfOk};
    ghost use Rattle.smithy_declarations.specs.declared.shape_type.Scalar.TheVariants as scalars;
    ghost use Rattle.smithy_declarations.specs.Value.{text, bytes};
    ghost use Rattle.smithy_shapes.specs.Site.{site_of};
    ghost use Rattle.smithy_schema.specs.Borrowing.{Borrows};
    ghost use Rattle.smithy_schema.specs.Reading.{ReadsScalar};
    ghost use Rattle.smithy_schema.specs.Spans.{text_bytes, span_bytes, IsTextPlaced, IsPlaced, IsTextBetween, IsBetween, NamesTextPlace, NamesBytesPlace};
    ghost use Rattle.smithy_json_values.specs.Borrowed.{texts_borrow};
    ghost use Rattle.smithy_json_values.specs.Standing.{json_grammar, json_reader};
    ghost use Rattle.smithy_json_codec.specs.Cursor.{cursor_of, reading_settings_of, reader_settings_of};

    type Text = TextSpan;

    type Bytes = BytesSpan;

    #[inline(always)]
    fn take_text(&mut self, _schema: &Schema<'_>) -> Result<TextSpan, SerdeError>
        ensures same { reader_settings_of self.new ≡ reader_settings_of self.old }
        ensures read { ReadsScalar (json_reader (reading_settings_of self.old)) (cursor_of self.old) (cursor_of self.new) (site_of _schema.now) scalars.String (λ t. text (text_bytes (cursor_of self.old).input t)) result }
        ensures placed { IfOk result (IsTextPlaced (cursor_of self.old).input) }
        ensures between { IfOk result (IsTextBetween (cursor_of self.old).at (cursor_of self.new).at) }

        // A place is named exactly where no backslash stands in the string, and only a string with one takes memory.
        ensures borrows { Borrows (texts_borrow (json_grammar (reading_settings_of self.old))) NamesTextPlace (cursor_of self.old) (cursor_of self.new) result }
    {
        self.walk.ready()?;
        let input = self.walk.input;
        let at = self.walk.position;
        let found = text_span_at(self.alloc, input, at, &self.settings);
        let answer = self.walk.take_found(found);
        told(answer, input, at, Scalar::String, None, &self.settings)
    }

    fn take_bytes(&mut self, _schema: &Schema<'_>) -> Result<BytesSpan, SerdeError>
        ensures same { reader_settings_of self.new ≡ reader_settings_of self.old }
        ensures read { ReadsScalar (json_reader (reading_settings_of self.old)) (cursor_of self.old) (cursor_of self.new) (site_of _schema.now) scalars.Blob (λ b. bytes (span_bytes (cursor_of self.old).input b)) result }
        ensures placed { IfOk result (IsPlaced (cursor_of self.old).input) }
        ensures between { IfOk result (IsBetween (cursor_of self.old).at (cursor_of self.new).at) }

        // No place is ever named, as a string holds the bytes as base64.
        ensures owned { IfOk result (λ b. NamesBytesPlace b → ⊥) }
    {
        self.walk.ready()?;
        let input = self.walk.input;
        let at = self.walk.position;
        let found = bytes_span_at(self.alloc, input, at, &self.settings);
        let answer = self.walk.take_found(found);
        told(answer, input, at, Scalar::Blob, None, &self.settings)
    }

    #[inline(always)]
    fn take_key(&mut self) -> Result<Option<TextSpan>, SerdeError> {
        self.next_key_as()
    }
}
