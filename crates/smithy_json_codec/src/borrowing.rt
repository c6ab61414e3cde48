//! Reading texts and bytes that borrow from the input.
use crate::deserializer::JsonDeserializer;
use smithy_json_values::mismatch::told;
use smithy_json_values::texts::{bytes_piece_at, text_piece_at};
use smithy_schema::{BorrowDeserializer, Scalar, Schema, SerdeError};
use std::alloc::Global;
use std::borrow::{CowSlice, CowStr};

impl<'a> BorrowDeserializer<'a> for JsonDeserializer<'_, 'a> {
    ghost use Rattle.std.specs.Prelude.{◌≡◌, IfOk};
    ghost use Rattle.std.specs.Cow.{cow_str_bytes, cow_slice_items, IsBorrowedStr, IsOwnedSlice};
    ghost use Rattle.smithy_declarations.specs.declared.shape_type.Scalar.TheVariants as scalars;
    ghost use Rattle.smithy_declarations.specs.Value.{text, bytes};
    ghost use Rattle.smithy_shapes.specs.Site.{site_of};
    ghost use Rattle.smithy_schema.specs.Borrowing.{Borrows};
    ghost use Rattle.smithy_schema.specs.Reading.{ReadsScalar};
    ghost use Rattle.smithy_json_values.specs.Borrowed.{texts_borrow};
    ghost use Rattle.smithy_json_codec.specs.Cursor.{cursor_of, reading_settings_of, reader_settings_of};
    ghost use Rattle.smithy_json_values.specs.Standing.{json_grammar, json_reader};

    #[inline(always)]
    fn read_text(&mut self, _schema: &Schema<'_>) -> Result<CowStr<'a, Global>, SerdeError>
        ensures same { reader_settings_of self.new ≡ reader_settings_of self.old }
        ensures read { ReadsScalar (json_reader (reading_settings_of self.old)) (cursor_of self.old) (cursor_of self.new) (site_of _schema.now) scalars.String (λ s. text (cow_str_bytes s)) result }

        // Borrowed exactly where no backslash stands in the string, and only a string with one takes memory.
        ensures borrows { Borrows (texts_borrow (json_grammar (reading_settings_of self.old))) IsBorrowedStr (cursor_of self.old) (cursor_of self.new) result }
    {
        self.walk.ready()?;
        let input = self.walk.input;
        let at = self.walk.position;
        let found = text_piece_at(self.alloc, input, at, &self.settings);
        let answer = self.walk.take_found(found);
        told(answer, input, at, Scalar::String, None, &self.settings)
    }

    fn read_bytes(&mut self, _schema: &Schema<'_>) -> Result<CowSlice<'a, u8, Global>, SerdeError>
        ensures same { reader_settings_of self.new ≡ reader_settings_of self.old }
        ensures read { ReadsScalar (json_reader (reading_settings_of self.old)) (cursor_of self.old) (cursor_of self.new) (site_of _schema.now) scalars.Blob (λ b. bytes (cow_slice_items b)) result }

        // The bytes are never borrowed, as a string holds them as base64.
        ensures owned { IfOk result IsOwnedSlice }
    {
        self.walk.ready()?;
        let input = self.walk.input;
        let at = self.walk.position;
        let found = bytes_piece_at(self.alloc, input, at, &self.settings);
        let answer = self.walk.take_found(found);
        told(answer, input, at, Scalar::Blob, None, &self.settings)
    }
}
