//! Reading texts and bytes that borrow from the input.
use crate::deserializer::CborDeserializer;
use smithy_cbor_values::values::{bytes_piece_at, text_piece_at};
use smithy_schema::{BorrowDeserializer, Schema, SerdeError};
use std::alloc::Global;
use std::borrow::{CowSlice, CowStr};

impl<'a> BorrowDeserializer<'a> for CborDeserializer<'a> {
    ghost use Rattle.std.specs.Prelude.{◌≡◌};
    ghost use Rattle.std.specs.Cow.{cow_str_bytes, cow_slice_items, IsBorrowedStr, IsBorrowedSlice};
    ghost use Rattle.smithy_declarations.specs.declared.shape_type.Scalar.TheVariants as scalars;
    ghost use Rattle.smithy_declarations.specs.Value.{text, bytes};
    ghost use Rattle.smithy_shapes.specs.Site.{site_of};
    ghost use Rattle.smithy_schema.specs.Borrowing.{Borrows};
    ghost use Rattle.smithy_schema.specs.Reading.{ReadsScalar};
    ghost use Rattle.smithy_cbor_values.specs.Borrowed.{texts_borrow, bytes_borrow};
    ghost use Rattle.smithy_cbor_codec.specs.Cursor.{cursor_of, reading_settings_of};
    ghost use Rattle.smithy_cbor_values.specs.Standing.{cbor_reader};

    fn read_text(&mut self, _schema: &Schema<'_>) -> Result<CowStr<'a, Global>, SerdeError>
        ensures same { reading_settings_of self.new ≡ reading_settings_of self.old }
        ensures read { ReadsScalar (cbor_reader (reading_settings_of self.old)) (cursor_of self.old) (cursor_of self.new) (site_of _schema.now) scalars.String (λ s. text (cow_str_bytes s)) result }

        // Borrowed exactly where the text is definite, and only an indefinite one takes memory.
        ensures borrows { Borrows texts_borrow IsBorrowedStr (cursor_of self.old) (cursor_of self.new) result }
    {
        self.walk.ready()?;
        let found = text_piece_at(
            self.alloc,
            self.walk.input,
            self.walk.position,
            self.end_depth(),
        );
        self.walk.take_found(found)
    }

    fn read_bytes(&mut self, _schema: &Schema<'_>) -> Result<CowSlice<'a, u8, Global>, SerdeError>
        ensures same { reading_settings_of self.new ≡ reading_settings_of self.old }
        ensures read { ReadsScalar (cbor_reader (reading_settings_of self.old)) (cursor_of self.old) (cursor_of self.new) (site_of _schema.now) scalars.Blob (λ b. bytes (cow_slice_items b)) result }

        // Borrowed exactly where the byte string is definite, and only an indefinite one takes memory.
        ensures borrows { Borrows bytes_borrow IsBorrowedSlice (cursor_of self.old) (cursor_of self.new) result }
    {
        self.walk.ready()?;
        let found = bytes_piece_at(
            self.alloc,
            self.walk.input,
            self.walk.position,
            self.end_depth(),
        );
        self.walk.take_found(found)
    }
}
