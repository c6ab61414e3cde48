//! Reading texts and bytes that borrow from the input.
ghost use Rattle.std.specs.Prelude.{◌≡◌};
ghost use Rattle.std.specs.Cow.{cow_str_bytes, cow_slice_items};
ghost use Rattle.smithy_declarations.specs.declared.shape_type.Scalar.TheVariants as scalars;
ghost use Rattle.smithy_declarations.specs.Value.{text, bytes};
ghost use Rattle.smithy_shapes.specs.Site.{site_of};
ghost use Rattle.smithy_schema.specs.Reading.{ReadsScalar};

use crate::error::SerdeError;
use crate::read::ShapeDeserializer;
use smithy_shapes::Schema;
use std::alloc::Global;
use std::borrow::{CowSlice, CowStr};

/// A reader of an input that lives for `'a`, of which texts and bytes borrow where they stand in it in one piece.
pub trait BorrowDeserializer<'a>: ShapeDeserializer {
    /// Reads a text.
    fn read_text(&mut self, schema: &Schema<'_>) -> Result<CowStr<'a, Global>, SerdeError>
        ensures same { Self.settings self.new ≡ Self.settings self.old }
        ensures read { ReadsScalar (Self.reading (Self.settings self.old)) (Self.state self.old) (Self.state self.new) (site_of schema.now) scalars.String (λ s. text (cow_str_bytes s)) result };

    /// Reads bytes.
    fn read_bytes(&mut self, schema: &Schema<'_>) -> Result<CowSlice<'a, u8, Global>, SerdeError>
        ensures same { Self.settings self.new ≡ Self.settings self.old }
        ensures read { ReadsScalar (Self.reading (Self.settings self.old)) (Self.state self.old) (Self.state self.new) (site_of schema.now) scalars.Blob (λ b. bytes (cow_slice_items b)) result };
}
