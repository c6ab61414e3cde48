//! Readers that hand out texts and bytes in types of their own.
ghost use Rattle.std.specs.Prelude.{◌≡◌, ℕ, List, IfOk, MatchOption};
ghost use Rattle.smithy_declarations.specs.declared.shape_type.Scalar.TheVariants as scalars;
ghost use Rattle.smithy_declarations.specs.Value.{text, bytes};
ghost use Rattle.smithy_shapes.specs.Site.{site_of};
ghost use Rattle.smithy_schema.specs.Containers.{GoesOnInMap};
ghost use Rattle.smithy_schema.specs.Reading.{ReadsScalar, in_map};

use crate::error::SerdeError;
use crate::read::ShapeDeserializer;
use crate::spans::{BytesSpan, TextSpan};
use smithy_shapes::Schema;
use std::alloc::Global;
use std::borrow::{CowSlice, CowStr};

/// A text that was read from an input, wherever it is kept.
pub trait TextPiece: Drop {
    // The bytes of the text.
    ghost bytes_of: { List ℕ → Self → List ℕ };

    // The text stands in the input, where it names a place of it.
    ghost is_placed: { List ℕ → Self → Type 0 };

    // It lies between these two places, where it names one.
    ghost is_between: { ℕ → ℕ → Self → Type 0 };
}

impl TextPiece for TextSpan {
    ghost use Rattle.smithy_schema.specs.Spans.{text_bytes, IsTextPlaced, IsTextBetween};

    ghost bytes_of = { text_bytes };

    ghost is_placed = { IsTextPlaced };

    ghost is_between = { IsTextBetween };
}

impl TextPiece for String {
    ghost use Rattle.std.specs.Prelude.{string_bytes};

    ghost bytes_of = { λ input s. string_bytes s };

    ghost is_placed = { λ input s. Unit {0} };

    ghost is_between = { λ from to s. Unit {0} };
}

impl TextPiece for CowStr<'_, Global> {
    ghost use Rattle.std.specs.Cow.{cow_str_bytes};

    ghost bytes_of = { λ input s. cow_str_bytes s };

    ghost is_placed = { λ input s. Unit {0} };

    ghost is_between = { λ from to s. Unit {0} };
}

/// Any bytes that were read from an input, wherever they are kept.
pub trait BytesPiece: Drop {
    // The bytes themselves.
    ghost items_of: { List ℕ → Self → List ℕ };

    // The bytes stand in the input, where they name a place of it.
    ghost is_placed: { List ℕ → Self → Type 0 };

    // They lie between these two places, where they name one.
    ghost is_between: { ℕ → ℕ → Self → Type 0 };
}

impl BytesPiece for BytesSpan {
    ghost use Rattle.smithy_schema.specs.Spans.{span_bytes, IsPlaced, IsBetween};

    ghost items_of = { span_bytes };

    ghost is_placed = { IsPlaced };

    ghost is_between = { IsBetween };
}

impl BytesPiece for CowSlice<'_, u8, Global> {
    ghost use Rattle.std.specs.Cow.{cow_slice_items};

    ghost items_of = { λ input b. cow_slice_items b };

    ghost is_placed = { λ input b. Unit {0} };

    ghost is_between = { λ from to b. Unit {0} };
}

/// A reader that hands out texts and bytes in types of its own. It names no lifetime, since no function that calls itself may have
/// a bound that does.
pub trait PieceDeserializer: ShapeDeserializer {
    /// What the reader hands out for a text.
    type Text: TextPiece;

    /// What the reader hands out for bytes.
    type Bytes: BytesPiece;

    /// Reads a text.
    fn take_text(&mut self, schema: &Schema<'_>) -> Result<Self::Text, SerdeError>
        ensures same { Self.settings self.new ≡ Self.settings self.old }
        ensures read { ReadsScalar (Self.reading (Self.settings self.old)) (Self.state self.old) (Self.state self.new) (site_of schema.now) scalars.String (λ s. text (Self.Text.bytes_of (Self.state self.old).input s)) result }
        ensures placed { IfOk result (Self.Text.is_placed (Self.state self.old).input) }
        ensures between { IfOk result (Self.Text.is_between (Self.state self.old).at (Self.state self.new).at) };

    /// Reads bytes.
    fn take_bytes(&mut self, schema: &Schema<'_>) -> Result<Self::Bytes, SerdeError>
        ensures same { Self.settings self.new ≡ Self.settings self.old }
        ensures read { ReadsScalar (Self.reading (Self.settings self.old)) (Self.state self.old) (Self.state self.new) (site_of schema.now) scalars.Blob (λ b. bytes (Self.Bytes.items_of (Self.state self.old).input b)) result }
        ensures placed { IfOk result (Self.Bytes.is_placed (Self.state self.old).input) }
        ensures between { IfOk result (Self.Bytes.is_between (Self.state self.old).at (Self.state self.new).at) };

    /// Goes on in the map, as `next_key` does.
    fn take_key(&mut self) -> Result<Option<Self::Text>, SerdeError>
        requires within { (Self.state self.old).inner.within ≡ in_map }
        ensures same { Self.settings self.new ≡ Self.settings self.old }
        ensures goes_on { GoesOnInMap (Self.reading (Self.settings self.old)) (Self.Text.bytes_of (Self.state self.old).input) (Self.state self.old) (Self.state self.new) result }
        ensures placed { IfOk result (λ next. MatchOption next (Unit {0}) (Self.Text.is_placed (Self.state self.old).input)) }
        ensures between { IfOk result (λ next. MatchOption next (Unit {0}) (Self.Text.is_between (Self.state self.old).at (Self.state self.new).at)) };
}
