//! Texts of booleans and of whole numbers of up to 64 bits.

ghost use Rattle.std.specs.Prelude.{◌≡◌, ◌≤◌, List, ℕ, Bool, Result, drop, IsUtf8};
ghost use Rattle.std.specs.Int.{w8, w16, w32, w64};
ghost use Rattle.std.specs.Str.Parse.{ParsesBool, ParsesSigned};
ghost use Rattle.std.specs.Fmt.{signed_decimal, decimal};
ghost use Rattle.smithy_types.specs.PrimitiveText.{boolean_text, primitive_text};

use itoa::Integer;
use std::marker::Model;
use std::num::ParseIntError;
use std::str;
use std::str::ParseBoolError;

/// The text is none of the wanted type.
#[derive(Debug, Clone, Copy, PartialEq, Eq, thiserror::Error)]
#[error("PrimitiveParseError")]
pub struct PrimitiveParseError;

impl From<ParseBoolError> for PrimitiveParseError {
    fn from(_: ParseBoolError) -> PrimitiveParseError {
        PrimitiveParseError
    }
}

impl From<ParseIntError> for PrimitiveParseError {
    fn from(_: ParseIntError) -> PrimitiveParseError {
        PrimitiveParseError
    }
}

/// What is read from a text: `true` or `false`, or an optional `+` or `-` and decimal digits within the
/// range of the type.
pub trait Parse: Sized {
    ghost use Rattle.std.specs.Prelude.{List, ℕ, Result};
    ghost use Rattle.smithy_types.specs.declared.primitive.PrimitiveParseError.{PrimitiveParseError};

    ghost parses: { List ℕ → Result Self PrimitiveParseError → Type 0 };

    fn parse_smithy_primitive(input: &str) -> Result<Self, PrimitiveParseError>
        ensures { parses input.now result };
}

impl Parse for bool {
    ghost parses = { ParsesBool };

    fn parse_smithy_primitive(input: &str) -> Result<bool, PrimitiveParseError> {
        Ok(input.parse::<bool>()?)
    }
}

impl Parse for i8 {
    ghost parses = { ParsesSigned w8 10 };

    fn parse_smithy_primitive(input: &str) -> Result<i8, PrimitiveParseError> {
        Ok(input.parse::<i8>()?)
    }
}

impl Parse for i16 {
    ghost parses = { ParsesSigned w16 10 };

    fn parse_smithy_primitive(input: &str) -> Result<i16, PrimitiveParseError> {
        Ok(input.parse::<i16>()?)
    }
}

impl Parse for i32 {
    ghost parses = { ParsesSigned w32 10 };

    fn parse_smithy_primitive(input: &str) -> Result<i32, PrimitiveParseError> {
        Ok(input.parse::<i32>()?)
    }
}

impl Parse for i64 {
    ghost parses = { ParsesSigned w64 10 };

    fn parse_smithy_primitive(input: &str) -> Result<i64, PrimitiveParseError> {
        Ok(input.parse::<i64>()?)
    }
}

#[derive(Debug, Clone, Copy)]
enum Primitive {
    Boolean(bool),
    Signed(i64),
    Unsigned(u64),
}

// Room for one text, which stands at its end.
#[derive(Clone, Copy)]
struct Room {
    bytes: [u8; 40],
}

impl Room {
    fn write_boolean(&mut self, value: bool) -> usize
        ensures within { result ≤ 40 }
        ensures text { drop result self.new.bytes ≡ boolean_text value }
        ensures utf8 { IsUtf8 (drop result self.new.bytes) }
    {
        let text = if value { "true" } else { "false" };
        let start = 40 - text.len();
        self.bytes[start..].copy_from_slice(text.as_bytes());
        start
    }

    // Writes the text of the value, and says where it begins.
    fn write(&mut self, value: Primitive) -> usize
        ensures within { result ≤ 40 }
        ensures text { drop result self.new.bytes ≡ primitive_text value }
        ensures utf8 { IsUtf8 (drop result self.new.bytes) }
    {
        match value {
            Primitive::Boolean(value) => self.write_boolean(value),
            Primitive::Signed(n) => n.write(&mut self.bytes),
            Primitive::Unsigned(n) => n.write(&mut self.bytes),
        }
    }

    // The bytes of the room from an offset on.
    fn bytes_from(&self, start: usize) -> &[u8]
        requires { start ≤ 40 }
        ensures { result.now ≡ drop start self.now.bytes }
    {
        &self.bytes[start..]
    }
}

/// Writes one value into room of its own. Contracts see the text of the value.
#[derive(Drop)]
pub struct Encoder {
    value: Primitive,
    room: Room,
}

impl Model for Encoder {
    ghost use Rattle.std.specs.Prelude.{List, ℕ};

    ghost Value = { List ℕ };

    ghost use Rattle.smithy_types.specs.PrimitiveText.{primitive_text};

    ghost view = { λ e. primitive_text e.value };
}

impl Encoder {
    ghost use Rattle.std.specs.Borrow.{sem};
    ghost use Rattle.smithy_types.specs.EncoderRests.{Rests};

    fn bytes(&mut self) -> &[u8]
        ensures* kept { sem 𝓛 (Rests self.entry) }
        ensures text { result.now ≡ self.old }
        ensures utf8 { IsUtf8 result.now }
    {
        let start = self.room.write(self.value);
        self.room.bytes_from(start)
    }

    /// The text of the value: `true` or `false`, or its decimal digits, behind a `-` where it is below 0.
    pub fn encode(&mut self) -> &str
        // What is held stays, so a further call gives the same text.
        ensures* kept { sem 𝓛 (Rests self.entry) }
        ensures text { result.now ≡ self.old }
    {
        as_text(self.bytes())
    }
}

// The text of these bytes.
fn as_text(bytes: &[u8]) -> &str
    requires { IsUtf8 bytes.now }
    ensures { result.now ≡ bytes.now }
{
    unsafe { str::from_utf8_unchecked(bytes) }
}

impl From<bool> for Encoder {
    ghost from_gives = { λ b e. e ≡ boolean_text b };

    fn from(input: bool) -> Encoder {
        Encoder {
            value: Primitive::Boolean(input),
            room: Room { bytes: [0; 40] },
        }
    }
}

impl From<u64> for Encoder {
    ghost from_gives = { λ n e. e ≡ decimal n };

    fn from(input: u64) -> Encoder {
        Encoder {
            value: Primitive::Unsigned(input),
            room: Room { bytes: [0; 40] },
        }
    }
}

impl From<i64> for Encoder {
    ghost from_gives = { λ n e. e ≡ signed_decimal n };

    fn from(input: i64) -> Encoder {
        Encoder {
            value: Primitive::Signed(input),
            room: Room { bytes: [0; 40] },
        }
    }
}

impl From<i8> for Encoder {
    ghost from_gives = { λ n e. e ≡ signed_decimal n };

    fn from(input: i8) -> Encoder {
        Encoder::from(i64::from(input))
    }
}

impl From<i16> for Encoder {
    ghost from_gives = { λ n e. e ≡ signed_decimal n };

    fn from(input: i16) -> Encoder {
        Encoder::from(i64::from(input))
    }
}

impl From<i32> for Encoder {
    ghost from_gives = { λ n e. e ≡ signed_decimal n };

    fn from(input: i32) -> Encoder {
        Encoder::from(i64::from(input))
    }
}
