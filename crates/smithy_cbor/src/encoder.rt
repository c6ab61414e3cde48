//! Writing CBOR, value by value.

ghost use Rattle.std.specs.Prelude.{◌≡◌, ◌≤◌, ◌↔◌, ◌++◌, ◌∷◌, [], List, ℕ, OnOk, OnErr, IsErrOf, FitsSigned, length, take};
ghost use Rattle.std.specs.Int.{w128};
ghost use Rattle.cbor_item.specs.Head.{shortest_head};
ghost use Rattle.cbor_item.specs.WellFormed.{break};
ghost use Rattle.cbor_item.specs.Writing.{Appends};
ghost use Rattle.smithy_cbor.specs.Scalar.{null_value};
ghost use Rattle.smithy_cbor.specs.ReadBack.{SaysBigInteger, SaysDecimal, SaysSeconds};
ghost use Rattle.smithy_cbor.specs.Written.{integer_bytes, boolean_bytes, text_bytes, opening_bytes, byte_string_bytes, without_leading_zeros, magnitude_bytes, big_integer_bytes, decimal_fraction_bytes, epoch_seconds_bytes};
ghost use Rattle.smithy_cbor.specs.declared.error.EncodeError.TheVariants.{TooWide};
ghost use Rattle.smithy_texts.specs.Numeral.{number};
ghost use Rattle.smithy_texts.specs.Decimal.{mantissa, net_exponent};
ghost use Rattle.smithy_instants.specs.Instant.{seconds_of, subsecond_of};

use crate::big_endian::without_leading_zeros;
use crate::error::EncodeError;
use crate::initial::{
    ARRAY, BEGIN_ARRAY, BEGIN_MAP, BREAK, BYTES, DECIMAL_FRACTION, EPOCH_SECONDS, FALSE_BYTE, MAP,
    NEGATIVE, NEGATIVE_BIGNUM, NULL_BYTE, TAG, TEXT, TRUE_BYTE, UNSIGNED, UNSIGNED_BIGNUM,
};
use cbor_item::write_head;
use smithy_types::{BigDecimal, BigInteger, Blob, DateTime};
use std::alloc::AllocError;
use std::marker::Model;

/// Writes values one after another, with the shortest heads. A refused call leaves what was written.
///
/// Nothing keeps count: that a container holds what its head announces, and that what begins is
/// ended, is the caller's part.
#[derive(Debug, Drop)]
pub struct Encoder {
    writer: Vec<u8>,
}

impl Model for Encoder {
    ghost Value = { List ℕ };

    ghost view = { λ e. e.writer.items };
}

impl Encoder {
    /// Writes after what the list holds.
    pub fn new(writer: Vec<u8>) -> Encoder
        ensures { result ≡ writer.items }
    {
        Encoder { writer }
    }

    /// All that was written.
    pub fn into_writer(self) -> Vec<u8>
        ensures { result.items ≡ self }
    {
        self.writer
    }

    /// Begins a map of indefinite length.
    pub fn begin_map(&mut self) -> Result<(), AllocError>
        ensures { Appends (opening_bytes 5) self.old result self.new }
    {
        Ok(self.writer.push(BEGIN_MAP)?)
    }

    /// Begins an array of indefinite length.
    pub fn begin_array(&mut self) -> Result<(), AllocError>
        ensures { Appends (opening_bytes 4) self.old result self.new }
    {
        Ok(self.writer.push(BEGIN_ARRAY)?)
    }

    /// Ends an array or a map of indefinite length.
    pub fn end(&mut self) -> Result<(), AllocError>
        ensures { Appends (break ∷ []) self.old result self.new }
    {
        Ok(self.writer.push(BREAK)?)
    }

    /// Begins a map of so many keys, each with its value.
    pub fn map(&mut self, len: usize) -> Result<(), AllocError>
        ensures { Appends (shortest_head 5 len) self.old result self.new }
    {
        write_head(&mut self.writer, MAP, len as u64)
    }

    /// Begins an array of so many items.
    pub fn array(&mut self, len: usize) -> Result<(), AllocError>
        ensures { Appends (shortest_head 4 len) self.old result self.new }
    {
        write_head(&mut self.writer, ARRAY, len as u64)
    }

    /// Writes a null.
    pub fn null(&mut self) -> Result<(), AllocError>
        ensures { Appends (shortest_head 7 null_value) self.old result self.new }
    {
        Ok(self.writer.push(NULL_BYTE)?)
    }

    /// Writes false or true.
    pub fn boolean(&mut self, x: bool) -> Result<(), AllocError>
        ensures { Appends (boolean_bytes x) self.old result self.new }
    {
        if x {
            Ok(self.writer.push(TRUE_BYTE)?)
        } else {
            Ok(self.writer.push(FALSE_BYTE)?)
        }
    }

    /// Writes an integer, in as few bytes as it takes.
    pub fn byte(&mut self, x: i8) -> Result<(), AllocError>
        ensures { Appends (integer_bytes x) self.old result self.new }
    {
        self.long(i64::from(x))
    }

    /// Writes an integer, in as few bytes as it takes.
    pub fn short(&mut self, x: i16) -> Result<(), AllocError>
        ensures { Appends (integer_bytes x) self.old result self.new }
    {
        self.long(i64::from(x))
    }

    /// Writes an integer, in as few bytes as it takes.
    pub fn integer(&mut self, x: i32) -> Result<(), AllocError>
        ensures { Appends (integer_bytes x) self.old result self.new }
    {
        self.long(i64::from(x))
    }

    /// Writes an integer, in as few bytes as it takes.
    #[inline(always)]
    pub fn long(&mut self, x: i64) -> Result<(), AllocError>
        ensures { Appends (integer_bytes x) self.old result self.new }
    {
        if x >= 0 {
            write_head(&mut self.writer, UNSIGNED, x as u64)
        } else {
            write_head(&mut self.writer, NEGATIVE, x.unsigned_abs() - 1)
        }
    }

    /// Writes a text in one piece.
    pub fn str(&mut self, x: &str) -> Result<(), AllocError>
        ensures { Appends (text_bytes x.now) self.old result self.new }
    {
        self.string(TEXT, x.as_bytes())
    }

    /// Writes a byte string in one piece.
    pub fn blob_bytes(&mut self, x: &[u8]) -> Result<(), AllocError>
        ensures { Appends (byte_string_bytes x.now) self.old result self.new }
    {
        self.string(BYTES, x)
    }

    /// Writes a blob as a byte string in one piece.
    pub fn blob(&mut self, x: &Blob) -> Result<(), AllocError>
        ensures { Appends (byte_string_bytes x.now) self.old result self.new }
    {
        self.blob_bytes(x.as_ref())
    }

    /// Writes whole seconds after the epoch, under tag 1.
    pub fn timestamp(&mut self, x: &DateTime) -> Result<(), AllocError>
        requires { subsecond_of x.now ≡ 0 }
        ensures appends { Appends (epoch_seconds_bytes (seconds_of x.now)) self.old result self.new }
        ensures says { SaysSeconds (seconds_of x.now) (epoch_seconds_bytes (seconds_of x.now)) }
    {
        self.epoch_seconds(x.secs())
    }

    // Writes so many seconds after the epoch.
    #[tactic(auto, using(crate::proofs::ReadBackLemmas::seconds_back))]
    fn epoch_seconds(&mut self, x: i64) -> Result<(), AllocError>
        ensures appends { Appends (epoch_seconds_bytes x) self.old result self.new }
        ensures says { SaysSeconds x (epoch_seconds_bytes x) }
    {
        let start = self.writer.len();
        self.tag(EPOCH_SECONDS)?;
        let rest = self.long(x);
        self.or_take_back(start, rest)
    }

    /// Writes a whole number: as an integer where a head holds it, else under tag 2 or 3.
    #[tactic(auto, using(crate::proofs::ReadBackLemmas::big_integer_back))]
    pub fn whole(&mut self, x: i128) -> Result<(), AllocError>
        ensures appends { Appends (big_integer_bytes x) self.old result self.new }
        ensures says { SaysBigInteger x (big_integer_bytes x) }
    {
        if x >= 0 {
            self.magnitude(UNSIGNED, UNSIGNED_BIGNUM, x as u128)
        } else {
            self.magnitude(NEGATIVE, NEGATIVE_BIGNUM, x.unsigned_abs() - 1)
        }
    }

    /// Writes a big integer as a whole number.
    pub fn big_integer(&mut self, x: &BigInteger) -> Result<(), EncodeError>
        ensures appends { Appends (big_integer_bytes (number x.now)) self.old result self.new }
        ensures says { OnOk result (SaysBigInteger (number x.now) (big_integer_bytes (number x.now))) }
        ensures wide { IsErrOf result TooWide ↔ ¬ (FitsSigned w128 (number x.now)) }
    {
        match x.to_i128() {
            Ok(value) => Ok(self.whole(value)?),
            Err(_) => Err(EncodeError::TooWide),
        }
    }

    /// Writes a decimal fraction: tag 4 and an array of the exponent and the mantissa.
    #[tactic(auto, using(crate::proofs::ReadBackLemmas::decimal_back))]
    pub fn decimal_fraction(&mut self, exponent: i64, mantissa: i128) -> Result<(), AllocError>
        ensures appends { Appends (decimal_fraction_bytes exponent mantissa) self.old result self.new }
        ensures says { SaysDecimal exponent mantissa (decimal_fraction_bytes exponent mantissa) }
    {
        let start = self.writer.len();
        self.tag(DECIMAL_FRACTION)?;
        let rest = self.pair(exponent, mantissa);
        self.or_take_back(start, rest)
    }

    /// Writes a big decimal as a decimal fraction.
    pub fn big_decimal(&mut self, x: &BigDecimal) -> Result<(), EncodeError>
        ensures appends { Appends (decimal_fraction_bytes (net_exponent x.now) (mantissa x.now)) self.old result self.new }
        ensures says { OnOk result (SaysDecimal (net_exponent x.now) (mantissa x.now) (decimal_fraction_bytes (net_exponent x.now) (mantissa x.now))) }
        ensures wide { IsErrOf result TooWide ↔ ¬ (FitsSigned w128 (mantissa x.now)) }
    {
        match x.to_parts() {
            Ok((mantissa, exponent)) => Ok(self.decimal_fraction(exponent, mantissa)?),
            Err(_) => Err(EncodeError::TooWide),
        }
    }

    // Writes the array of a decimal fraction.
    fn pair(&mut self, exponent: i64, mantissa: i128) -> Result<(), AllocError>
        ensures { Appends (shortest_head 4 2 ++ (integer_bytes exponent ++ big_integer_bytes mantissa)) self.old result self.new }
    {
        let start = self.writer.len();
        self.array(2)?;
        let rest = self.parts(exponent, mantissa);
        self.or_take_back(start, rest)
    }

    // Writes an exponent and a mantissa.
    fn parts(&mut self, exponent: i64, mantissa: i128) -> Result<(), AllocError>
        ensures { Appends (integer_bytes exponent ++ big_integer_bytes mantissa) self.old result self.new }
    {
        let start = self.writer.len();
        self.long(exponent)?;
        let rest = self.whole(mantissa);
        self.or_take_back(start, rest)
    }

    // Writes n under the major type where a head holds it, else its bytes under the tag.
    fn magnitude(&mut self, major: u8, tag: u64, n: u128) -> Result<(), AllocError>
        requires { major ≤ 7 }
        ensures { Appends (magnitude_bytes major tag n) self.old result self.new }
    {
        if n < 0x1_0000_0000_0000_0000 {
            write_head(&mut self.writer, major, n as u64)
        } else {
            self.bignum(tag, &n.to_be_bytes())
        }
    }

    // Writes the number of the bytes under the tag.
    fn bignum(&mut self, tag: u64, bytes: &[u8]) -> Result<(), AllocError>
        ensures { Appends (shortest_head 6 tag ++ byte_string_bytes (without_leading_zeros bytes.now)) self.old result self.new }
    {
        let start = self.writer.len();
        self.tag(tag)?;
        let rest = self.blob_bytes(without_leading_zeros(bytes));
        self.or_take_back(start, rest)
    }

    // Begins an item under the tag.
    fn tag(&mut self, number: u64) -> Result<(), AllocError>
        ensures { Appends (shortest_head 6 number) self.old result self.new }
    {
        write_head(&mut self.writer, TAG, number)
    }

    // Writes a string of the major type in one piece.
    fn string(&mut self, major: u8, bytes: &[u8]) -> Result<(), AllocError>
        requires { major ≤ 7 }
        ensures { Appends (shortest_head major (length bytes.now) ++ bytes.now) self.old result self.new }
    {
        let start = self.writer.len();
        write_head(&mut self.writer, major, bytes.len() as u64)?;
        let rest = self.writer.extend_from_slice(bytes);
        self.or_take_back(start, rest)
    }

    // Takes back what was written from the offset on, where the rest was refused.
    fn or_take_back(&mut self, start: usize, rest: Result<(), AllocError>) -> Result<(), AllocError>
        ensures same { result ≡ rest }
        ensures ok { OnOk rest (self.new ≡ self.old) }
        ensures err { OnErr rest (self.new ≡ take start self.old) }
    {
        if rest.is_err() {
            self.writer.truncate(start);
        }
        rest
    }
}
