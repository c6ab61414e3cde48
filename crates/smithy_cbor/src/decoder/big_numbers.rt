//! Big integers and decimals, as their canonical texts.

ghost use Rattle.std.specs.Prelude.{◌≡◌};

use super::Decoder;
use crate::decimal::{decimal_at, exponent_of};
use crate::error::{DecodeKind, DeserializeError};
use crate::tagged::big_integer_at;
use cbor_item::ItemError;
use smithy_types::{BigDecimal, BigInteger};
use std::alloc::Global;

impl Decoder<'_> {
    ghost use Rattle.smithy_cbor.specs.DecoderView.{position_of, Decodes};
    ghost use Rattle.smithy_cbor.specs.Reading.{IsBigIntegerText, IsBigIntegerFault, IsDecimalText, IsDecimalFault};
    ghost use Rattle.smithy_cbor.specs.declared.error.DecodeKind.TheVariants.{TooWide};
    ghost use Rattle.std.specs.Prelude.{Some};

    /// An integer, or a bignum under tag 2 or 3 whose byte string is definite.
    pub fn big_integer(&mut self, alloc: Global) -> Result<BigInteger, DeserializeError>
        ensures { Decodes IsBigIntegerText IsBigIntegerFault self.old result self.new }
    {
        let (value, end) = match big_integer_at(self.bytes, self.position) {
            Ok(found) => found,
            Err(e) => return Err(self.refused(e)),
        };
        let Some(value) = value else {
            return Err(self.too_wide());
        };
        match BigInteger::from_i128(alloc, value) {
            Ok(n) => {
                self.position = end;
                Ok(n)
            }
            Err(_) => Err(self.refused(ItemError::NoMemory)),
        }
    }

    /// A decimal fraction: tag 4 and an array of an exponent and a mantissa.
    pub fn big_decimal(&mut self, alloc: Global) -> Result<BigDecimal, DeserializeError>
        ensures { Decodes IsDecimalText IsDecimalFault self.old result self.new }
    {
        let (exponent, mantissa, end) = match decimal_at(self.bytes, self.position) {
            Ok(found) => found,
            Err(e) => return Err(self.refused(e)),
        };
        let Some(exponent) = exponent_of(exponent) else {
            return Err(self.too_wide());
        };
        let Some(mantissa) = mantissa else {
            return Err(self.too_wide());
        };
        match BigDecimal::from_parts(alloc, mantissa, exponent) {
            Ok(n) => {
                self.position = end;
                Ok(n)
            }
            Err(_) => Err(self.refused(ItemError::NoMemory)),
        }
    }

    // A refusal of a number that leaves what a big number holds.
    fn too_wide(&self) -> DeserializeError
        ensures { result ≡ record { kind = TooWide; at = Some (position_of self.now) } }
    {
        DeserializeError::new(DecodeKind::TooWide, self.position)
    }
}
