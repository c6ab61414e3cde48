//! Integers, each within its width.

ghost use Rattle.std.specs.Prelude.{◌≡◌, ◌≤◌, IfOk, IfErr, IfSome, IfNone, Some, FitsSigned, drop};
ghost use Rattle.cbor_item.specs.Head.{BeginsWithHead};
ghost use Rattle.smithy_cbor.specs.Private.HeadNumber.{number_of};
ghost use Rattle.smithy_cbor.specs.declared.error.DecodeKind.TheVariants.{OutOfRange};
ghost use Rattle.std.specs.Int.{w8, w16, w32, w64};

use super::Decoder;
use crate::error::{DecodeKind, DeserializeError};
use crate::initial::{NEGATIVE, UNSIGNED};
use cbor_item::{ItemError, read_head};

// An integer and where its item ends.
#[derive(Clone, Copy)]
struct Integer {
    value: i64,
    end: usize,
}

impl Integer {
    fn new(value: i64, end: usize) -> Integer
        ensures value { result.value ≡ value }
        ensures end { result.end ≡ end }
    {
        Integer { value, end }
    }
}

impl Decoder<'_> {
    ghost use Rattle.smithy_cbor.specs.DecoderView.{input_of, position_of, Decodes, IsRefusal};
    ghost use Rattle.smithy_cbor.specs.Reading.{IsIntegerAt, IsIntegerFault};

    /// An integer from -2^7 to 2^7-1, whatever width its head has.
    pub fn byte(&mut self) -> Result<i8, DeserializeError>
        ensures { Decodes IsIntegerAt (IsIntegerFault w8) self.old result self.new }
    {
        let Integer { value, end } = self.integer_here()?;
        match i8::try_from(value) {
            Ok(byte) => {
                self.position = end;
                Ok(byte)
            }
            Err(_) => Err(self.out_of_range()),
        }
    }

    /// An integer from -2^15 to 2^15-1, whatever width its head has.
    pub fn short(&mut self) -> Result<i16, DeserializeError>
        ensures { Decodes IsIntegerAt (IsIntegerFault w16) self.old result self.new }
    {
        let Integer { value, end } = self.integer_here()?;
        match i16::try_from(value) {
            Ok(short) => {
                self.position = end;
                Ok(short)
            }
            Err(_) => Err(self.out_of_range()),
        }
    }

    /// An integer from -2^31 to 2^31-1, whatever width its head has.
    pub fn integer(&mut self) -> Result<i32, DeserializeError>
        ensures { Decodes IsIntegerAt (IsIntegerFault w32) self.old result self.new }
    {
        let Integer { value, end } = self.integer_here()?;
        match i32::try_from(value) {
            Ok(integer) => {
                self.position = end;
                Ok(integer)
            }
            Err(_) => Err(self.out_of_range()),
        }
    }

    /// An integer from -2^63 to 2^63-1, whatever width its head has.
    pub fn long(&mut self) -> Result<i64, DeserializeError>
        ensures { Decodes IsIntegerAt (IsIntegerFault w64) self.old result self.new }
    {
        let Integer { value, end } = self.integer_here()?;
        self.position = end;
        Ok(value)
    }

    // The integer that stands here, within 64 bits.
    fn integer_here(&self) -> Result<Integer, DeserializeError>
        ensures found { IfOk result (λ i. IsIntegerAt i.value (input_of self.now) (position_of self.now) i.end) }
        ensures refused { IfErr result (IsRefusal (IsIntegerFault w64) self.now) }
    {
        let head = match read_head(self.bytes, self.position) {
            Ok(head) => head,
            Err(e) => return Err(self.refused(e)),
        };
        match (head.major, head.argument) {
            (UNSIGNED, Some(argument)) => self.integer_of(UNSIGNED, argument, head.length),
            (NEGATIVE, Some(argument)) => self.integer_of(NEGATIVE, argument, head.length),
            _ => Err(self.refused(ItemError::WrongType)),
        }
    }

    // The integer of this head, within 64 bits.
    fn integer_of(&self, major: u8, argument: u64, length: u8) -> Result<Integer, DeserializeError>
        requires integer_type { major ≤ 1 }
        requires head { BeginsWithHead (drop (position_of self.now) (input_of self.now)) (record { major = major; argument = Some argument; length = length }) }
        ensures found { IfOk result (λ i. IsIntegerAt i.value (input_of self.now) (position_of self.now) i.end) }
        ensures refused { IfErr result (IsRefusal (IsIntegerFault w64) self.now) }
    {
        match signed(major, argument) {
            Some(value) => Ok(Integer::new(value, self.position + usize::from(length))),
            None => Err(self.out_of_range()),
        }
    }

    // A refusal of a number that its type cannot hold.
    pub(super) fn out_of_range(&self) -> DeserializeError
        ensures { result ≡ record { kind = OutOfRange; at = Some (position_of self.now) } }
    {
        DeserializeError::new(DecodeKind::OutOfRange, self.position)
    }
}

// The number of an integer's head.
fn signed(major: u8, argument: u64) -> Option<i64>
    requires { major ≤ 1 }
    ensures some { IfSome result (λ z. z ≡ number_of major argument) }
    ensures fits { IfSome result (FitsSigned w64) }
    ensures none { IfNone result (¬ (FitsSigned w64 (number_of major argument))) }
{
    if argument > i64::MAX as u64 {
        return None;
    }
    let value = argument as i64;
    Some(if major == UNSIGNED { value } else { -1 - value })
}
