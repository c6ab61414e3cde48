//! Reading CBOR, value by value.

ghost use Rattle.std.specs.Prelude.{◌≡◌, ◌≤◌, IfOk, IfErr, Some, None, drop, length};
ghost use Rattle.cbor_item.specs.Fault.{IsItemFault};
ghost use Rattle.cbor_item.specs.Kind.{kind_of};
ghost use Rattle.cbor_item.specs.WellFormed.{HoldsOneItem};

use crate::CborType;
use crate::error::{DecodeKind, DeserializeError};
use cbor_item::{ItemError, item_type, skip_item};
use std::alloc::Global;

mod big_numbers;
mod instants;
mod numbers;
mod opens;
mod strings;

/// Reads values one after another from an input. A refused call leaves the position, and its error
/// holds that position. Where several refusals apply to one read, the first from the left is
/// answered, a head's own fault before its kind and its kind before its payload.
#[derive(Clone, Copy, Debug)]
pub struct Decoder<'b> {
    bytes: &'b [u8],
    position: usize,
    ghost within: { position ≤ length bytes.now },
}

impl<'b> Decoder<'b> {
    ghost use Rattle.smithy_cbor.specs.DecoderView.{input_of, position_of, Decodes, IsRefusal, IsKindAt};
    ghost use Rattle.smithy_cbor.specs.Kind.{kind_of_item_error};
    ghost use Rattle.smithy_cbor.specs.declared.error.DecodeKind.TheVariants.{Truncated};

    /// Begins at the input's first byte.
    pub fn new(bytes: &'b [u8]) -> Decoder<'b>
        ensures input { input_of result ≡ bytes.now }
        ensures start { position_of result ≡ 0 }
    {
        Decoder { bytes, position: 0 }
    }

    /// The offset of the next byte to read.
    pub fn position(&self) -> usize
        ensures { result ≡ position_of self.now }
    {
        self.position
    }

    /// Goes on from this offset.
    pub fn set_position(&mut self, pos: usize)
        requires { pos ≤ length (input_of self.old) }
        ensures same_input { input_of self.new ≡ input_of self.old }
        ensures moved { position_of self.new ≡ pos }
    {
        self.position = pos;
    }

    /// The type of the item that begins here. The position stays.
    pub fn datatype(&self) -> Result<CborType, DeserializeError>
        ensures shown { IfOk result (λ t. kind_of (drop (position_of self.now) (input_of self.now)) ≡ Some t) }
        ensures refused { IfErr result (IsRefusal (λ input at kind. (kind ≡ Truncated) × (kind_of (drop at input) ≡ None)) self.now) }
    {
        match item_type(self.bytes, self.position) {
            Ok(item_type) => Ok(item_type),
            Err(e) => Err(self.refused(e)),
        }
    }

    /// Goes past one well-formed item.
    pub fn skip(&mut self, alloc: Global) -> Result<(), DeserializeError>
        ensures { Decodes (λ _. HoldsOneItem) (IsKindAt IsItemFault) self.old result self.new }
    {
        match skip_item(alloc, self.bytes, self.position) {
            Ok(end) => {
                self.position = end;
                Ok(())
            }
            Err(e) => Err(self.refused(e)),
        }
    }

    // A refusal of the read that begins here.
    fn refused(&self, e: ItemError) -> DeserializeError
        ensures kind { result.kind ≡ kind_of_item_error e }
        ensures place { result.at ≡ Some (position_of self.now) }
    {
        DeserializeError::new(DecodeKind::from(e), self.position)
    }
}
