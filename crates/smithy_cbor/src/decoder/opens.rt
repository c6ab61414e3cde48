//! Arrays, maps, breaks, and the simple values.

ghost use Rattle.std.specs.Prelude.{◌≡◌, ◌+◌, ◌↔◌, IfOk, IfErr, IsTrue, drop, length};
ghost use Rattle.cbor_item.specs.Head.{BeginsWithHead};
ghost use Rattle.cbor_item.specs.HeadView.{head_read};
ghost use Rattle.cbor_item.specs.Item.{simple};
ghost use Rattle.cbor_item.specs.WellFormed.{IsItemAt};
ghost use Rattle.smithy_cbor.specs.Reading.{OpensAt, IsHeadFault, IsOfType, IsSimpleHead, IsBooleanHead, IsBreakAt, IsBreakHead};
ghost use Rattle.smithy_cbor.specs.Scalar.{boolean_item, null_value};

use super::Decoder;
use crate::error::DeserializeError;
use crate::heads::break_at;
use crate::initial::{ARRAY, FALSE, MAP, NULL, SIMPLE, TRUE};
use cbor_item::{Head, ItemError, read_head};

impl Decoder<'_> {
    ghost use Rattle.smithy_cbor.specs.DecoderView.{input_of, position_of, Decodes, IsRefusal, IsKindAt};

    /// Begins an array: how many items its head announces, or `None` where a break ends it.
    pub fn list(&mut self) -> Result<Option<u64>, DeserializeError>
        ensures { Decodes (OpensAt 4) (IsKindAt (IsHeadFault (IsOfType 4))) self.old result self.new }
    {
        let head = self.head_of_type(ARRAY)?;
        self.position += usize::from(head.length);
        Ok(head.argument)
    }

    /// Begins a map: how many keys its head announces, or `None` where a break ends it.
    pub fn map(&mut self) -> Result<Option<u64>, DeserializeError>
        ensures { Decodes (OpensAt 5) (IsKindAt (IsHeadFault (IsOfType 5))) self.old result self.new }
    {
        let head = self.head_of_type(MAP)?;
        self.position += usize::from(head.length);
        Ok(head.argument)
    }

    /// Goes past a null.
    pub fn null(&mut self) -> Result<(), DeserializeError>
        ensures { Decodes (λ _. IsItemAt (simple null_value)) (IsKindAt (IsHeadFault (IsSimpleHead null_value))) self.old result self.new }
    {
        match read_head(self.bytes, self.position) {
            Ok(head) if is_simple(head, NULL) => {
                self.position += 1;
                Ok(())
            }
            Ok(_) => Err(self.refused(ItemError::WrongType)),
            Err(e) => Err(self.refused(e)),
        }
    }

    /// False or true.
    pub fn boolean(&mut self) -> Result<bool, DeserializeError>
        ensures { Decodes (λ b. IsItemAt (boolean_item b)) (IsKindAt (IsHeadFault IsBooleanHead)) self.old result self.new }
    {
        let value = self.boolean_here()?;
        self.position += 1;
        Ok(value)
    }

    // The boolean that stands here.
    fn boolean_here(&self) -> Result<bool, DeserializeError>
        ensures found { IfOk result (λ b. IsItemAt (boolean_item b) (input_of self.now) (position_of self.now) (position_of self.now + 1)) }
        ensures refused { IfErr result (IsRefusal (IsKindAt (IsHeadFault IsBooleanHead)) self.now) }
    {
        match read_head(self.bytes, self.position) {
            Ok(head) if is_simple(head, FALSE) => Ok(false),
            Ok(head) if is_simple(head, TRUE) => Ok(true),
            Ok(_) => Err(self.refused(ItemError::WrongType)),
            Err(e) => Err(self.refused(e)),
        }
    }

    /// Goes past the break that ends an array or a map of indefinite length.
    pub fn read_break(&mut self) -> Result<(), DeserializeError>
        ensures { Decodes (λ _. IsBreakAt) (IsKindAt (IsHeadFault IsBreakHead)) self.old result self.new }
    {
        match break_at(self.bytes, self.position) {
            Ok(end) => {
                self.position = end;
                Ok(())
            }
            Err(e) => Err(self.refused(e)),
        }
    }

    // The head that begins here, of the major type.
    fn head_of_type(&self, major: u8) -> Result<Head, DeserializeError>
        ensures found { IfOk result (λ head. BeginsWithHead (drop (position_of self.now) (input_of self.now)) (head_read head) × (head.major ≡ major)) }
        ensures refused { IfErr result (IsRefusal (IsKindAt (IsHeadFault (IsOfType major))) self.now) }
    {
        match read_head(self.bytes, self.position) {
            Ok(head) if head.major == major => Ok(head),
            Ok(_) => Err(self.refused(ItemError::WrongType)),
            Err(e) => Err(self.refused(e)),
        }
    }
}

// Whether the head is that of a simple value in the initial byte.
fn is_simple(head: Head, value: u64) -> bool
    ensures { IsTrue result ↔ IsSimpleHead value (head_read head) }
{
    head.major == SIMPLE && head.argument == Some(value) && head.length == 1
}
