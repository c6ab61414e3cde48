//! Texts and bytes.

ghost use Rattle.std.specs.Prelude.{◌≡◌, IfOk, string_bytes};
ghost use Rattle.std.specs.Cow.{cow_slice_items};
ghost use Rattle.cbor_item.specs.Fault.{IsStringFault};
ghost use Rattle.cbor_item.specs.Strings.{IsTextAt, IsTextFault};

use super::Decoder;
use crate::error::DeserializeError;
use cbor_item::{ItemError, byte_chunks, text_chunks};
use smithy_types::Blob;
use std::alloc::{AllocError, Global};
use std::borrow::{CowSlice, CowStr};

impl<'b> Decoder<'b> {
    ghost use Rattle.smithy_cbor.specs.DecoderView.{Decodes, IsKindAt};
    ghost use Rattle.smithy_cbor.specs.Reading.{IsTextOf, AreBytesOf};

    /// A text: borrowed from the input exactly where it stands there in one piece.
    pub fn str(&mut self, alloc: Global) -> Result<CowStr<'b>, DeserializeError>
        ensures { Decodes (λ text input at end. IsTextAt input at text end) (IsKindAt IsTextFault) self.old result self.new }
    {
        match text_chunks(alloc, self.bytes, self.position) {
            Ok((text, end)) => {
                self.position = end;
                Ok(text)
            }
            Err(e) => Err(self.refused(e)),
        }
    }

    /// A text, copied.
    pub fn string(&mut self, alloc: Global) -> Result<String, DeserializeError>
        ensures { Decodes (λ text. IsTextOf (string_bytes text)) (IsKindAt IsTextFault) self.old result self.new }
    {
        match text_chunks(alloc, self.bytes, self.position) {
            Ok((text, end)) => match text.into_owned(alloc) {
                Ok(text) => {
                    self.position = end;
                    Ok(text)
                }
                Err(_) => Err(self.refused(ItemError::NoMemory)),
            },
            Err(e) => Err(self.refused(e)),
        }
    }

    /// The bytes of a byte string, in one piece or in chunks.
    pub fn blob(&mut self, alloc: Global) -> Result<Blob, DeserializeError>
        ensures { Decodes AreBytesOf (IsKindAt (IsStringFault 2)) self.old result self.new }
    {
        match byte_chunks(alloc, self.bytes, self.position) {
            Ok((bytes, end)) => match owned_bytes(alloc, bytes) {
                Ok(bytes) => {
                    self.position = end;
                    Ok(Blob::new(bytes))
                }
                Err(_) => Err(self.refused(ItemError::NoMemory)),
            },
            Err(e) => Err(self.refused(e)),
        }
    }
}

// The bytes in memory of their own.
fn owned_bytes(alloc: Global, bytes: CowSlice<'_, u8>) -> Result<Vec<u8>, AllocError>
    ensures { IfOk result (λ v. v.items ≡ cow_slice_items bytes.entry) }
{
    match bytes {
        CowSlice::Borrowed(bytes) => Vec::from_slice(alloc, bytes),
        CowSlice::Owned(bytes) => Ok(bytes),
    }
}
