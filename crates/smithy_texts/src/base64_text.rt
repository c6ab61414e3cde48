//! Bytes as padded base64 (RFC 4648, section 4).

ghost use Rattle.std.specs.Prelude.{◌≡◌, ◌*◌, ◌≤◌, IfOk, IfErr, Some, None};
ghost use Rattle.std.specs.String.{string_bytes};
ghost use Rattle.smithy_texts.specs.Base64Text.{blob_text, blob_of, blob_text_length};
ghost use Rattle.smithy_texts.specs.declared.base64_text.DecodeError.TheVariants.{Invalid};

use base64::DecodeAllocError;
use base64::engine::general_purpose::STANDARD;
use std::alloc::{AllocError, Global};

/// Why a text isn't decoded.
#[derive(Debug, Clone, Copy, PartialEq, Eq, thiserror::Error)]
pub enum DecodeError {
    /// The text is no padded base64 of any bytes.
    #[error("Invalid")]
    Invalid,
    /// There is no memory left.
    #[error("NoMemory")]
    NoMemory,
}

/// The padded base64 of the bytes.
pub fn encode(alloc: Global, input: &[u8]) -> Result<String, AllocError>
    ensures { IfOk result (λ text. string_bytes text ≡ blob_text input.now) }
{
    STANDARD.encode(alloc, input)
}

/// The bytes whose padded base64 is the text.
pub fn decode(alloc: Global, input: &str) -> Result<Vec<u8>, DecodeError>
    ensures ok { IfOk result (λ bytes. blob_of input.now ≡ Some bytes.items) }
    ensures err { IfErr result (λ e. e ≡ Invalid → blob_of input.now ≡ None) }
{
    match STANDARD.decode(alloc, input.as_bytes()) {
        Ok(bytes) => Ok(bytes),
        Err(DecodeAllocError::DecodeError(_)) => Err(DecodeError::Invalid),
        Err(DecodeAllocError::OutOfMemory) => Err(DecodeError::NoMemory),
    }
}

/// How long the base64 of so many bytes is.
pub fn encoded_length(length: usize) -> usize
    requires { length * 2 ≤ 0xffff_ffff_ffff_ffff }
    ensures { result ≡ blob_text_length length }
{
    length.div_ceil(3) * 4
}
