//! Reading a source to its end, and writing all of some bytes.
ghost use Rattle.std.specs.Prelude.{◌≡◌, ◌<◌, ◌≤◌, ◌+◌, ◌++◌, List, ℕ, false, length, IfOk, OnOk, IsErrOf};
ghost use Rattle.smithy_outside.specs.Outside.{IsCountedLoad, Gave, GavePast, IsAtEnd, IsWritten};

use crate::outside::{Failed, LoadFault, Sink, Source};
use std::alloc::{AllocError, Global};

// The most bytes that one call asks for.
const PIECE: usize = 65_536;

// A buffer of so many bytes.
fn zeros(alloc: Global, len: usize) -> Result<Vec<u8>, AllocError>
    ensures { IfOk result (λ buffer. length buffer.items ≡ len) }
{
    vec![in alloc; 0; len]
}

// Reads one piece behind the bytes, through the buffer, and answers its length.
fn read_piece<S: Source>(
    source: &mut S,
    buffer: &mut [u8],
    bytes: &mut Vec<u8>,
) -> Result<usize, LoadFault>
    ensures piece { (piece : List ℕ) × Gave piece (S.told source.old) (S.told source.new) × (length piece ≤ length buffer.old)
        × IfOk result (λ count. (length piece ≡ count) × (bytes.new.items ≡ bytes.old.items ++ piece)) }
    ensures end { result ≡ Ok 0 → 0 < length buffer.old → IsAtEnd (S.told source.new) }
    ensures counts { IsCountedLoad result (S.told source.old) (S.told source.new) }
    ensures never_too_long { IsErrOf result LoadFault.TooLong → ⊥ }
{
    let count = source.read(buffer)?;
    bytes.extend_from_slice(&buffer[..count])?;
    Ok(count)
}

/// Reads a source to its end, but no further than one byte past the limit, in bytes.
pub fn read_to_end<S: Source>(
    alloc: Global,
    source: &mut S,
    limit: usize,
) -> Result<Vec<u8>, LoadFault>
    // The bytes are all that the source had left.
    ensures all { IfOk result (λ bytes. Gave bytes.items (S.told source.old) (S.told source.new)) }
    ensures end { OnOk result (IsAtEnd (S.told source.new)) }
    ensures within { IfOk result (λ bytes. length bytes.items ≤ limit) }

    // The first fault that shows in the count ends the read.
    ensures counts { IsCountedLoad result (S.told source.old) (S.told source.new) }

    ensures too_long { IsErrOf result LoadFault.TooLong → GavePast limit (S.told source.old) (S.told source.new) }
    ensures no_further { (bytes : List ℕ) × Gave bytes (S.told source.old) (S.told source.new) × (length bytes ≤ limit + 1) }
{
    let mut buffer = zeros(alloc, PIECE)?;
    let buffer = buffer.as_mut_slice();
    let mut bytes = Vec::new(alloc);
    while bytes.len() <= limit {
        let room = (limit - bytes.len()).min(PIECE - 1) + 1;
        if read_piece(source, &mut buffer[..room], &mut bytes)? == 0 {
            return Ok(bytes);
        }
    }
    Err(LoadFault::TooLong)
}

/// Writes all of the bytes, and leaves what the sink holds back.
pub fn write_bytes<K: Sink>(sink: &mut K, bytes: &[u8]) -> Result<(), Failed>
    ensures written { IsWritten bytes.now result (K.told sink.old) (K.told sink.new) }
{
    let mut rest = bytes;
    while !rest.is_empty() {
        let count = sink.write(rest)?;
        rest = &rest[count..];
    }
    Ok(())
}

/// Writes all of the bytes, and then what the sink holds back.
pub fn write_all<K: Sink>(sink: &mut K, bytes: &[u8]) -> Result<(), Failed>
    ensures written { IsWritten bytes.now result (K.told sink.old) (K.told sink.new) }
    ensures passed_on { OnOk result (K.holds_back sink.new ≡ false) }
{
    write_bytes(sink, bytes)?;
    sink.finish()
}
