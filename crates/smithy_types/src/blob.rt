//! Bytes of a blob.

ghost use Rattle.std.specs.Prelude.{◌≡◌, ◌<◌, List, ℕ, IfOk, Some, nat_eq};
ghost use Rattle.std.specs.Hash as fed;
ghost use Rattle.std.specs.Cmp.Lexicographic.{pointwise, nat_list_eq_equiv};
ghost use Rattle.std.specs.Cmp.{partial_equiv_from_equiv};
ghost use Rattle.std.specs.Cmp.Rules.{hashing};
ghost use Rattle.std.proofs.Common.{rules};
ghost use Rattle.smithy_types.specs.BlobText.{hex_digit, hex_text};

use std::alloc::{AllocError, Global};
use std::fmt;
use std::hash::{Hash, Hasher};
use std::marker::Model;

/// Any bytes. Contracts see them as a list.
#[derive(Debug, Drop)]
pub struct Blob {
    bytes: Vec<u8>,
}

impl Model for Blob {
    ghost Value = { List ℕ };

    ghost view = { λ b. b.bytes.items };
}

impl Blob {
    /// The blob of these bytes, in the memory that they are in.
    pub fn new(input: Vec<u8>) -> Blob
        ensures { result ≡ input.items }
    {
        Blob { bytes: input }
    }

    /// The bytes, in the memory that they are in.
    pub fn into_inner(self) -> Vec<u8>
        ensures { result.items ≡ self }
    {
        let Blob { bytes } = self;
        bytes
    }

    /// The bytes.
    pub fn as_ref(&self) -> &[u8]
        ensures { result.now ≡ self.now }
    {
        self.bytes.as_slice()
    }

    /// A copy of the bytes, in memory of its own.
    pub fn clone_in(&self, alloc: Global) -> Result<Blob, AllocError>
        ensures { IfOk result (λ b. b ≡ self.now) }
    {
        let bytes = Vec::from_slice(alloc, self.as_ref())?;
        Ok(Blob { bytes })
    }
}

impl From<Vec<u8>> for Blob {
    ghost from_gives = { λ bytes blob. blob ≡ bytes.items };

    fn from(bytes: Vec<u8>) -> Blob {
        Blob::new(bytes)
    }
}

impl From<Blob> for Vec<u8> {
    ghost from_gives = { λ blob bytes. bytes.items ≡ blob };

    fn from(blob: Blob) -> Vec<u8> {
        blob.into_inner()
    }
}

fn hex_digit(n: u8) -> char
    requires { n < 16 }
    ensures value { result ≡ hex_digit n }
    ensures ascii { result < 128 }
{
    if n < 10 {
        (b'0' + n) as char
    } else {
        (b'a' + (n - 10)) as char
    }
}

/// Two lower-case hexadecimal digits for each byte.
impl fmt::Display for Blob {
    ghost output = { λ blob. Some (hex_text blob) };

    fn fmt<W: fmt::Write>(&self, f: &mut fmt::Formatter<W>) -> fmt::Result {
        for byte in self.as_ref() {
            let (high, low) = (hex_digit(byte / 16), hex_digit(byte % 16));
            write!(f, "{high}{low}")?;
        }
        Ok(())
    }
}

impl PartialEq for Blob {
    ghost eq = { pointwise nat_eq };

    ghost laws = { partial_equiv_from_equiv nat_list_eq_equiv };

    fn eq(&self, other: &Blob) -> bool {
        self.as_ref() == other.as_ref()
    }
}

impl Eq for Blob {
    ghost laws = { nat_list_eq_equiv };
}

impl Hash for Blob {
    ghost hash_input = { fed.slice fed.u8 };

    ghost respects_eq = { Prim.search (hashing, rules) };

    fn hash<H: Hasher>(&self, state: &mut H) {
        self.as_ref().hash(state);
    }
}
