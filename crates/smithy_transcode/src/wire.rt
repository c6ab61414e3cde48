//! The wires, and why a transcoding is refused.

use thiserror::Error;

/// A form in which a value is carried.
#[derive(Debug, Drop, PartialEq, Eq)]
pub enum Wire {
    /// JSON (RFC 8259).
    Json {
        /// Members go by their JSON names, where they have one.
        use_json_name: bool,
        /// An integer that is read may have a fraction or an exponent, as `1.0`, where it is whole. What is written is the same
        /// in any case.
        integral: bool,
    },
    /// CBOR (RFC 8949).
    Cbor {
        /// Lists and maps are written with their lengths. Both kinds are read in any case.
        definite: bool,
    },
    /// A form of AWS Query, which is written and not read.
    Query {
        /// The value of the form's pair `Action`.
        action: String,
        /// The value of the form's pair `Version`.
        version: String,
    },
}

/// What a wire can't express. `Display` writes the variant's name.
#[derive(Clone, Copy, Debug, PartialEq, Eq, Error)]
pub enum Unfit {
    /// A document: CBOR and forms have none.
    #[error("Document")]
    Document,
    /// A null among the elements of a list or the values of a map: no form has one.
    #[error("Null")]
    Null,
    /// An instant that the wire doesn't hold in the time form of its place.
    #[error("Instant")]
    Instant,
}

/// Why a body was refused. `Display` writes the variant's name.
#[derive(Clone, Copy, Debug, PartialEq, Eq, Error)]
pub enum TranscodeError {
    /// The input spells no value of the root.
    #[error("InvalidInput")]
    InvalidInput,
    /// The input spells no value of the root, and by its bytes alone may open 128 containers or more at
    /// once.
    #[error("TooDeep")]
    TooDeep,
    /// The input spells no value of the root, and holds a big number of a kind that the table has, which leaves the limits
    /// of the kind.
    #[error("TooWide")]
    TooWide,
    /// The input spells no value of the root. Either the table has instants, and the input holds a number of seconds that
    /// isn't carried as one; or the table has documents, and the input is CBOR or holds a number that no document carries.
    #[error("NotCarried")]
    NotCarried,
    /// The input spells a value of the root that the wanted wire can't express.
    #[error("Inexpressible")]
    Inexpressible(Unfit),
    /// An allocation was refused, or a place in the tree of a transcoding leaves 32 bits.
    #[error("NoMemory")]
    NoMemory,
}

impl TranscodeError {
    ghost use Rattle.std.specs.Prelude.{◌≡◌};
    ghost use Rattle.smithy_transcode.specs.Numbers.{error_number};

    /// The number that the program ends with where it refuses a body so, and that the library for C answers.
    pub fn number(self) -> u8
        ensures { result ≡ error_number self }
    {
        match self {
            TranscodeError::NoMemory => 8,
            TranscodeError::InvalidInput => 10,
            TranscodeError::TooDeep => 11,
            TranscodeError::TooWide => 12,
            TranscodeError::NotCarried => 13,
            TranscodeError::Inexpressible(Unfit::Document) => 14,
            TranscodeError::Inexpressible(Unfit::Null) => 15,
            TranscodeError::Inexpressible(Unfit::Instant) => 16,
        }
    }
}
