//! Why a value could not be read.

ghost use Rattle.std.specs.Prelude.{◌≡◌, ◌↔◌, IsTrue, Some};
ghost use Rattle.smithy_cbor.specs.Kind.{kind_of_item_error, IsTypeMismatch};
ghost use Rattle.smithy_cbor.specs.declared.error.DecodeKind.TheVariants.{UnexpectedUnionVariant, UnknownUnionVariant, MixedUnionVariants, ExpectedEndOfStream, Custom};

use crate::CborType;
use cbor_item::ItemError;
use std::alloc::AllocError;
use std::borrow::CowStr;
use thiserror::Error;

/// The cause of a refusal. No read answers the kinds from `UnexpectedUnionVariant` to `Custom`: they
/// come from the constructors of `DeserializeError`.
#[derive(Debug, Drop, Error)]
pub enum DecodeKind {
    /// The head, or what it announces, passes the end of the input.
    #[error("Truncated")]
    Truncated,
    /// A rule of RFC 8949, section 3, is broken.
    #[error("NotWellFormed")]
    NotWellFormed,
    /// An item of another kind than the wanted one stands here.
    #[error("WrongType")]
    WrongType,
    /// A chunk of a text string is not UTF-8.
    #[error("InvalidUtf8")]
    InvalidUtf8,
    /// An integer is outside the wanted width.
    #[error("OutOfRange")]
    OutOfRange,
    /// A big number is beyond what its type holds.
    #[error("TooWide")]
    TooWide,
    /// A form of the value that is not carried.
    #[error("NotCarried")]
    NotCarried,
    /// A second variant of a union, of this type.
    #[error("UnexpectedUnionVariant")]
    UnexpectedUnionVariant(CborType),
    /// A variant of this name, which the union does not have.
    #[error("UnknownUnionVariant")]
    UnknownUnionVariant(String),
    /// A union whose map announces other than one variant.
    #[error("MixedUnionVariants")]
    MixedUnionVariants,
    /// More follows where the stream was to end.
    #[error("ExpectedEndOfStream")]
    ExpectedEndOfStream,
    /// A fault that the caller states.
    #[error("Custom")]
    Custom(CowStr<'static>),
    /// An allocation was refused.
    #[error("NoMemory")]
    NoMemory,
}

impl From<ItemError> for DecodeKind {
    ghost from_gives = { λ e kind. kind ≡ kind_of_item_error e };

    fn from(e: ItemError) -> DecodeKind {
        match e {
            ItemError::Truncated => DecodeKind::Truncated,
            ItemError::NotWellFormed => DecodeKind::NotWellFormed,
            ItemError::WrongType => DecodeKind::WrongType,
            ItemError::InvalidUtf8 => DecodeKind::InvalidUtf8,
            ItemError::NoMemory => DecodeKind::NoMemory,
        }
    }
}

/// A refusal, with the position where the refused call began.
#[derive(Debug, Drop, Error)]
#[error("{kind}")]
pub struct DeserializeError {
    /// The cause.
    pub kind: DecodeKind,
    /// Where the refused call began, where that is known.
    pub at: Option<usize>,
}

impl DeserializeError {
    /// A second variant of a union was met.
    pub fn unexpected_union_variant(unexpected_type: CborType, at: usize) -> DeserializeError
        ensures { result ≡ record { kind = UnexpectedUnionVariant unexpected_type; at = Some at } }
    {
        DeserializeError::new(DecodeKind::UnexpectedUnionVariant(unexpected_type), at)
    }

    /// The name of a variant is none of the union's.
    pub fn unknown_union_variant(variant_name: String, at: usize) -> DeserializeError
        ensures { result ≡ record { kind = UnknownUnionVariant variant_name; at = Some at } }
    {
        DeserializeError::new(DecodeKind::UnknownUnionVariant(variant_name), at)
    }

    /// The map of a union announces other than one variant.
    pub fn mixed_union_variants(at: usize) -> DeserializeError
        ensures { result ≡ record { kind = MixedUnionVariants; at = Some at } }
    {
        DeserializeError::new(DecodeKind::MixedUnionVariants, at)
    }

    /// More follows where the stream was to end.
    pub fn expected_end_of_stream(at: usize) -> DeserializeError
        ensures { result ≡ record { kind = ExpectedEndOfStream; at = Some at } }
    {
        DeserializeError::new(DecodeKind::ExpectedEndOfStream, at)
    }

    /// A fault in the caller's own words.
    pub fn custom(message: CowStr<'static>, at: usize) -> DeserializeError
        ensures { result ≡ record { kind = Custom message.entry; at = Some at } }
    {
        DeserializeError::new(DecodeKind::Custom(message), at)
    }

    /// Whether another type stands than the wanted one.
    pub fn is_type_mismatch(&self) -> bool
        ensures { IsTrue result ↔ IsTypeMismatch self.now.kind }
    {
        matches!(
            self.kind,
            DecodeKind::WrongType | DecodeKind::UnexpectedUnionVariant(_)
        )
    }

    pub(crate) fn new(kind: DecodeKind, at: usize) -> DeserializeError
        ensures { result ≡ record { kind = kind; at = Some at } }
    {
        DeserializeError { kind, at: Some(at) }
    }
}

/// Why a big number could not be written.
#[derive(Clone, Copy, Debug, PartialEq, Eq, Error)]
pub enum EncodeError {
    /// The number, or the mantissa of the decimal, leaves 128 bits.
    #[error("TooWide")]
    TooWide,
    /// An allocation was refused.
    #[error("NoMemory")]
    NoMemory,
}

impl From<AllocError> for EncodeError {
    ghost use Rattle.smithy_cbor.specs.declared.error.EncodeError.TheVariants.{NoMemory};

    ghost from_gives = { λ e error. error ≡ NoMemory };

    fn from(_: AllocError) -> EncodeError {
        EncodeError::NoMemory
    }
}
