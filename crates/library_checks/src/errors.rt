//! Errors that a caller states, and errors of one crate that another hands on.

use crate::names::prints;
use smithy_cbor::{CborType, DecodeKind, DeserializeError as DecodeError};
use smithy_json::EscapeError;
use smithy_json_tokens::{DeserializeError, DeserializeErrorKind, Offset, Token};
use smithy_types::Number;
use std::alloc::Global;
use std::borrow::CowStr;

pub fn faults_of_texts_become_faults_of_tokens() -> bool {
    let ended = DeserializeError::from(EscapeError::UnexpectedEndOfString);
    let lacking = DeserializeError::from(EscapeError::NoMemory);
    matches!(
        &ended.kind,
        DeserializeErrorKind::UnescapeFailed(EscapeError::UnexpectedEndOfString)
    ) && ended.offset == None
        && matches!(&lacking.kind, DeserializeErrorKind::NoMemory)
}

pub fn a_number_that_does_not_fit_becomes_a_fault_of_tokens() -> bool {
    let Err(narrow) = u8::try_from(Number::PosInt(256)) else {
        return false;
    };
    let error = DeserializeError::from(narrow);
    matches!(&error.kind, DeserializeErrorKind::InvalidNumber) && error.offset == None
}

pub fn a_caller_states_a_fault_at_a_token(alloc: Global) -> bool {
    let token = Token::EndArray { offset: Offset(3) };
    let at_token = token.error(CowStr::Borrowed("no value"));
    let is_at_token = at_token.offset == Some(3);
    let is_custom = prints(alloc, at_token, "Custom");
    let at_offset = Offset(4).error(CowStr::Borrowed("no value"));
    is_at_token
        && is_custom
        && matches!(&at_offset.kind, DeserializeErrorKind::Custom(_))
        && at_offset.offset == Some(4)
}

pub fn a_caller_states_a_fault_of_a_union(alloc: Global) -> bool {
    let union = DecodeError::unexpected_union_variant(CborType::Map, 3);
    let name = DecodeError::unknown_union_variant(String::new(alloc), 3);
    union.is_type_mismatch()
        && matches!(
            union.kind,
            DecodeKind::UnexpectedUnionVariant(CborType::Map)
        )
        && !name.is_type_mismatch()
        && matches!(name.kind, DecodeKind::UnknownUnionVariant(_))
}

pub fn a_caller_states_a_fault_at_an_offset() -> bool {
    let mixed = DecodeError::mixed_union_variants(3);
    let end = DecodeError::expected_end_of_stream(3);
    let custom = DecodeError::custom(CowStr::Borrowed("c"), 3);
    matches!(mixed.kind, DecodeKind::MixedUnionVariants)
        && matches!(end.kind, DecodeKind::ExpectedEndOfStream)
        && custom.at == Some(3)
        && matches!(custom.kind, DecodeKind::Custom(_))
}
