//! What errors print that no other row can have.

use cbor_item::ItemError;
use smithy_cbor::{CborType, DecodeKind, EncodeError};
use smithy_compare::CompareError;
use smithy_error_bodies::ErrorBodyFault;
use smithy_json::EscapeError;
use smithy_model::ModelFault;
use smithy_model_table::WantedFault;
use smithy_outside::{Failed, LoadFault};
use smithy_schema::{SerdeError, Step, TableFault, TextSpan};
use smithy_table_text::TextFault;
use smithy_transcode::{TranscodeError, Unfit};
use smithy_types::{BigNumberError, DateTimeFormatError, base64};
use std::alloc::Global;
use std::borrow::CowStr;
use std::fmt::{Debug, Display};

/// Whether a value prints as this text.
pub fn prints<T: Display + Drop>(alloc: Global, value: T, text: &str) -> bool {
    match format!(in alloc; "{value}") {
        Ok(printed) => printed.as_str() == text,
        Err(_) => false,
    }
}

pub fn want_of_memory_prints_its_name(alloc: Global) -> bool {
    let name = "NoMemory";
    prints(alloc, BigNumberError::NoMemory, name)
        && prints(alloc, base64::DecodeError::NoMemory, name)
        && prints(alloc, DateTimeFormatError::NoMemory, name)
        && prints(alloc, EscapeError::NoMemory, name)
        && prints(alloc, ItemError::NoMemory, name)
        && prints(alloc, EncodeError::NoMemory, name)
        && prints(alloc, DecodeKind::NoMemory, name)
        && prints(alloc, SerdeError::NoMemory, name)
        && prints(alloc, TableFault::NoMemory, name)
        && prints(alloc, TranscodeError::NoMemory, name)
        && prints(alloc, CompareError::NoMemory, name)
        && prints(alloc, LoadFault::NoMemory, name)
        && prints(alloc, ModelFault::NoMemory, name)
        && prints(alloc, WantedFault::NoMemory, name)
        && prints(alloc, TextFault::NoMemory, name)
        && prints(alloc, ErrorBodyFault::NoMemory, name)
}

pub fn what_a_decoder_may_state_prints_its_name(alloc: Global) -> bool {
    let custom = DecodeKind::Custom(CowStr::Borrowed("c"));
    let of_another_type = DecodeKind::UnexpectedUnionVariant(CborType::Map);
    let unknown = DecodeKind::UnknownUnionVariant(String::new(alloc));
    let is_custom = prints(alloc, custom, "Custom");
    let is_of_another_type = prints(alloc, of_another_type, "UnexpectedUnionVariant");
    let is_unknown = prints(alloc, unknown, "UnknownUnionVariant");
    is_custom
        && is_of_another_type
        && is_unknown
        && prints(alloc, DecodeKind::MixedUnionVariants, "MixedUnionVariants")
        && prints(
            alloc,
            DecodeKind::ExpectedEndOfStream,
            "ExpectedEndOfStream",
        )
}

pub fn what_a_caller_states_prints_its_name(alloc: Global) -> bool {
    let is_inexpressible = prints(
        alloc,
        TranscodeError::Inexpressible(Unfit::Instant),
        "Inexpressible",
    );
    is_inexpressible
        && prints(alloc, Unfit::Document, "Document")
        && prints(alloc, Unfit::Null, "Null")
        && prints(alloc, Unfit::Instant, "Instant")
        && prints(alloc, SerdeError::TypeMismatch, "TypeMismatch")
        && prints(alloc, Failed, "Failed")
        && prints(alloc, LoadFault::Failed, "Failed")
        && prints(alloc, LoadFault::TooLong, "TooLong")
        && prints(alloc, ErrorBodyFault::InvalidInput, "InvalidInput")
}

pub fn what_is_no_model_and_no_table_prints_its_name(alloc: Global) -> bool {
    let refused = TableFault::TooMany(1);
    prints(alloc, ModelFault::NotJson, "NotJson")
        && prints(alloc, ModelFault::NameTwice, "NameTwice")
        && prints(alloc, ModelFault::NotAModel, "NotAModel")
        && prints(alloc, ModelFault::BadShape("a#B"), "BadShape")
        && prints(alloc, ModelFault::UnknownTarget("a#B"), "UnknownTarget")
        && prints(alloc, ModelFault::BadMixin("a#B"), "BadMixin")
        && prints(alloc, ModelFault::Applied("a#B"), "Applied")
        && prints(alloc, WantedFault::NoSuchName, "NoSuchName")
        && prints(alloc, WantedFault::NoDeclaration, "NoDeclaration")
        && prints(alloc, WantedFault::TooLong, "TooLong")
        && prints(alloc, WantedFault::TableRefused(refused), "TableRefused")
        && prints(alloc, WantedFault::Unwritable, "Unwritable")
        && prints(alloc, TextFault::TooLong, "TooLong")
        && prints(alloc, TextFault::Unwritable, "Unwritable")
        && prints(alloc, TextFault::Refused(refused), "Refused")
}

// Whether a value prints as this text for debugging.
fn shows<T: Debug + Drop>(alloc: Global, value: T, text: &str) -> bool {
    match format!(in alloc; "{value:?}") {
        Ok(shown) => shown.as_str() == text,
        Err(_) => false,
    }
}

pub fn steps_and_places_show_their_parts(alloc: Global) -> bool {
    shows(alloc, Step::End, "End") && shows(alloc, TextSpan::Placed(1, 2), "Placed(1, 2)")
}
