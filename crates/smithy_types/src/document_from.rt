//! Documents made of their parts.

ghost use Rattle.std.specs.Prelude.{◌≡◌, string_bytes, MatchOption};
ghost use Rattle.smithy_types.specs.Document.{null, boolean, number, text, array, object};
ghost use Rattle.smithy_types.specs.DocumentView.{document_view, elements_view, properties_view};
ghost use Rattle.smithy_types.specs.declared.number.Number.TheVariants.{PosInt, NegInt};

use crate::document::Document;
use crate::number::Number;
use std::collections::BTreeMap;

impl From<bool> for Document {
    ghost from_gives = { λ value d. document_view d ≡ boolean value };

    fn from(value: bool) -> Document {
        Document::Bool(value)
    }
}

impl From<String> for Document {
    ghost from_gives = { λ value d. document_view d ≡ text (string_bytes value) };

    fn from(value: String) -> Document {
        Document::String(value)
    }
}

impl From<Vec<Document>> for Document {
    ghost from_gives = { λ values d. document_view d ≡ array (elements_view values.items) };

    fn from(values: Vec<Document>) -> Document {
        Document::Array(values)
    }
}

impl From<BTreeMap<String, Document>> for Document {
    ghost from_gives = { λ values d. document_view d ≡ object (properties_view values.entries) };

    fn from(values: BTreeMap<String, Document>) -> Document {
        Document::Object(values)
    }
}

/// A `PosInt`.
impl From<u64> for Document {
    ghost from_gives = { λ value d. document_view d ≡ number (PosInt value) };

    fn from(value: u64) -> Document {
        Document::Number(Number::PosInt(value))
    }
}

/// A `NegInt`, whatever its sign.
impl From<i64> for Document {
    ghost from_gives = { λ value d. document_view d ≡ number (NegInt value) };

    fn from(value: i64) -> Document {
        Document::Number(Number::NegInt(value))
    }
}

/// A `NegInt`, whatever its sign.
impl From<i32> for Document {
    ghost from_gives = { λ value d. document_view d ≡ number (NegInt value) };

    fn from(value: i32) -> Document {
        Document::Number(Number::NegInt(i64::from(value)))
    }
}

impl From<Number> for Document {
    ghost from_gives = { λ value d. document_view d ≡ number value };

    fn from(value: Number) -> Document {
        Document::Number(value)
    }
}

/// A null where there is nothing.
impl<T: Into<Document>> From<Option<T>> for Document {
    ghost from_gives = { λ value d. MatchOption value (document_view d ≡ null) (λ x. T.Into.converts x d) };

    fn from(value: Option<T>) -> Document {
        match value {
            Some(value) => value.into(),
            None => Document::Null,
        }
    }
}
