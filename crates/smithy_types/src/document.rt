//! Documents: values of no shape, as JSON has them.

ghost use Rattle.std.specs.Prelude.{◌≡◌, is_some, option_map, IfOk};
ghost use Rattle.smithy_types.specs.Document.{null, properties_of, elements_of, number_of, text_of, boolean_of, null_of};
ghost use Rattle.smithy_types.specs.DocumentView.{document_view, elements_view, properties_view};

use crate::number::Number;
use std::alloc::{AllocError, Global};
use std::collections::BTreeMap;

/// A value of no shape. Equal are two documents whose parts are, so two numbers of one variant alone.
///
/// Dropping, comparing, copying and printing a document take room on the stack for each of its levels.
#[derive(Debug, PartialEq, Drop)]
pub enum Document {
    /// Values by their names.
    Object(BTreeMap<String, Document>),
    /// Values in order.
    Array(Vec<Document>),
    /// A whole number.
    Number(Number),
    /// A text.
    String(String),
    /// A truth value.
    Bool(bool),
    /// Nothing.
    Null,
}

impl Document {
    ghost use Rattle.std.specs.Borrow.{LendsIf, sem};
    ghost use Rattle.smithy_types.specs.contracts.document.Document.{the_row};
    ghost use Rattle.smithy_types.specs.declared.document.Document.{Array, Object};
    ghost use Rattle.smithy_types.specs.Private.DocumentRows.{array_row, object_row};

    /// The properties of an object.
    pub fn as_object(&self) -> Option<&BTreeMap<String, Document>>
        ensures { option_map (λ m. properties_view m.now.entries) result ≡ properties_of (document_view self.now) }
    {
        if let Document::Object(object) = self {
            Some(object)
        } else {
            None
        }
    }

    /// The properties of an object, to be changed.
    pub fn as_object_mut(&mut self) -> Option<&mut BTreeMap<String, Document>>
        ensures* writes_back { sem 𝓛 (LendsIf the_row object_row self.entry result Object self.old) }
        ensures value { option_map (λ m. properties_view m.now.entries) result ≡ properties_of (document_view self.old) }
    {
        if let Document::Object(object) = self {
            Some(object)
        } else {
            None
        }
    }

    /// The elements of an array.
    pub fn as_array(&self) -> Option<&Vec<Document>>
        ensures { option_map (λ v. elements_view v.now.items) result ≡ elements_of (document_view self.now) }
    {
        if let Document::Array(array) = self {
            Some(array)
        } else {
            None
        }
    }

    /// The elements of an array, to be changed.
    pub fn as_array_mut(&mut self) -> Option<&mut Vec<Document>>
        ensures* writes_back { sem 𝓛 (LendsIf the_row array_row self.entry result Array self.old) }
        ensures value { option_map (λ v. elements_view v.now.items) result ≡ elements_of (document_view self.old) }
    {
        if let Document::Array(array) = self {
            Some(array)
        } else {
            None
        }
    }

    /// The number, where it is one.
    pub fn as_number(&self) -> Option<&Number>
        ensures { option_map (λ n. n.now) result ≡ number_of (document_view self.now) }
    {
        if let Document::Number(number) = self {
            Some(number)
        } else {
            None
        }
    }

    /// The text, where it is one.
    pub fn as_string(&self) -> Option<&str>
        ensures { option_map (λ s. s.now) result ≡ text_of (document_view self.now) }
    {
        if let Document::String(text) = self {
            Some(text.as_str())
        } else {
            None
        }
    }

    /// The truth value, where it is one.
    pub fn as_bool(&self) -> Option<bool>
        ensures { result ≡ boolean_of (document_view self.now) }
    {
        if let Document::Bool(value) = self {
            Some(*value)
        } else {
            None
        }
    }

    /// Something where it is a null.
    pub fn as_null(&self) -> Option<()>
        ensures { result ≡ null_of (document_view self.now) }
    {
        if let Document::Null = self {
            Some(())
        } else {
            None
        }
    }

    /// Whether it is an object.
    pub fn is_object(&self) -> bool
        ensures { result ≡ is_some (properties_of (document_view self.now)) }
    {
        self.as_object().is_some()
    }

    /// Whether it is an array.
    pub fn is_array(&self) -> bool
        ensures { result ≡ is_some (elements_of (document_view self.now)) }
    {
        self.as_array().is_some()
    }

    /// Whether it is a number.
    pub fn is_number(&self) -> bool
        ensures { result ≡ is_some (number_of (document_view self.now)) }
    {
        self.as_number().is_some()
    }

    /// Whether it is a text.
    pub fn is_string(&self) -> bool
        ensures { result ≡ is_some (text_of (document_view self.now)) }
    {
        self.as_string().is_some()
    }

    /// Whether it is a truth value.
    pub fn is_bool(&self) -> bool
        ensures { result ≡ is_some (boolean_of (document_view self.now)) }
    {
        self.as_bool().is_some()
    }

    /// Whether it is a null.
    pub fn is_null(&self) -> bool
        ensures { result ≡ is_some (null_of (document_view self.now)) }
    {
        self.as_null().is_some()
    }

    /// An equal document, in memory of its own.
    pub fn clone_in(&self, alloc: Global) -> Result<Document, AllocError>
        ensures { IfOk result (λ d. document_view d ≡ document_view self.now) }
    {
        copy(alloc, self)
    }
}

#[cycle(copy)]
fn copy(alloc: Global, document: &Document) -> Result<Document, AllocError>
    ensures { IfOk result (λ d. document_view d ≡ document_view document.now) }
{
    match document {
        Document::Object(object) => Ok(Document::Object(copy_properties(alloc, object)?)),
        Document::Array(array) => Ok(Document::Array(copy_elements(alloc, array)?)),
        Document::Number(number) => Ok(Document::Number(*number)),
        Document::String(text) => Ok(Document::String(String::from_str(alloc, text.as_str())?)),
        Document::Bool(value) => Ok(Document::Bool(*value)),
        Document::Null => Ok(Document::Null),
    }
}

#[cycle(copy)]
fn copy_elements(alloc: Global, array: &Vec<Document>) -> Result<Vec<Document>, AllocError>
    ensures { IfOk result (λ v. elements_view v.items ≡ elements_view array.now.items) }
{
    let mut copies = Vec::with_capacity(alloc, array.len())?;
    for element in array {
        copies.push(copy(alloc, element)?)?;
    }
    Ok(copies)
}

#[cycle(copy)]
fn copy_properties(
    alloc: Global,
    object: &BTreeMap<String, Document>,
) -> Result<BTreeMap<String, Document>, AllocError>
    ensures { IfOk result (λ m. properties_view m.entries ≡ properties_view object.now.entries) }
{
    let mut copies = BTreeMap::new(alloc);
    for (name, property) in object.iter() {
        let name = String::from_str(alloc, name.as_str())?;
        drop(copies.insert(name, copy(alloc, property)?)?);
    }
    Ok(copies)
}

impl Default for Document {
    ghost use Rattle.smithy_types.specs.DocumentView.{document_view};

    ghost is_default = { λ d. document_view d ≡ null };

    fn default() -> Document {
        Document::Null
    }
}
