//! Documents: parts that are handed out and changed, copies, the contract of taking one from tokens, and one that no text gives.

ghost use Rattle.std.specs.Prelude.{◌≡◌, ◌≤◌, ℕ, Some};
ghost use Rattle.smithy_types.specs.Document as plain;
ghost use Rattle.smithy_types.specs.declared.number.Number as number;
ghost use Rattle.smithy_json_grammar.specs.Grammar.{IsJsonText};
ghost use Rattle.smithy_json_grammar.specs.Tree.{Json};
ghost use Rattle.smithy_json.specs.DocumentMeaning.{document_meaning};
ghost use Rattle.smithy_json_tokens.specs.DocumentSteps.{IsDocument};

use smithy_json_codec::JsonCodec;
use smithy_json_tokens::{
    DeserializeError, DeserializeErrorKind, expect_document, json_token_iter,
};
use smithy_schema::{FinishSerializer, ShapeSerializer, Shapes, TableText};
use smithy_types::{Document, Number};
use std::alloc::{AllocError, Global};
use std::collections::BTreeMap;

// Adds a property under a name that isn't there yet.
fn add_property(
    alloc: Global,
    properties: &mut BTreeMap<String, Document>,
    name: &str,
    document: Document,
) -> Result<(), AllocError> {
    drop(properties.insert(name.to_string(alloc)?, document)?);
    Ok(())
}

// `[true,null,-5]`
fn elements(alloc: Global) -> Result<Vec<Document>, AllocError> {
    let mut elements = Vec::new(alloc);
    elements.push(Document::from(true))?;
    elements.push(Document::default())?;
    elements.push(Document::from(-5_i32))?;
    Ok(elements)
}

// `{"a":[true,null,-5],"b":"é"}`
fn sample(alloc: Global) -> Result<Document, AllocError> {
    let mut properties = BTreeMap::new(alloc);
    add_property(
        alloc,
        &mut properties,
        "a",
        Document::from(elements(alloc)?),
    )?;
    let text = "é".to_string(alloc)?;
    add_property(alloc, &mut properties, "b", Document::from(text))?;
    Ok(Document::from(properties))
}

/// The document of a text, which is the one that it means, or want of memory.
pub fn document_of(alloc: Global, input: &[u8]) -> Result<Document, DeserializeError>
    ensures { (tree : Json) (greatest : ℕ) (d : plain.Document number.Number) → greatest ≤ 256 → IsJsonText tree input.now → document_meaning (Some greatest) 0 tree ≡ Some d → IsDocument d result }
{
    match json_token_iter(alloc, input) {
        Ok(mut tokens) => expect_document(alloc, &mut tokens),
        Err(_) => Err(DeserializeError {
            kind: DeserializeErrorKind::NoMemory,
            offset: None,
        }),
    }
}

pub fn a_text_makes_the_document_that_it_means(alloc: Global) -> Result<bool, AllocError> {
    let text = "{\"b\":\"é\",\"a\":[true,null,-5]}";
    let made = document_of(alloc, text.as_bytes()).ok();
    Ok(made == Some(sample(alloc)?))
}

fn length_of(document: &Document) -> Option<usize> {
    Some(document.as_object()?.len())
}

// The text of the property `b`.
fn text_of(document: &Document) -> Option<&str> {
    document.as_object()?.get("b")?.as_string()
}

// The elements of the property `a`.
fn elements_of(document: &Document) -> Option<&[Document]> {
    Some(document.as_object()?.get("a")?.as_array()?.as_slice())
}

// Whether these are the elements of the sample.
fn are_true_null_and_minus_five(elements: &[Document]) -> bool {
    let [first, second, third] = elements else {
        return false;
    };
    first.as_bool() == Some(true)
        && second.as_null() == Some(())
        && third.as_number() == Some(&Number::NegInt(-5))
}

pub fn a_document_hands_out_its_parts(alloc: Global) -> Result<bool, AllocError> {
    let document = sample(alloc)?;
    let elements = elements_of(&document).unwrap_or(&[]);
    Ok(
        length_of(&document) == Some(2)
            && text_of(&document) == Some("é")
            && are_true_null_and_minus_five(elements),
    )
}

fn holds(document: Document, number: Number) -> bool {
    document.as_number() == Some(&number)
}

pub fn numbers_keep_their_variant() -> bool {
    holds(Document::from(5_u64), Number::PosInt(5))
        && holds(Document::from(5_i64), Number::NegInt(5))
        && holds(Document::from(-5_i32), Number::NegInt(-5))
        && holds(Document::from(Number::PosInt(7)), Number::PosInt(7))
        && holds(Document::from(Some(5_u64)), Number::PosInt(5))
        && Document::from(5_u64) != Document::from(5_i64)
        && Document::from(Option::<bool>::None).is_null()
}

// Adds an element to the property `a`, and tells whether that is no object.
fn push_element(document: &mut Document) -> Option<bool> {
    let inner = document.as_object_mut()?.get_mut("a")?;
    let elements = inner.as_array_mut()?;
    elements.push(Document::from(1_u64)).ok()?;
    Some(inner.as_object_mut().is_none())
}

// Whether a document that an element was added to has it, and isn't the same as its copy from before.
fn is_changed(document: &Document, copy: &Document) -> bool {
    elements_of(document).unwrap_or(&[]).len() == 4 && copy != document
}

pub fn parts_are_changed_in_place_and_not_in_a_copy(alloc: Global) -> Option<bool> {
    let mut document = sample(alloc).ok()?;
    let copy = document.clone_in(alloc).ok()?;
    let is_same = copy == document;
    let is_no_object = push_element(&mut document)?;
    Some(is_same && is_no_object && is_changed(&document, &copy))
}

pub fn a_null_has_no_elements() -> bool {
    Document::default().as_array_mut().is_none()
}

// `{"m":null,"n":5}`, with a number whose variant isn't the one that its text is read in.
fn of_two_properties(alloc: Global) -> Result<Document, AllocError> {
    let mut properties = BTreeMap::new(alloc);
    let number = Document::Number(Number::NegInt(5));
    add_property(alloc, &mut properties, "n", number)?;
    add_property(alloc, &mut properties, "m", Document::Null)?;
    Ok(Document::Object(properties))
}

// The body of a document under JSON.
fn body_of(alloc: Global, document: &Document) -> Option<Vec<u8>> {
    let table = TableText::read(alloc, b"structure S\n").ok()?;
    let shapes = Shapes::build(alloc, table).ok()?;
    let root = shapes.find("S")?;
    let mut sink = JsonCodec::strict(false).create_serializer(alloc);
    sink.write_document(&shapes.schema(root), document).ok()?;
    sink.finish().ok()
}

pub fn a_document_is_written_by_its_whole_numbers(alloc: Global) -> Option<bool> {
    let document = of_two_properties(alloc).ok()?;
    let body = body_of(alloc, &document)?;
    Some(body.as_slice() == b"{\"m\":null,\"n\":5}".as_slice())
}
