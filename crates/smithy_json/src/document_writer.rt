//! Writing documents as values.

ghost use Rattle.std.specs.Prelude.{◌≡◌, ◌++◌, [], string_bytes, OnOk, OnErr};
ghost use Rattle.smithy_types.specs.Document.{array, object};
ghost use Rattle.smithy_types.specs.DocumentView.{document_view, elements_view, properties_view};
ghost use Rattle.smithy_types.specs.PrimitiveText.{boolean_text};
ghost use Rattle.smithy_json.specs.Appending.{AddsFront};
ghost use Rattle.smithy_json.specs.DocumentText.{document_text, elements_text, properties_text};
ghost use Rattle.smithy_json.specs.Escape.{quoted};
ghost use Rattle.smithy_json.specs.ValueTexts.{name_text, number_text};
ghost use Rattle.smithy_json.specs.Writer.{value_text};

use crate::escape::push_escaped;
use crate::writer::JsonValueWriter;
use itoa::Buffer;
use smithy_texts::AppendText;
use smithy_types::{Document, Number};
use std::alloc::AllocError;
use std::collections::BTreeMap;

/// Adds the text of a document: no blanks, names in the order of their bytes, whole numbers in decimal.
/// After a refusal a front of it stands behind what was there.
///
/// It takes room on the stack for each level of the document.
#[cycle(document)]
pub fn push_document<T: AppendText>(out: &mut T, document: &Document) -> Result<(), AllocError>
    ensures ok { OnOk result (T.bytes out.new ≡ T.bytes out.old ++ document_text (document_view document.now)) }
    ensures err { OnErr result (AddsFront (T.bytes out.old) (document_text (document_view document.now)) (T.bytes out.new)) }
{
    match document {
        Document::Object(object) => push_object(out, object),
        Document::Array(array) => push_array(out, array),
        Document::Number(number) => push_number(out, *number),
        Document::String(text) => push_string(out, text.as_str()),
        Document::Bool(value) => out.append_text(boolean_text(*value)),
        Document::Null => out.append_text("null"),
    }
}

#[cycle(document)]
fn push_array<T: AppendText>(out: &mut T, elements: &[Document]) -> Result<(), AllocError>
    ensures ok { OnOk result (T.bytes out.new ≡ T.bytes out.old ++ document_text (array (elements_view elements.now))) }
    ensures err { OnErr result (AddsFront (T.bytes out.old) (document_text (array (elements_view elements.now))) (T.bytes out.new)) }
{
    out.append_text("[")?;
    push_elements(out, elements)?;
    out.append_text("]")
}

#[cycle(document)]
fn push_elements<T: AppendText>(out: &mut T, elements: &[Document]) -> Result<(), AllocError>
    ensures ok { OnOk result (T.bytes out.new ≡ T.bytes out.old ++ elements_text [] (elements_view elements.now)) }
    ensures err { OnErr result (AddsFront (T.bytes out.old) (elements_text [] (elements_view elements.now)) (T.bytes out.new)) }
{
    let mut parting = "";
    for element in elements {
        out.append_text(parting)?;
        push_document(out, element)?;
        parting = ",";
    }
    Ok(())
}

#[cycle(document)]
fn push_object<T: AppendText>(
    out: &mut T,
    properties: &BTreeMap<String, Document>,
) -> Result<(), AllocError>
    ensures ok { OnOk result (T.bytes out.new ≡ T.bytes out.old ++ document_text (object (properties_view properties.now.entries))) }
    ensures err { OnErr result (AddsFront (T.bytes out.old) (document_text (object (properties_view properties.now.entries))) (T.bytes out.new)) }
{
    out.append_text("{")?;
    push_properties(out, properties)?;
    out.append_text("}")
}

#[cycle(document)]
fn push_properties<T: AppendText>(
    out: &mut T,
    properties: &BTreeMap<String, Document>,
) -> Result<(), AllocError>
    ensures ok { OnOk result (T.bytes out.new ≡ T.bytes out.old ++ properties_text [] (properties_view properties.now.entries)) }
    ensures err { OnErr result (AddsFront (T.bytes out.old) (properties_text [] (properties_view properties.now.entries)) (T.bytes out.new)) }
{
    let mut parting = "";
    for (name, property) in properties {
        push_name(out, parting, name.as_str())?;
        push_document(out, property)?;
        parting = ",";
    }
    Ok(())
}

// A name and a colon, behind what parts it from what was before.
fn push_name<T: AppendText>(out: &mut T, parting: &str, name: &str) -> Result<(), AllocError>
    ensures ok { OnOk result (T.bytes out.new ≡ T.bytes out.old ++ (parting.now ++ name_text name.now)) }
    ensures err { OnErr result (AddsFront (T.bytes out.old) (parting.now ++ name_text name.now) (T.bytes out.new)) }
{
    out.append_text(parting)?;
    push_string(out, name)?;
    out.append_text(":")
}

fn push_string<T: AppendText>(out: &mut T, text: &str) -> Result<(), AllocError>
    ensures ok { OnOk result (T.bytes out.new ≡ T.bytes out.old ++ quoted text.now) }
    ensures err { OnErr result (AddsFront (T.bytes out.old) (quoted text.now) (T.bytes out.new)) }
{
    out.append_text("\"")?;
    push_escaped(out, text)?;
    out.append_text("\"")
}

// Adds a whole number in decimal.
pub(crate) fn push_number<T: AppendText>(out: &mut T, number: Number) -> Result<(), AllocError>
    ensures ok { OnOk result (T.bytes out.new ≡ T.bytes out.old ++ number_text number) }
    ensures err { OnErr result (T.bytes out.new ≡ T.bytes out.old) }
{
    let mut buffer = Buffer::new();
    match number {
        Number::PosInt(n) => out.append_text(buffer.format(n)),
        Number::NegInt(n) => out.append_text(buffer.format(n)),
    }
}

fn boolean_text(value: bool) -> &'static str
    ensures { result.now ≡ boolean_text value }
{
    if value { "true" } else { "false" }
}

impl<'a> JsonValueWriter<'a> {
    /// Writes a document, as `push_document` does.
    pub fn document(self, value: &Document) -> Result<(), AllocError>
        ensures ok { OnOk result (string_bytes self.exit.0.now ≡ value_text self.entry ++ document_text (document_view value.now)) }
        // A write that is refused leaves what stood before, and behind it a front of the document's text.
        ensures err { OnErr result (AddsFront (value_text self.entry) (document_text (document_view value.now)) (string_bytes self.exit.0.now)) }
    {
        push_document(self.output, value)
    }
}
