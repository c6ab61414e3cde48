//! Writers of JSON texts. Each call adds its bytes to the end of a text.

ghost use Rattle.std.specs.Prelude.{◌≡◌, ◌++◌, ◌∷◌, [], length, take, codes, string_bytes, string_len, OnOk, OnErr, IfOk, Ok};
ghost use Rattle.std.specs.Borrow.{sem};
ghost use Rattle.smithy_json_grammar.specs.Ascii.{quotation_mark};
ghost use Rattle.smithy_json.specs.Escape.{escaped, quoted};
ghost use Rattle.smithy_json_grammar.specs.Unescape.{unescape};
ghost use Rattle.smithy_types.specs.PrimitiveText.{boolean_text};
ghost use Rattle.smithy_json.specs.ValueTexts.{name_text};
ghost use Rattle.smithy_json.specs.Writer.{separator, value_text, value_borrow, array_text, object_text, before_element, before_member, seen_array, seen_object, Begins, AddsTo, RestsWithoutArray, RestsWithoutObject, ValueRestsWithoutArray, ValueRestsWithoutObject, LendsArrayText, LendsObjectText, LendsElement, LendsMember};
ghost use Rattle.smithy_json.specs.Private.Place.{text_borrow, writer_of};

use crate::escape::push_escaped;
use std::alloc::{AllocError, Global};

/// A place for one value.
#[derive(Drop)]
pub struct JsonValueWriter<'a> {
    pub(crate) output: &'a mut String,
}

impl<'a> JsonValueWriter<'a> {
    /// A place at the end of the text.
    pub fn new(output: &'a mut String) -> JsonValueWriter<'a>
        ensures same_borrow { value_borrow result ≡ output.entry.ghost_name }
        ensures value { value_text result ≡ string_bytes output.old }
    {
        JsonValueWriter { output }
    }

    // Where the text takes memory from.
    pub(crate) fn allocator(&self) -> Global {
        *self.output.allocator()
    }

    /// Writes `null`.
    pub fn null(self) -> Result<(), AllocError>
        ensures ok { OnOk result (string_bytes self.exit.0.now ≡ value_text self.entry ++ codes "null") }
        ensures err { OnErr result (string_bytes self.exit.0.now ≡ value_text self.entry) }
    {
        self.output.push_str("null")
    }

    /// Writes `true` or `false`.
    pub fn boolean(self, value: bool) -> Result<(), AllocError>
        ensures ok { OnOk result (string_bytes self.exit.0.now ≡ value_text self.entry ++ boolean_text value) }
        ensures err { OnErr result (string_bytes self.exit.0.now ≡ value_text self.entry) }
    {
        self.output.push_str(if value { "true" } else { "false" })
    }

    /// Writes a string with the escapes that it needs.
    pub fn string(self, value: &str) -> Result<(), AllocError>
        ensures ok { OnOk result (string_bytes self.exit.0.now ≡ value_text self.entry ++ quoted value.now) }
        ensures err { OnErr result (string_bytes self.exit.0.now ≡ value_text self.entry) }
        // What stands between the quotation marks stands for the text.
        ensures unescapes { unescape (escaped value.now) ≡ Ok value.now }
    {
        push_quoted(self.output, value)
    }

    /// Writes a string as it is. The caller's condition is that nothing in it needs an escape.
    pub fn string_unchecked(self, value: &str) -> Result<(), AllocError>
        requires { escaped value.now ≡ value.now }
        ensures ok { OnOk result (string_bytes self.exit.0.now ≡ value_text self.entry ++ quoted value.now) }
        ensures err { OnErr result (string_bytes self.exit.0.now ≡ value_text self.entry) }
    {
        push_between_marks(self.output, value)
    }

    /// Writes a text that is a value of JSON itself.
    pub fn write_raw_value(self, value: &str) -> Result<(), AllocError>
        ensures ok { OnOk result (string_bytes self.exit.0.now ≡ value_text self.entry ++ value.now) }
        ensures err { OnErr result (string_bytes self.exit.0.now ≡ value_text self.entry) }
    {
        self.output.push_str(value)
    }

    /// Begins an array.
    pub fn start_array(self) -> Result<JsonArrayWriter<'a>, AllocError>
        ensures* rests { sem 𝓛 (ValueRestsWithoutArray self.entry result) }
        ensures begins { Begins seen_array (value_borrow self.entry) (value_text self.entry) (codes "[") result }
    {
        let JsonValueWriter { output } = self;
        JsonArrayWriter::new(output)
    }

    /// Begins an object.
    pub fn start_object(self) -> Result<JsonObjectWriter<'a>, AllocError>
        ensures* rests { sem 𝓛 (ValueRestsWithoutObject self.entry result) }
        ensures begins { Begins seen_object (value_borrow self.entry) (value_text self.entry) (codes "{") result }
    {
        let JsonValueWriter { output } = self;
        JsonObjectWriter::new(output)
    }
}

// A place at the end of the text, where there is one.
fn value_writer(text: Result<&mut String, AllocError>) -> Result<JsonValueWriter<'_>, AllocError>
    ensures { result ≡ writer_of text.entry }
{
    Ok(JsonValueWriter { output: text? })
}

/// An array that has begun.
#[derive(Drop)]
pub struct JsonArrayWriter<'a> {
    json: &'a mut String,
    // the offset in the text behind the array's opening bracket
    start: usize,
}

impl<'a> JsonArrayWriter<'a> {
    /// Begins an array at the end of the text.
    pub fn new(output: &'a mut String) -> Result<JsonArrayWriter<'a>, AllocError>
        ensures* rests { sem 𝓛 (RestsWithoutArray output.entry result) }
        ensures begins { Begins seen_array output.entry.ghost_name (string_bytes output.old) (codes "[") result }
    {
        output.push_str("[")?;
        let start = output.len();
        Ok(JsonArrayWriter {
            json: output,
            start,
        })
    }

    /// A place for the next element, behind a comma unless it is the first. The array's text goes on
    /// with what is written there. It is `begin_value` and then `place`.
    pub fn value(&mut self) -> Result<JsonValueWriter<'_>, AllocError>
        ensures* lends { sem 𝓛 (LendsElement self.entry value_borrow result) }
        ensures value { IfOk result (λ w. value_text w ≡ array_text self.old ++ before_element self.old) }
    {
        value_writer(self.element_text())
    }

    // The text, behind the comma before the next element.
    fn element_text(&mut self) -> Result<&mut String, AllocError>
        ensures* lends { sem 𝓛 (LendsElement self.entry text_borrow result) }
        ensures value { IfOk result (λ text. string_bytes text.now ≡ array_text self.old ++ before_element self.old) }
    {
        push_separator(self.json, self.start)?;
        Ok(self.json)
    }

    /// Adds the comma before the next element, unless it is the first.
    pub fn begin_value(&mut self) -> Result<(), AllocError>
        ensures { AddsTo seen_array (before_element self.old) self.old result self.new }
    {
        push_separator(self.json, self.start)
    }

    /// A place at the end of the array's text.
    pub fn place(&mut self) -> JsonValueWriter<'_>
        ensures* lends { sem 𝓛 (LendsArrayText self.entry (value_borrow result)) }
        ensures value { value_text result ≡ array_text self.old }
    {
        JsonValueWriter::new(self.text())
    }

    fn text(&mut self) -> &mut String
        ensures* lends { sem 𝓛 (LendsArrayText self.entry result.ghost_name) }
        ensures value { string_bytes result.now ≡ array_text self.old }
    {
        self.json
    }

    /// Ends the array.
    pub fn finish(self) -> Result<(), AllocError>
        ensures ok { OnOk result (string_bytes self.exit.0.now ≡ array_text self.entry ++ codes "]") }
        ensures err { OnErr result (string_bytes self.exit.0.now ≡ array_text self.entry) }
    {
        self.json.push_str("]")
    }
}

/// An object that has begun.
#[derive(Drop)]
pub struct JsonObjectWriter<'a> {
    json: &'a mut String,
    // the offset in the text behind the object's opening bracket
    start: usize,
}

impl<'a> JsonObjectWriter<'a> {
    /// Begins an object at the end of the text.
    pub fn new(output: &'a mut String) -> Result<JsonObjectWriter<'a>, AllocError>
        ensures* rests { sem 𝓛 (RestsWithoutObject output.entry result) }
        ensures begins { Begins seen_object output.entry.ghost_name (string_bytes output.old) (codes "{") result }
    {
        output.push_str("{")?;
        let start = output.len();
        Ok(JsonObjectWriter {
            json: output,
            start,
        })
    }

    /// A place for the value of the next member, behind its name and a comma unless it is the first.
    /// The object's text goes on with what is written there. It is `begin_member` and then `place`.
    pub fn key(&mut self, key: &str) -> Result<JsonValueWriter<'_>, AllocError>
        ensures* lends { sem 𝓛 (LendsMember self.entry value_borrow result) }
        ensures value { IfOk result (λ w. value_text w ≡ object_text self.old ++ before_member key.now self.old) }
    {
        value_writer(self.member_text(key))
    }

    // The text, behind what stands before the next member's value.
    fn member_text(&mut self, key: &str) -> Result<&mut String, AllocError>
        ensures* lends { sem 𝓛 (LendsMember self.entry text_borrow result) }
        ensures value { IfOk result (λ text. string_bytes text.now ≡ object_text self.old ++ before_member key.now self.old) }
    {
        push_name(self.json, self.start, key)?;
        Ok(self.json)
    }

    /// Adds what stands before the next member's value: a comma unless it is the first, its name and a
    /// colon.
    pub fn begin_member(&mut self, key: &str) -> Result<(), AllocError>
        ensures { AddsTo seen_object (before_member key.now self.old) self.old result self.new }
    {
        push_name(self.json, self.start, key)
    }

    /// A place at the end of the object's text.
    pub fn place(&mut self) -> JsonValueWriter<'_>
        ensures* lends { sem 𝓛 (LendsObjectText self.entry (value_borrow result)) }
        ensures value { value_text result ≡ object_text self.old }
    {
        JsonValueWriter::new(self.text())
    }

    fn text(&mut self) -> &mut String
        ensures* lends { sem 𝓛 (LendsObjectText self.entry result.ghost_name) }
        ensures value { string_bytes result.now ≡ object_text self.old }
    {
        self.json
    }

    /// Ends the object.
    pub fn finish(self) -> Result<(), AllocError>
        ensures ok { OnOk result (string_bytes self.exit.0.now ≡ object_text self.entry ++ codes "}") }
        ensures err { OnErr result (string_bytes self.exit.0.now ≡ object_text self.entry) }
    {
        self.json.push_str("}")
    }
}

// Adds the comma before a member or an element, unless it is the first behind the start.
fn push_separator(out: &mut String, start: usize) -> Result<(), AllocError>
    ensures ok { OnOk result (string_bytes out.new ≡ string_bytes out.old ++ separator start (string_bytes out.old)) }
    ensures err { OnErr result (string_bytes out.new ≡ string_bytes out.old) }
{
    if start < out.len() {
        out.push_str(",")
    } else {
        Ok(())
    }
}

// Adds a text as a string, with the escapes that it needs.
#[tactic(auto, using(crate::proofs::EscapeLemmas::unescape_of_escaped))]
fn push_quoted(out: &mut String, value: &str) -> Result<(), AllocError>
    ensures ok { OnOk result (string_bytes out.new ≡ string_bytes out.old ++ quoted value.now) }
    ensures err { OnErr result (string_bytes out.new ≡ string_bytes out.old) }
    // What stands between the quotation marks stands for the text.
    ensures unescapes { unescape (escaped value.now) ≡ Ok value.now }
{
    let length = out.len();
    let done = append_quoted(out, value);
    if done.is_err() {
        out.truncate(length);
    }
    done
}

fn append_quoted(out: &mut String, value: &str) -> Result<(), AllocError>
    ensures ok { OnOk result (string_bytes out.new ≡ string_bytes out.old ++ quoted value.now) }
    ensures front { take (length (string_bytes out.old)) (string_bytes out.new) ≡ string_bytes out.old }
{
    out.push_str("\"")?;
    push_escaped(out, value)?;
    out.push_str("\"")
}

// Adds a text that needs no escapes as a string.
fn push_between_marks(out: &mut String, value: &str) -> Result<(), AllocError>
    ensures ok { OnOk result (string_bytes out.new ≡ string_bytes out.old ++ quotation_mark ∷ (value.now ++ quotation_mark ∷ [])) }
    ensures err { OnErr result (string_bytes out.new ≡ string_bytes out.old) }
{
    let length = out.len();
    let done = append_between_marks(out, value);
    if done.is_err() {
        out.truncate(length);
    }
    done
}

fn append_between_marks(out: &mut String, value: &str) -> Result<(), AllocError>
    ensures ok { OnOk result (string_bytes out.new ≡ string_bytes out.old ++ quotation_mark ∷ (value.now ++ quotation_mark ∷ [])) }
    ensures front { take (length (string_bytes out.old)) (string_bytes out.new) ≡ string_bytes out.old }
{
    out.push_str("\"")?;
    out.push_str(value)?;
    out.push_str("\"")
}

// Adds what stands before a member's value: the comma, unless it is the first behind the start, the
// name and a colon.
fn push_name(out: &mut String, start: usize, name: &str) -> Result<(), AllocError>
    ensures ok { OnOk result (string_bytes out.new ≡ string_bytes out.old ++ (separator start (string_bytes out.old) ++ name_text name.now)) }
    ensures err { OnErr result (string_bytes out.new ≡ string_bytes out.old) }
{
    let length = out.len();
    let done = append_name(out, start, name);
    if done.is_err() {
        out.truncate(length);
    }
    done
}

fn append_name(out: &mut String, start: usize, name: &str) -> Result<(), AllocError>
    ensures ok { OnOk result (string_bytes out.new ≡ string_bytes out.old ++ (separator start (string_bytes out.old) ++ name_text name.now)) }
    ensures front { take (length (string_bytes out.old)) (string_bytes out.new) ≡ string_bytes out.old }
{
    push_separator(out, start)?;
    append_quoted(out, name)?;
    out.push_str(":")
}
