//! Writers of arrays and objects, which lend themselves to the writers of their values, and a text that is refused in the middle.

ghost use Rattle.std.specs.Prelude.{string_bytes};

use crate::documents::document_of;
use smithy_json::{JsonArrayWriter, JsonObjectWriter, JsonValueWriter, push_document};
use smithy_texts::AppendText;
use smithy_types::{DateTime, Number};
use std::alloc::{AllocError, Global};
use std::fmt;
use std::fmt::Write;

fn write_elements(array: &mut JsonArrayWriter<'_>) -> Result<(), AllocError> {
    array.value()?.boolean(true)?;
    array.value()?.null()
}

fn write_members(object: &mut JsonObjectWriter<'_>) -> Result<(), AllocError> {
    object.key("a")?.write_raw_value("1")?;
    let mut array = object.key("b")?.start_array()?;
    write_elements(&mut array)?;
    array.finish()?;
    object.key("c")?.number(Number::PosInt(1))?;
    object.key("d")?.string("\\")
}

pub fn an_object_is_written(alloc: Global) -> Result<String, AllocError> {
    let mut text = String::new(alloc);
    let mut object = JsonObjectWriter::new(&mut text)?;
    write_members(&mut object)?;
    object.finish()?;
    Ok(text)
}

fn write_other_elements(array: &mut JsonArrayWriter<'_>) -> Result<(), AllocError> {
    array.value()?.string("a\n")?;
    array.value()?.boolean(false)?;
    array.value()?.start_object()?.finish()
}

pub fn an_array_is_written(alloc: Global) -> Result<String, AllocError> {
    let mut text = String::new(alloc);
    let mut array = JsonArrayWriter::new(&mut text)?;
    write_other_elements(&mut array)?;
    array.finish()?;
    JsonValueWriter::new(&mut text).write_raw_value(" ")?;
    Ok(text)
}

fn write_members_at_places(object: &mut JsonObjectWriter<'_>) -> Result<(), AllocError> {
    object.begin_member("b")?;
    object.place().boolean(true)?;
    object.begin_member("\"")?;
    object.place().string("c")
}

fn write_elements_at_places(array: &mut JsonArrayWriter<'_>) -> Result<(), AllocError> {
    array.begin_value()?;
    array.place().string_unchecked("a")?;
    array.begin_value()?;
    array.place().null()?;
    let mut object = array.value()?.start_object()?;
    write_members_at_places(&mut object)?;
    object.finish()
}

pub fn a_place_is_begun_and_then_taken(alloc: Global) -> Result<String, AllocError> {
    let mut text = String::new(alloc);
    let mut array = JsonArrayWriter::new(&mut text)?;
    write_elements_at_places(&mut array)?;
    array.finish()?;
    Ok(text)
}

// A text that has room for so many bytes.
#[derive(Drop)]
struct Narrow {
    text: String,
    room: usize,
}

impl AppendText for Narrow {
    ghost bytes = { λ n. string_bytes n.text };

    fn append_text(&mut self, text: &str) -> Result<(), AllocError> {
        if self.room < text.len() {
            return Err(AllocError);
        }
        self.room -= text.len();
        self.text.push_str(text)
    }
}

impl fmt::Write for Narrow {
    fn write_str(&mut self, text: &str) -> fmt::Result {
        match self.append_text(text) {
            Ok(()) => Ok(()),
            Err(_) => Err(fmt::Error),
        }
    }
}

pub fn a_refused_document_leaves_a_front(alloc: Global) -> Option<String> {
    let document = document_of(alloc, b"{\"a\":[-5,7,true,\"\\n\"]}").ok()?;
    let mut narrow = Narrow {
        text: String::new(alloc),
        room: 10,
    };
    push_document(&mut narrow, &document).err()?;
    let Narrow { text, room: _ } = narrow;
    Some(text)
}

// The last piece of a date is its `Z`.
pub fn a_refused_instant_leaves_a_front(alloc: Global) -> Option<String> {
    let mut narrow = Narrow {
        text: String::new(alloc),
        room: 19,
    };
    narrow.write(DateTime::from_secs(0)).err()?;
    let Narrow { text, room: _ } = narrow;
    Some(text)
}
