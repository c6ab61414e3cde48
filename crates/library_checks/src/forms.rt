//! Forms that the writers write, as a caller writes them who proves nothing of his own.

use smithy_query::{QueryListWriter, QueryMapWriter, QueryValueWriter, QueryWriter};
use smithy_types::{DateTime, DateTimeFormatError, Format, Number};
use std::alloc::{AllocError, Global};
use std::borrow::CowStr;

// A list of three elements and a flat map of two entries.
fn write_list_and_map(form: &mut QueryWriter<'_>) -> Result<(), AllocError> {
    let mut list = form.prefix("ItemList").start_list(false, Some("item"));
    list.entry()?.string("foo")?;
    list.entry()?.string("")?;
    list.entry()?.string("baz")?;
    list.finish()?;
    let mut map = form.prefix("Tags").start_map(true, "key", "value");
    map.entry("bar")?.string("Bar")?;
    map.entry("foo")?.string("Foo")?;
    map.finish();
    Ok(())
}

// A list with an element for each text.
fn write_texts(form: &mut QueryWriter<'_>, texts: &[&str]) -> Result<(), AllocError> {
    let mut list = form.prefix("L").start_list(false, None);
    for text in texts {
        list.entry()?.string(text)?;
    }
    list.finish()
}

pub fn writes_lists_and_maps(alloc: Global) -> Result<String, AllocError> {
    let mut text = String::new(alloc);
    let mut form = QueryWriter::new(&mut text, "Some Action", "1 2")?;
    write_list_and_map(&mut form)?;
    write_texts(&mut form, &["a", "b c", "d"])?;
    form.finish();
    Ok(text)
}

// The writer of a value under a name.
fn value<'a>(text: &'a mut String, name: &'a str) -> QueryValueWriter<'a> {
    QueryValueWriter::new(text, CowStr::Borrowed(name))
}

fn write_scalars(text: &mut String) -> Result<(), AllocError> {
    value(text, "a").boolean(true)?;
    value(text, "a").number(Number::PosInt(5))?;
    value(text, "a").number(Number::NegInt(-9_223_372_036_854_775_808))
}

// 2021-05-24T15:34:50.123Z and a year after 9999, which only seconds can tell.
fn write_instants(text: &mut String) -> Result<(), DateTimeFormatError> {
    let instant = DateTime::from_millis(1_621_870_490_123);
    value(text, "d").date_time(&instant, Format::DateTime)?;
    let far = DateTime::from_secs(253_402_300_800);
    match value(text, "b").date_time(&far, Format::HttpDate) {
        Err(DateTimeFormatError::OutOfRange) => {
            value(text, "c").date_time(&far, Format::EpochSeconds)
        }
        other => other,
    }
}

// Every byte of the action needs an escape, and the version is empty.
pub fn writes_values(alloc: Global) -> Option<String> {
    let mut text = String::new(alloc);
    let action = "\u{0}+&=%\u{7f}\u{e9}/\u{1f600}";
    QueryWriter::new(&mut text, action, "").ok()?.finish();
    write_scalars(&mut text).ok()?;
    write_instants(&mut text).ok()?;
    Some(text)
}

// Two elements, the second of which tells its own index.
fn write_elements(list: &mut QueryListWriter<'_>) -> Result<(), AllocError> {
    list.entry()?.string("x")?;
    let index = list.next_index();
    list.entry()?.number(Number::PosInt(index as u64))
}

// A flat list, and an entry that tells its own index.
fn write_entries(map: &mut QueryMapWriter<'_>) -> Result<(), AllocError> {
    let mut list = map.entry("k")?.start_list(true, Some("ignored"));
    write_elements(&mut list)?;
    list.finish()?;
    let index = map.next_index();
    map.entry("+")?.number(Number::PosInt(index as u64))
}

// A map, and an element that tells its own index.
fn write_list(list: &mut QueryListWriter<'_>) -> Result<(), AllocError> {
    let mut map = list.entry()?.start_map(false, "K", "V");
    write_entries(&mut map)?;
    map.finish();
    let index = list.next_index();
    list.entry()?.number(Number::PosInt(index as u64))
}

// A list within a map within a list, under a path that the writer owns.
pub fn writes_under_longer_paths(alloc: Global) -> Result<String, AllocError> {
    let mut text = String::new(alloc);
    let path = "p".to_string(alloc)?;
    let mut value = QueryValueWriter::new(&mut text, CowStr::Owned(path));
    let mut list = value.prefix("q")?.start_list(false, None);
    write_list(&mut list)?;
    list.finish()?;
    drop(value);
    Ok(text)
}

fn write_empty(text: &mut String) -> Result<(), AllocError> {
    let mut list = value(text, "l").start_list(true, Some("item"));
    list.entry()?.start_map(false, "K", "V").finish();
    list.finish()?;
    value(text, "m").start_list(false, Some("item")).finish()
}

// Lists without entries, and a map without one.
pub fn writes_empty_lists_and_maps(alloc: Global) -> Result<String, AllocError> {
    let mut text = String::new(alloc);
    write_empty(&mut text)?;
    Ok(text)
}
