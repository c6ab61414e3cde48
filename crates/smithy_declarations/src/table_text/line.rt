//! One line of the text of a table: its words, and what they say.
ghost use Rattle.std.specs.Prelude.{◌≡◌, ◌||◌, length, nat_le, option_map, bytes_eq, count_by, option_and_then, string_bytes, IfOk};
ghost use Rattle.std.specs.List.{list_all};
ghost use Rattle.smithy_declarations.specs.TableText.{given, first_given, text_of_option, gives_one, are_options, has_flag, members_line, member_line, list_line, map_line, line_of, line_said, words_of};
ghost use Rattle.smithy_declarations.specs.Decl.{structure, union};
ghost use Rattle.smithy_declarations.specs.Private.Words.{texts, said_of};

use crate::decl::{Decl, MemberDecl};
use std::alloc::{AllocError, Global};
use std::str;

/// What a line says.
#[derive(Drop)]
pub enum Line {
    /// One declaration more.
    Declares(Decl),
    /// One member more of the declaration before it.
    Adds(MemberDecl),
}

/// What a line says, if it is in UTF-8 and of one of the forms.
pub fn line_said(alloc: Global, line: &[u8]) -> Result<Option<Line>, AllocError>
    ensures { IfOk result (λ said. option_map said_of said ≡ line_said line.now) }
{
    let Ok(text) = str::from_utf8(line) else {
        return Ok(None);
    };
    match words_of(alloc, text)? {
        Some(words) => line_of(alloc, words.as_slice()),
        None => Ok(None),
    }
}

// The words, parted by single spaces: none where one is empty.
fn words_of(alloc: Global, text: &str) -> Result<Option<Vec<&str>>, AllocError>
    ensures { IfOk result (λ words. option_map (λ v. texts v.items) words ≡ words_of text.now) }
{
    let mut words = Vec::new(alloc);
    for word in text.split(' ') {
        if word.is_empty() {
            return Ok(None);
        }
        words.push(word)?;
    }
    Ok(Some(words))
}

// What the words of a line say.
fn line_of(alloc: Global, words: &[&str]) -> Result<Option<Line>, AllocError>
    ensures { IfOk result (λ said. option_map said_of said ≡ line_of (texts words.now)) }
{
    let [keyword, words @ ..] = words else {
        return Ok(None);
    };
    if *keyword == "structure" {
        structure_line(alloc, words)
    } else if *keyword == "union" {
        union_line(alloc, words)
    } else if *keyword == "member" {
        member_line(alloc, words)
    } else if *keyword == "list" {
        list_line(alloc, words)
    } else if *keyword == "map" {
        map_line(alloc, words)
    } else {
        Ok(None)
    }
}

// structure N
fn structure_line(alloc: Global, words: &[&str]) -> Result<Option<Line>, AllocError>
    ensures { IfOk result (λ said. option_map said_of said ≡ members_line structure (texts words.now)) }
{
    let [name] = words else {
        return Ok(None);
    };
    Ok(Some(Line::Declares(Decl::Structure {
        name: String::from_str(alloc, name)?,
        members: Vec::new(alloc),
    })))
}

// union N
fn union_line(alloc: Global, words: &[&str]) -> Result<Option<Line>, AllocError>
    ensures { IfOk result (λ said. option_map said_of said ≡ members_line union (texts words.now)) }
{
    let [name] = words else {
        return Ok(None);
    };
    Ok(Some(Line::Declares(Decl::Union {
        name: String::from_str(alloc, name)?,
        members: Vec::new(alloc),
    })))
}

// member NAME TARGET [json=J] [xml=X] [flat] [time=T]
fn member_line(alloc: Global, words: &[&str]) -> Result<Option<Line>, AllocError>
    ensures { IfOk result (λ said. option_map said_of said ≡ member_line (texts words.now)) }
{
    let [name, target, options @ ..] = words else {
        return Ok(None);
    };
    if !are_options(&["json=", "xml=", "time="], "flat", options) {
        return Ok(None);
    }
    Ok(Some(Line::Adds(MemberDecl {
        name: String::from_str(alloc, name)?,
        target: String::from_str(alloc, target)?,
        json: first_given(alloc, options, "json=")?,
        xml: first_given(alloc, options, "xml=")?,
        flat: has_flag(options, "flat"),
        time: first_given(alloc, options, "time=")?,
    })))
}

// list N TARGET [sparse] [xml=X] [time=T]
fn list_line(alloc: Global, words: &[&str]) -> Result<Option<Line>, AllocError>
    ensures { IfOk result (λ said. option_map said_of said ≡ list_line (texts words.now)) }
{
    let [name, target, options @ ..] = words else {
        return Ok(None);
    };
    if !are_options(&["xml=", "time="], "sparse", options) {
        return Ok(None);
    }
    Ok(Some(Line::Declares(Decl::List {
        name: String::from_str(alloc, name)?,
        target: String::from_str(alloc, target)?,
        sparse: has_flag(options, "sparse"),
        xml: first_given(alloc, options, "xml=")?,
        time: first_given(alloc, options, "time=")?,
    })))
}

// map N TARGET [sparse] [key=K] [value=V] [time=T]
fn map_line(alloc: Global, words: &[&str]) -> Result<Option<Line>, AllocError>
    ensures { IfOk result (λ said. option_map said_of said ≡ map_line (texts words.now)) }
{
    let [name, target, options @ ..] = words else {
        return Ok(None);
    };
    if !are_options(&["key=", "value=", "time="], "sparse", options) {
        return Ok(None);
    }
    Ok(Some(Line::Declares(Decl::Map {
        name: String::from_str(alloc, name)?,
        target: String::from_str(alloc, target)?,
        sparse: has_flag(options, "sparse"),
        key: first_given(alloc, options, "key=")?,
        value: first_given(alloc, options, "value=")?,
        time: first_given(alloc, options, "time=")?,
    })))
}

// Each word is the flag or one of the options, and each of them stands at most once.
fn are_options(names: &[&str], flag: &str, words: &[&str]) -> bool
    ensures { result ≡ are_options (texts names.now) flag.now (texts words.now) }
{
    is_each_an_option(names, flag, words)
        && is_each_given_once(names, words)
        && count_equal(words, flag) <= 1
}

// Each word is the flag or one of the options.
fn is_each_an_option(names: &[&str], flag: &str, words: &[&str]) -> bool
    ensures { result ≡ list_all (λ word. bytes_eq word flag.now || gives_one (texts names.now) word) (texts words.now) }
{
    for word in words {
        if *word != flag && !gives_one(names, word) {
            return false;
        }
    }
    true
}

// The word is one of the options.
fn gives_one(names: &[&str], word: &str) -> bool
    ensures { result ≡ gives_one (texts names.now) word.now }
{
    for name in names {
        if text_of_option(name, word).is_some() {
            return true;
        }
    }
    false
}

// The words give none of the options twice.
fn is_each_given_once(names: &[&str], words: &[&str]) -> bool
    ensures { result ≡ list_all (λ name. nat_le (length (given (texts words.now) name)) 1) (texts names.now) }
{
    for name in names {
        if count_given(words, name) > 1 {
            return false;
        }
    }
    true
}

// How many of the words give the option.
fn count_given(words: &[&str], name: &str) -> usize
    ensures { result ≡ length (given (texts words.now) name.now) }
{
    let mut count = 0;
    for word in words {
        if text_of_option(name, word).is_some() {
            count += 1;
        }
    }
    count
}

// How many of the words are the flag.
fn count_equal(words: &[&str], flag: &str) -> usize
    ensures { result ≡ count_by (λ w. bytes_eq w flag.now) (texts words.now) }
{
    let mut count = 0;
    for word in words {
        if *word == flag {
            count += 1;
        }
    }
    count
}

// The flag stands among the words.
fn has_flag(words: &[&str], flag: &str) -> bool
    ensures { result ≡ has_flag (texts words.now) flag.now }
{
    words.iter().any(|word| *word == flag)
}

// The first text that the words give the option.
fn first_given(alloc: Global, words: &[&str], name: &str) -> Result<Option<String>, AllocError>
    ensures { IfOk result (λ given. option_map string_bytes given ≡ first_given (texts words.now) name.now) }
{
    for word in words {
        if let Some(text) = text_of_option(name, word) {
            return Ok(Some(String::from_str(alloc, text)?));
        }
    }
    Ok(None)
}

// The text after `NAME=`, where the word begins with that and the text isn't empty.
fn text_of_option<'a>(name: &str, word: &'a str) -> Option<&'a str>
    ensures { option_map (λ t. t.now) result ≡ text_of_option name.now word.now }
{
    let text = word.strip_prefix(name)?;
    if text.is_empty() { None } else { Some(text) }
}
