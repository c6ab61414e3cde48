//! Reads the text of a table, line by line.
ghost use Rattle.std.specs.Prelude.{◌≡◌, map, option_map, IfOk, IfErr, MatchBool};
ghost use Rattle.std.specs.Str.Lines.{strip_carriage_return};
ghost use Rattle.smithy_declarations.specs.TableText.{words_of, is_passed_over, after_line, with_member, add_member as with_member_added, declarations_of, declarations};
ghost use Rattle.smithy_declarations.specs.Private.PlaceTests.{with_form};
ghost use Rattle.smithy_declarations.specs.DeclViews.{decl_of, member_decl_of, IsLineFault};

mod line;

use crate::decl::{Decl, MemberDecl};
use crate::fault::TableFault;
use line::{Line, line_said};
use std::alloc::{AllocError, Global};

/// The text of a table.
///
/// A text is split at each LF, and one CR at the end of a line is dropped. A line that is empty or
/// begins with `#` is passed over. Every other line is UTF-8 and consists of words parted by
/// single spaces, and is one of these, with the options in brackets in any order, each at most once:
///
/// ```text
/// structure N
/// union N
/// member NAME TARGET [json=J] [xml=X] [flat] [time=T]
/// list N TARGET [sparse] [xml=X] [time=T]
/// map N TARGET [sparse] [key=K] [value=V] [time=T]
/// ```
pub struct TableText;

impl TableText {
    /// The declarations of a text, or its first line that is of none of the forms, from 1.
    pub fn read(alloc: Global, text: &[u8]) -> Result<Vec<Decl>, TableFault>
        ensures read { IfOk result (λ decls. declarations_of text.now ≡ declarations (map decl_of decls.items)) }
        ensures refused { IfErr result (IsLineFault (declarations_of text.now)) }
    {
        let mut decls = Vec::new(alloc);
        let mut number: u64 = 0;
        for line in text.split(|b| *b == b'\n') {
            number += 1;
            if !read_line(alloc, &mut decls, without_return(line))? {
                return Err(TableFault::BadLine(number));
            }
        }
        Ok(decls)
    }
}

// The line without the one carriage return at its end.
fn without_return(line: &[u8]) -> &[u8]
    ensures { result.now ≡ strip_carriage_return line.now }
{
    let end = line.len();
    if end > 0 && line[end - 1] == b'\r' {
        &line[..end - 1]
    } else {
        line
    }
}

// Adds what a line says to the declarations before it, and tells whether the line is a good one.
fn read_line(alloc: Global, decls: &mut Vec<Decl>, line: &[u8]) -> Result<bool, AllocError>
    ensures { IfOk result (λ good. MatchBool good
        (after_line (map decl_of decls.old.items) line.now ≡ Some (map decl_of decls.new.items))
        (after_line (map decl_of decls.old.items) line.now ≡ None)) }
{
    if is_passed_over(line) {
        return Ok(true);
    }
    match line_said(alloc, line)? {
        Some(Line::Declares(decl)) => {
            decls.push(decl)?;
            Ok(true)
        }
        Some(Line::Adds(member)) => add_member(decls, member),
        None => Ok(false),
    }
}

// A line that is empty or begins with `#` says nothing.
fn is_passed_over(line: &[u8]) -> bool
    ensures { result ≡ is_passed_over line.now }
{
    match line {
        [] => true,
        [first, ..] => *first == b'#',
    }
}

// Adds a member to the last declaration, and tells whether that is one that has members.
fn add_member(decls: &mut Vec<Decl>, member: MemberDecl) -> Result<bool, AllocError>
    ensures { IfOk result (λ good. MatchBool good
        (with_member_added (member_decl_of member) (map decl_of decls.old.items) ≡ Some (map decl_of decls.new.items))
        (with_member_added (member_decl_of member) (map decl_of decls.old.items) ≡ None)) }
{
    let Some(last) = decls.pop() else {
        return Ok(false);
    };
    match with_member(last, member)? {
        Some(decl) => {
            decls.push(decl)?;
            Ok(true)
        }
        None => Ok(false),
    }
}

// The declaration with one member more, if it is one that has members.
fn with_member(decl: Decl, member: MemberDecl) -> Result<Option<Decl>, AllocError>
    ensures { IfOk result (λ more. option_map decl_of more
        ≡ option_map (with_form (decl_of decl)) (with_member (member_decl_of member) (decl_of decl).form)) }
{
    match decl {
        Decl::Structure { name, mut members } => {
            members.push(member)?;
            Ok(Some(Decl::Structure { name, members }))
        }
        Decl::Union { name, mut members } => {
            members.push(member)?;
            Ok(Some(Decl::Union { name, members }))
        }
        _ => Ok(None),
    }
}
