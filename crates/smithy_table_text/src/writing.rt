//! The lines of declarations.
ghost use Rattle.std.specs.Prelude.{◌≡◌, ◌++◌, map as list_map, option_map, string_bytes, flat_map, IfOk, OnOk};
ghost use Rattle.smithy_declarations.specs.DeclViews.{member_decl_of, decl_of};
ghost use Rattle.smithy_table_text.specs.Parts.{list_of, map_of};
ghost use Rattle.smithy_table_text.specs.TableLines.{option_text, flag_text, member_options, member_line, list_line, map_line, decl_lines, table_text};

use smithy_shapes::{Decl, MemberDecl};
use std::alloc::{AllocError, Global};

/// The text of declarations, a line for each and for each member.
pub(crate) fn write_table(alloc: Global, decls: &[Decl]) -> Result<Vec<u8>, AllocError>
    ensures { IfOk result (λ text. text.items ≡ table_text (list_map decl_of decls.now)) }
{
    let mut out = Vec::new(alloc);
    for decl in decls {
        write_decl(&mut out, decl)?;
    }
    Ok(out)
}

// Writes the line of a declaration and those of its members.
fn write_decl(out: &mut Vec<u8>, decl: &Decl) -> Result<(), AllocError>
    ensures { OnOk result (out.new.items ≡ out.old.items ++ decl_lines (decl_of decl.now)) }
{
    match decl {
        Decl::Structure { name, members } => {
            put_named(out, "structure ", name.as_str())?;
            put(out, "\n")?;
            write_members(out, members)
        }
        Decl::Union { name, members } => {
            put_named(out, "union ", name.as_str())?;
            put(out, "\n")?;
            write_members(out, members)
        }
        Decl::List {
            name,
            target,
            sparse,
            xml,
            time,
        } => {
            put_named(out, "list ", name.as_str())?;
            write_list(out, target.as_str(), *sparse, xml, time)
        }
        Decl::Map {
            name,
            target,
            sparse,
            key,
            value,
            time,
        } => {
            put_named(out, "map ", name.as_str())?;
            write_map(out, target.as_str(), *sparse, key, value, time)
        }
    }
}

// Writes what stands behind the name of a list.
fn write_list(
    out: &mut Vec<u8>,
    target: &str,
    sparse: bool,
    xml: &Option<String>,
    time: &Option<String>,
) -> Result<(), AllocError>
    ensures { OnOk result (out.new.items ≡ out.old.items ++ list_line (list_of target.now sparse xml.now time.now)) }
{
    put_named(out, " ", target)?;
    put_flag(out, " sparse", sparse)?;
    put_option(out, " xml=", xml)?;
    put_option(out, " time=", time)?;
    put(out, "\n")
}

// Writes what stands behind the name of a map.
fn write_map(
    out: &mut Vec<u8>,
    target: &str,
    sparse: bool,
    key: &Option<String>,
    value: &Option<String>,
    time: &Option<String>,
) -> Result<(), AllocError>
    ensures { OnOk result (out.new.items ≡ out.old.items ++ map_line (map_of target.now sparse key.now value.now time.now)) }
{
    put_named(out, " ", target)?;
    put_flag(out, " sparse", sparse)?;
    put_option(out, " key=", key)?;
    put_option(out, " value=", value)?;
    put_option(out, " time=", time)?;
    put(out, "\n")
}

// Writes the lines of members.
fn write_members(out: &mut Vec<u8>, members: &[MemberDecl]) -> Result<(), AllocError>
    ensures { OnOk result (out.new.items ≡ out.old.items ++ flat_map member_line (list_map member_decl_of members.now)) }
{
    for member in members {
        write_member(out, member)?;
    }
    Ok(())
}

// Writes the line of a member.
fn write_member(out: &mut Vec<u8>, member: &MemberDecl) -> Result<(), AllocError>
    ensures { OnOk result (out.new.items ≡ out.old.items ++ member_line (member_decl_of member.now)) }
{
    put_named(out, "member ", member.name.as_str())?;
    put_named(out, " ", member.target.as_str())?;
    write_options(out, member)?;
    put(out, "\n")
}

// Writes the options of a member.
fn write_options(out: &mut Vec<u8>, member: &MemberDecl) -> Result<(), AllocError>
    ensures { OnOk result (out.new.items ≡ out.old.items ++ member_options (member_decl_of member.now)) }
{
    put_option(out, " json=", &member.json)?;
    put_option(out, " xml=", &member.xml)?;
    put_flag(out, " flat", member.flat)?;
    put_option(out, " time=", &member.time)
}

// Writes a text.
fn put(out: &mut Vec<u8>, text: &str) -> Result<(), AllocError>
    ensures { OnOk result (out.new.items ≡ out.old.items ++ text.now) }
{
    out.extend_from_slice(text.as_bytes())
}

// Writes a word and the text behind it.
fn put_named(out: &mut Vec<u8>, word: &str, text: &str) -> Result<(), AllocError>
    ensures { OnOk result (out.new.items ≡ out.old.items ++ (word.now ++ text.now)) }
{
    put(out, word)?;
    put(out, text)
}

// Writes a flag, where it is set.
fn put_flag(out: &mut Vec<u8>, word: &str, is_set: bool) -> Result<(), AllocError>
    ensures { OnOk result (out.new.items ≡ out.old.items ++ flag_text word.now is_set) }
{
    if is_set {
        return put(out, word);
    }
    Ok(())
}

// Writes an option, where one is given.
fn put_option(out: &mut Vec<u8>, word: &str, given: &Option<String>) -> Result<(), AllocError>
    ensures { OnOk result (out.new.items ≡ out.old.items ++ option_text word.now (option_map string_bytes given.now)) }
{
    match given {
        Some(text) => put_named(out, word, text.as_str()),
        None => Ok(()),
    }
}
