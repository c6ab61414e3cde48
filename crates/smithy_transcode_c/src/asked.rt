//! What a call asks for.
ghost use Rattle.std.specs.Prelude.{◌≡◌, ◌≢◌, Some, None, option_map, IfOk, IfErr, OnErr};
ghost use Rattle.smithy_declarations.specs.Table.{IsStructure, kind_of, shape_place, declared_as};
ghost use Rattle.smithy_transcode.specs.Wires.{wire_of};
ghost use Rattle.smithy_transcode_c.specs.Calls.{IsMeant, Refuses, RefusesRoot, common_wire, source_wire, form_of, target_wire, text_of};
ghost use Rattle.smithy_transcode_c.specs.Views.{asked_of};

use crate::refusal::Refusal;
use smithy_shapes::{ShapeRef, ShapeType, Shapes};
use smithy_transcode::Wire;
use std::alloc::{AllocError, Global};
use std::str;

/// What a call asks for, as C says it.
#[derive(Clone, Copy)]
pub(crate) struct Asked<'a> {
    /// The name of the root.
    pub(crate) root: &'a [u8],
    /// The number of the wire that is read.
    pub(crate) from: u32,
    /// The number of the wire that is written.
    pub(crate) to: u32,
    /// The value of the form's pair `Action`.
    pub(crate) action: &'a [u8],
    /// The value of the form's pair `Version`.
    pub(crate) version: &'a [u8],
}

/// The structure and the wires that are asked for.
#[derive(Drop)]
pub(crate) struct Meant {
    pub(crate) root: ShapeRef,
    pub(crate) from: Wire,
    pub(crate) to: Wire,
}

// The wire of a number that is read as well as written.
fn common_wire(number: u32) -> Option<Wire>
    ensures { option_map wire_of result ≡ common_wire number }
{
    match number {
        0 => Some(Wire::Json {
            use_json_name: false,
            integral: false,
        }),
        1 => Some(Wire::Json {
            use_json_name: true,
            integral: false,
        }),
        2 => Some(Wire::Cbor { definite: false }),
        _ => None,
    }
}

/// The wire of a number from which bodies are read.
pub(crate) fn source_wire(number: u32) -> Option<Wire>
    ensures { option_map wire_of result ≡ source_wire number }
{
    match number {
        5 => Some(Wire::Json {
            use_json_name: false,
            integral: true,
        }),
        6 => Some(Wire::Json {
            use_json_name: true,
            integral: true,
        }),
        _ => common_wire(number),
    }
}

// The text that some bytes are.
fn text_of(bytes: &[u8]) -> Option<&str>
    ensures { option_map (λ text. text.now) result ≡ text_of bytes.now }
{
    match str::from_utf8(bytes) {
        Ok(text) => Some(text),
        Err(_) => None,
    }
}

// The form of an action and a version, where they are texts.
fn form_of(alloc: Global, action: &[u8], version: &[u8]) -> Result<Option<Wire>, AllocError>
    ensures form { IfOk result (λ wire. option_map wire_of wire ≡ form_of action.now version.now) }
    ensures memory { OnErr result (form_of action.now version.now ≢ None) }
{
    let Some(action) = text_of(action) else {
        return Ok(None);
    };
    let Some(version) = text_of(version) else {
        return Ok(None);
    };
    Ok(Some(Wire::Query {
        action: String::from_str(alloc, action)?,
        version: String::from_str(alloc, version)?,
    }))
}

/// The structure of that name.
pub(crate) fn find_root(table: &Shapes, name: &[u8]) -> Result<ShapeRef, Refusal>
    ensures root { IfOk result (λ root. (declared_as table.now name.now ≡ Some root.0) × IsStructure (kind_of table.now (shape_place root.0))) }
    ensures refused { IfErr result (RefusesRoot table.now name.now) }
{
    let Some(name) = text_of(name) else {
        return Err(Refusal::NoSuchShape);
    };
    let Some(root) = table.find(name) else {
        return Err(Refusal::NoSuchShape);
    };
    match table.schema(root).shape_type() {
        ShapeType::Structure => Ok(root),
        _ => Err(Refusal::NotAStructure),
    }
}

impl Asked<'_> {
    /// The wire to which bodies are written.
    pub(crate) fn target_wire(&self, alloc: Global) -> Result<Option<Wire>, AllocError>
        ensures wire { IfOk result (λ wire. option_map wire_of wire ≡ target_wire (asked_of self.now)) }
        ensures memory { OnErr result (target_wire (asked_of self.now) ≢ None) }
    {
        match self.to {
            3 => form_of(alloc, self.action, self.version),
            4 => Ok(Some(Wire::Cbor { definite: true })),
            to => Ok(common_wire(to)),
        }
    }

    /// The structure of the table, and the wires, that are asked for.
    pub(crate) fn meant(&self, alloc: Global, table: &Shapes) -> Result<Meant, Refusal>
        ensures meant { IfOk result (λ meant. IsMeant table.now (asked_of self.now) meant.root.0 (wire_of meant.from) (wire_of meant.to)) }
        ensures refused { IfErr result (Refuses table.now (asked_of self.now)) }
    {
        let from = source_wire(self.from).ok_or(Refusal::Usage)?;
        let to = self.target_wire(alloc)?.ok_or(Refusal::Usage)?;
        let root = find_root(table, self.root)?;
        Ok(Meant { root, from, to })
    }
}
