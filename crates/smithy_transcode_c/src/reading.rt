//! One form: what a call that reads it answers.
ghost use Rattle.std.specs.Prelude.{◌≡◌, ◌++◌};
ghost use Rattle.smithy_transcode_c.specs.Calls.{IsHandedOut, target_wire};
ghost use Rattle.smithy_transcode_c.specs.Reading.{FormAnswer, nothing_but};
ghost use Rattle.smithy_transcode_c.specs.Views.{asked_of};

use crate::answer::NO_ROOM;
use crate::asked::{Asked, find_root};
use crate::numbers::{form_number, pair_number};
use crate::refusal::Refusal;
use smithy_form::read_form;
use smithy_shapes::Shapes;
use smithy_transcode::write_body;
use std::alloc::Global;

/// What is told of a form: how long its parts are, which stand one behind another, and which pair is refused.
#[repr(C)]
#[derive(Clone, Copy)]
pub struct FormTold {
    pub action_len: usize,
    pub version_len: usize,
    pub body_len: usize,
    /// Counted from 1; 0 where none is.
    pub pair: u64,
}

// Nothing was read, and this pair is refused, or none where it is 0.
fn nothing_but(pair: u64) -> FormTold
    ensures { result ≡ nothing_but pair }
{
    FormTold {
        action_len: 0,
        version_len: 0,
        body_len: 0,
        pair,
    }
}

// Puts three parts, one behind another, to the front of the room, if they have room.
fn hand_out_parts(action: &[u8], version: &[u8], body: &[u8], out: &mut [u8]) -> u8
    ensures { IsHandedOut 0 (action.now ++ (version.now ++ body.now)) out.old result out.new }
{
    let room = out.len();
    if room < action.len() {
        return NO_ROOM;
    }
    if room - action.len() < version.len() {
        return NO_ROOM;
    }
    let at = action.len() + version.len();
    if room - at < body.len() {
        return NO_ROOM;
    }
    out[..action.len()].copy_from_slice(action);
    out[action.len()..at].copy_from_slice(version);
    out[at..at + body.len()].copy_from_slice(body);
    0
}

/// Reads a form, and writes its action, its version and the body of its value into the caller's memory.
pub(crate) fn answer_form(
    alloc: Global,
    table: &Shapes,
    asked: &Asked<'_>,
    input: &[u8],
    out: &mut [u8],
    told: &mut FormTold,
) -> u8
    ensures { FormAnswer table.now asked.now.root.now (target_wire (asked_of asked.now)) input.now out.old result told.new out.new }
{
    *told = nothing_but(0);
    let to = match asked.target_wire(alloc) {
        Ok(Some(to)) => to,
        Ok(None) => return Refusal::Usage.number(),
        Err(_) => return Refusal::OutOfMemory.number(),
    };
    let root = match find_root(table, asked.root) {
        Ok(root) => root,
        Err(refusal) => return refusal.number(),
    };
    let form = match read_form(alloc, table, root, input) {
        Ok(form) => form,
        Err(error) => {
            *told = nothing_but(pair_number(error));
            return form_number(error);
        }
    };
    let body = match write_body(alloc, table, root, &to, &form.value) {
        Ok(body) => body,
        Err(error) => return error.number(),
    };
    let (action, version) = (
        form.action.as_str().as_bytes(),
        form.version.as_str().as_bytes(),
    );
    *told = FormTold {
        action_len: action.len(),
        version_len: version.len(),
        body_len: body.len(),
        pair: 0,
    };
    hand_out_parts(action, version, &body, out)
}
