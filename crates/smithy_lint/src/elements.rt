//! Going past a value.
ghost use Rattle.std.specs.Prelude.{◌≡◌, not, IfOk, codes, bytes_eq};
ghost use Rattle.std.specs.Cow.{cow_str_bytes};
ghost use Rattle.smithy_lint.specs.Private.Bodies.{HasValue};
ghost use Rattle.smithy_lint.specs.Private.Walks.{PassesWith, PassesUnnamed, PassesUnder, dropped_end};

use crate::body::{Beginning, Body};
use crate::finding::Kind;
use crate::linter::{Label, Linter};
use std::alloc::{AllocError, Global};
use std::borrow::CowStr;

// Goes past the value at the offset, with this finding.
pub(crate) fn pass_with<'b, B: Body>(
    alloc: Global,
    body: &'b B,
    linter: &mut Linter<'b>,
    kind: Kind,
    at: usize,
    depth: usize,
) -> Result<usize, AllocError>
    requires there { HasValue (B.holding body.now) depth at }
    ensures { IfOk result (PassesWith (B.holding body.now) depth at kind linter.old linter.new) }
{
    linter.report(alloc, kind)?;
    body.end(alloc, at, depth)
}

// The end of a null that is dropped.
pub(crate) fn dropped_end(beginning: Beginning, keeps_null: bool) -> Option<usize>
    ensures { result ≡ dropped_end beginning keeps_null }
{
    match beginning {
        Beginning::Null(end) if !keeps_null => Some(end),
        _ => None,
    }
}

// Goes past the value at the offset, whose key names no member, with what is told of such a one.
fn pass_unnamed<'b, B: Body>(
    alloc: Global,
    body: &'b B,
    linter: &mut Linter<'b>,
    is_mark: bool,
    at: usize,
    depth: usize,
) -> Result<usize, AllocError>
    requires there { HasValue (B.holding body.now) depth at }
    ensures { IfOk result (PassesUnnamed (B.holding body.now) (B.rules body.now) depth at is_mark linter.old linter.new) }
{
    linter.report_if(alloc, (!is_mark).then_some(Kind::Unknown))?;
    let is_deep = !body.may_skip(at, depth);
    linter.report_if(alloc, is_deep.then_some(Kind::Deep))?;
    body.end(alloc, at, depth)
}

// The same under the key, and whether that is no mark.
pub(crate) fn pass_under<'b, B: Body>(
    alloc: Global,
    body: &'b B,
    linter: &mut Linter<'b>,
    text: CowStr<'b, Global>,
    at: usize,
    depth: usize,
) -> Result<(usize, bool), AllocError>
    requires there { HasValue (B.holding body.now) depth at }
    ensures found { IfOk result (λ a. PassesUnder (B.holding body.now) (B.rules body.now) depth at (cow_str_bytes text.entry) linter.old linter.new a.0) }
    ensures variant { IfOk result (λ a. a.1 ≡ not (bytes_eq (cow_str_bytes text.entry) (codes "__type"))) }
{
    let is_mark = text.as_str() == "__type";
    linter.enter(Label::Key(text))?;
    let end = pass_unnamed(alloc, body, linter, is_mark, at, depth)?;
    linter.leave();
    Ok((end, !is_mark))
}
