//! The walk through what stands where a scalar is due, and openings of containers.
ghost use Rattle.std.specs.Prelude.{◌≡◌, ◌≤◌, IfOk};
ghost use Rattle.smithy_declarations.specs.Table.{scalar};
ghost use Rattle.smithy_shapes.specs.Site.{site_of, kind_at};
ghost use Rattle.smithy_lint.specs.Private.Bodies.{HasValue};
ghost use Rattle.smithy_lint.specs.Private.Walks.{Visits, IsContainerOf, IsOpened, IsPast, scalar_kind};

use crate::body::{Beginning, Body};
use crate::elements::pass_with;
use crate::finding::Kind;
use crate::linter::Linter;
use smithy_schema::{Scalar, Schema, ShapeType};
use smithy_wire::Mark;
use std::alloc::{AllocError, Global};

// How many containers may be open at once.
const MAX_DEPTH: usize = 128;

/// What was found where a container is due: it opens, or it was gone past.
#[derive(Clone, Copy)]
pub enum Opened {
    /// It opens, and its inside is at this offset.
    Inside(usize, Mark),
    /// It was gone past, and this is its end.
    Past(usize),
}

// The scalar of a kind that is one.
pub(crate) fn scalar_of(kind: ShapeType) -> Option<Scalar>
    ensures { result ≡ scalar_kind kind }
{
    match kind {
        ShapeType::Boolean => Some(Scalar::Boolean),
        ShapeType::Byte => Some(Scalar::Byte),
        ShapeType::Short => Some(Scalar::Short),
        ShapeType::Integer => Some(Scalar::Integer),
        ShapeType::Long => Some(Scalar::Long),
        ShapeType::String => Some(Scalar::String),
        ShapeType::Blob => Some(Scalar::Blob),
        ShapeType::Timestamp => Some(Scalar::Timestamp),
        ShapeType::BigInteger => Some(Scalar::BigInteger),
        ShapeType::BigDecimal => Some(Scalar::BigDecimal),
        ShapeType::Document
        | ShapeType::Structure
        | ShapeType::Union
        | ShapeType::List
        | ShapeType::Map => None,
    }
}

// Goes through the value at the offset, where a scalar is due.
pub(crate) fn visit_scalar<'b, B: Body>(
    alloc: Global,
    body: &'b B,
    linter: &mut Linter<'b>,
    schema: &Schema<'_>,
    kind: Scalar,
    at: usize,
    depth: usize,
) -> Result<usize, AllocError>
    requires kind { kind_at (site_of schema.now) ≡ scalar kind }
    requires there { HasValue (B.holding body.now) depth at }
    ensures { IfOk result (Visits (B.holding body.now) (B.rules body.now) (site_of schema.now).table (site_of schema.now).place depth at linter.old linter.new) }
{
    match body.begins(at) {
        Beginning::Scalar => {
            let found = body.scalar_finding(alloc, kind, schema.timestamp_format(), at, depth)?;
            linter.report_if(alloc, found)?;
            body.end(alloc, at, depth)
        }
        _ => pass_with(alloc, body, linter, Kind::Mismatch, at, depth),
    }
}

// Opens the container that is due at the offset, or goes past what stands there.
pub(crate) fn open_container<'b, B: Body>(
    alloc: Global,
    body: &'b B,
    linter: &mut Linter<'b>,
    schema: &Schema<'_>,
    is_list: bool,
    at: usize,
    depth: usize,
) -> Result<Opened, AllocError>
    requires kind { IsContainerOf (kind_at (site_of schema.now)) is_list }
    requires there { HasValue (B.holding body.now) depth at }
    requires shallow { depth ≤ 128 }
    ensures { IfOk result (IsOpened (B.holding body.now) (B.rules body.now) (site_of schema.now).table (site_of schema.now).place is_list depth at linter.old linter.new) }
{
    let beginning = body.begins(at);
    match beginning {
        Beginning::Array(inside, mark) if is_list && depth < MAX_DEPTH => Ok(Opened::Inside(
            inside, mark,
        )),
        Beginning::Object(inside, mark) if !is_list && depth < MAX_DEPTH => Ok(Opened::Inside(
            inside, mark,
        )),
        Beginning::Array(_, _) if is_list => past(alloc, body, linter, Kind::Deep, at, depth),
        Beginning::Object(_, _) if !is_list => past(alloc, body, linter, Kind::Deep, at, depth),
        _ => past(alloc, body, linter, Kind::Mismatch, at, depth),
    }
}

// Goes past the value at the offset, with this finding.
fn past<'b, B: Body>(
    alloc: Global,
    body: &'b B,
    linter: &mut Linter<'b>,
    kind: Kind,
    at: usize,
    depth: usize,
) -> Result<Opened, AllocError>
    requires there { HasValue (B.holding body.now) depth at }
    ensures { IfOk result (IsPast (B.holding body.now) depth at kind linter.old linter.new) }
{
    Ok(Opened::Past(pass_with(alloc, body, linter, kind, at, depth)?))
}
