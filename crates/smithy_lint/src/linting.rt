//! Every finding of a whole body.
ghost use Rattle.std.specs.Prelude.{◌≡◌, [], IfOk};
ghost use Rattle.smithy_declarations.specs.Table.{IsStructure, kind_of, shape_place};
ghost use Rattle.smithy_transcode.specs.Wires.{wire_of, json, cbor};
ghost use Rattle.smithy_lint.specs.Lint.{Lints};
ghost use Rattle.smithy_lint.specs.Private.Bodies.{HasValue};
ghost use Rattle.smithy_lint.specs.Private.Opening.{FindsAll};

use crate::body::Body;
use crate::cbor_body::CborBody;
use crate::cbor_end::check_item;
use crate::finding::Finding;
use crate::json_text::json_body;
use crate::linter::Linter;
use crate::walk::visit;
use smithy_schema::{ShapeRef, Shapes};
use smithy_transcode::Wire;
use std::alloc::{AllocError, Global};
use thiserror::Error;

/// Why a body has no findings. `Display` writes the variant's name.
#[derive(Clone, Copy, Debug, PartialEq, Eq, Error)]
pub enum LintError {
    /// The body is no text of the wire.
    #[error("NotWellFormed")]
    NotWellFormed,
    /// More than 512 containers nest.
    #[error("TooNested")]
    TooNested,
    /// An allocation was refused.
    #[error("NoMemory")]
    NoMemory,
}

// All that is found in a body.
fn findings_of<B: Body>(
    alloc: Global,
    shapes: &Shapes,
    root: ShapeRef,
    body: &B,
) -> Result<Vec<Finding>, AllocError>
    requires root { IsStructure (kind_of shapes.now (shape_place root.0)) }
    requires there { HasValue (B.holding body.now) 0 0 }
    ensures { IfOk result (FindsAll (B.holding body.now) (B.rules body.now) shapes.now root.0) }
{
    let schema = shapes.schema(root);
    let mut linter = Linter {
        path: Vec::new(alloc),
        findings: Vec::new(alloc),
    };
    visit(alloc, body, &mut linter, &schema, 0, 0)?;
    Ok(linter.findings)
}

// All that is found in a body of JSON.
fn lint_json(
    alloc: Global,
    shapes: &Shapes,
    root: ShapeRef,
    use_json_name: bool,
    integral: bool,
    body: &[u8],
) -> Result<Vec<Finding>, LintError>
    requires root { IsStructure (kind_of shapes.now (shape_place root.0)) }
    ensures { Lints shapes.now root.0 (json use_json_name integral) body.now result }
{
    if body.is_empty() {
        return Ok(Vec::new(alloc));
    }
    let text = match json_body(body, use_json_name, integral) {
        Ok(text) => text,
        Err(error) => return Err(error),
    };
    match findings_of(alloc, shapes, root, &text) {
        Ok(found) => Ok(found),
        Err(_) => Err(LintError::NoMemory),
    }
}

// All that is found in a body of CBOR. How lists and maps are written makes no difference.
fn lint_cbor(
    alloc: Global,
    shapes: &Shapes,
    root: ShapeRef,
    definite: bool,
    bytes: &[u8],
) -> Result<Vec<Finding>, LintError>
    requires root { IsStructure (kind_of shapes.now (shape_place root.0)) }
    ensures { Lints shapes.now root.0 (cbor definite) bytes.now result }
{
    if bytes.is_empty() {
        return Ok(Vec::new(alloc));
    }
    let item = match check_item(alloc, bytes) {
        Ok(()) => CborBody { bytes },
        Err(error) => return Err(error),
    };
    match findings_of(alloc, shapes, root, &item) {
        Ok(found) => Ok(found),
        Err(_) => Err(LintError::NoMemory),
    }
}

/// Goes through a body of the root, and tells each place at which it means nothing, with the reason, and each entry of a structure
/// or a union that names no member.
///
/// Findings come in the order of the body, each with its own path. An empty body has none. Forms are not read: of such a wire each
/// body is refused as `NotWellFormed`.
pub fn lint(
    alloc: Global,
    shapes: &Shapes,
    root: ShapeRef,
    wire: &Wire,
    body: &[u8],
) -> Result<Vec<Finding>, LintError>
    requires root { IsStructure (kind_of shapes.now (shape_place root.0)) }
    ensures { Lints shapes.now root.0 (wire_of wire.now) body.now result }
{
    match wire {
        Wire::Json {
            use_json_name,
            integral,
        } => lint_json(alloc, shapes, root, *use_json_name, *integral, body),
        Wire::Cbor { definite } => lint_cbor(alloc, shapes, root, *definite, body),
        Wire::Query { .. } => Err(LintError::NotWellFormed),
    }
}
