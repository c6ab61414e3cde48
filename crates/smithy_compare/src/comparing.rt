//! Whether two bodies spell one value, and else where their values first differ.
ghost use Rattle.std.specs.Prelude.{◌≡◌};
ghost use Rattle.smithy_declarations.specs.Table.{IsStructure, kind_of, shape_place};
ghost use Rattle.smithy_transcode.specs.Wires.{wire_of};
ghost use Rattle.smithy_compare.specs.Compares.{Compares, GivesPath};
ghost use Rattle.smithy_compare.specs.FirstPath.{first_in};
ghost use Rattle.smithy_compare.specs.Private.Nodes.{node_tree};
ghost use Rattle.smithy_compare.specs.Private.Refusals.{told_of};
ghost use Rattle.smithy_compare.specs.Private.Standing.{NodeStands};

use crate::node::Node;
use crate::path::PathPart;
use crate::walk::first_difference;
use smithy_schema::{ShapeRef, Shapes};
use smithy_transcode::{TranscodeError, Wire, read_body_into};
use smithy_tree::Pool;
use std::alloc::Global;
use thiserror::Error;

/// What a comparison finds.
#[derive(Debug, Drop)]
pub enum Compared {
    /// Both bodies spell one value.
    Same,
    /// The bodies spell two values, which first differ at this path.
    Differs(Vec<PathPart>),
}

/// Why two bodies were not compared. `Display` writes the variant's name.
#[derive(Clone, Copy, Debug, PartialEq, Eq, Error)]
pub enum CompareError {
    /// The first body spells no value.
    #[error("First")]
    First(TranscodeError),
    /// The first body spells a value, and the second none.
    #[error("Second")]
    Second(TranscodeError),
    /// An allocation was refused.
    #[error("NoMemory")]
    NoMemory,
}

// The refusal of the first body.
fn of_first(error: TranscodeError) -> CompareError
    ensures { result ≡ told_of CompareError.First error }
{
    match error {
        TranscodeError::NoMemory => CompareError::NoMemory,
        TranscodeError::InvalidInput
        | TranscodeError::TooDeep
        | TranscodeError::TooWide
        | TranscodeError::NotCarried
        | TranscodeError::Inexpressible(_) => CompareError::First(error),
    }
}

// The refusal of the second body.
fn of_second(error: TranscodeError) -> CompareError
    ensures { result ≡ told_of CompareError.Second error }
{
    match error {
        TranscodeError::NoMemory => CompareError::NoMemory,
        TranscodeError::InvalidInput
        | TranscodeError::TooDeep
        | TranscodeError::TooWide
        | TranscodeError::NotCarried
        | TranscodeError::Inexpressible(_) => CompareError::Second(error),
    }
}

/// Reads two bodies as values of the root, which is a structure of the table, and tells whether they are one value. Else it
/// names the first path at which they differ: the least member, element or key that one alone has or that differs in both.
///
/// Forms are not read: of such a wire each body is refused as `InvalidInput`.
pub fn compare(
    alloc: Global,
    shapes: &Shapes,
    root: ShapeRef,
    wire1: &Wire,
    body1: &[u8],
    wire2: &Wire,
    body2: &[u8],
) -> Result<Compared, CompareError>
    requires root { IsStructure (kind_of shapes.now (shape_place root.0)) }
    ensures { Compares shapes.now root.0 (wire_of wire1.now) body1.now (wire_of wire2.now) body2.now result }
{
    let mut pool1 = Pool::new(alloc, body1);
    let first = match read_body_into(alloc, shapes, root, wire1, body1, &mut pool1) {
        Ok(slot) => slot,
        Err(error) => return Err(of_first(error)),
    };
    let mut pool2 = Pool::new(alloc, body2);
    let second = match read_body_into(alloc, shapes, root, wire2, body2, &mut pool2) {
        Ok(slot) => slot,
        Err(error) => return Err(of_second(error)),
    };
    let left = Node::Value(&pool1, &first);
    let right = Node::Value(&pool2, &second);
    values_compared(alloc, &left, &right)
}

// Whether two values are one, and else where they first differ.
fn values_compared(
    alloc: Global,
    left: &Node<'_>,
    right: &Node<'_>,
) -> Result<Compared, CompareError>
    requires left { NodeStands left.now }
    requires right { NodeStands right.now }
    ensures { GivesPath (first_in (node_tree left.now) (node_tree right.now)) result }
{
    match first_difference(alloc, left, right) {
        Ok(None) => Ok(Compared::Same),
        Ok(Some(path)) => Ok(Compared::Differs(path)),
        Err(_) => Err(CompareError::NoMemory),
    }
}
