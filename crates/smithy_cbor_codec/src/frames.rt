//! What a reader keeps of an open container, and where a structure may be missing.
ghost use Rattle.std.specs.Prelude.{◌≡◌, ◌↔◌, IsTrue};
ghost use Rattle.smithy_declarations.specs.Table.{IsStructure};
ghost use Rattle.smithy_shapes.specs.Site.{site_of, kind_at};
ghost use Rattle.smithy_cbor_codec.specs.Cursor.{inside_of, missing_frame};
ghost use Rattle.smithy_cbor_values.specs.Standing.{RestIsEmpty};
ghost use Rattle.smithy_wire.specs.Walking.{within_of, frame_of};

use smithy_schema::{Schema, ShapeType};
use smithy_wire::{ContainerKind, Frame, Mark};

// What is kept of an open container: how many of its entries are still due, where its head tells it.
#[inline]
pub(crate) fn frame(within: ContainerKind, due: Option<u64>) -> Frame
    ensures { frame_of result ≡ inside_of (within_of within) due }
{
    Frame {
        within,
        mark: Mark {
            entered: false,
            at_end: false,
            due,
        },
    }
}

// Whether a structure stands at the place.
fn is_structure(schema: &Schema<'_>) -> bool
    ensures { IsTrue result ↔ IsStructure (kind_at (site_of schema.now)) }
{
    schema.shape_type() == ShapeType::Structure
}

// Whether nothing is left from the offset on, where a structure may be missing: strictly, of an empty input alone.
fn is_rest_empty(input: &[u8], at: usize, strict: bool) -> bool
    ensures { IsTrue result ↔ RestIsEmpty strict input.now at }
{
    at == input.len() && (at == 0 || !strict)
}

// Whether a structure without members is what nothing is left of.
pub(crate) fn is_missing(input: &[u8], at: usize, strict: bool, schema: &Schema<'_>) -> bool
    ensures { IsTrue result ↔ IsStructure (kind_at (site_of schema.now)) × RestIsEmpty strict input.now at }
{
    is_rest_empty(input, at, strict) && is_structure(schema)
}

// What is kept of the structure without members that an empty rest is.
pub(crate) fn missing() -> Frame
    ensures { frame_of result ≡ missing_frame }
{
    Frame {
        within: ContainerKind::Structure,
        mark: Mark {
            entered: false,
            at_end: true,
            due: None,
        },
    }
}
