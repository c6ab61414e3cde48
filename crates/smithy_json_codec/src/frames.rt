//! What a reader keeps of an open container.
ghost use Rattle.std.specs.Prelude.{◌≡◌, ◌↔◌, IsTrue};
ghost use Rattle.smithy_declarations.specs.Table.{IsStructure};
ghost use Rattle.smithy_shapes.specs.Site.{site_of, kind_at};
ghost use Rattle.smithy_json_codec.specs.Cursor.{inside_of, missing_frame};
ghost use Rattle.smithy_wire.specs.Walking.{within_of, frame_of};

use smithy_schema::{Schema, ShapeType};
use smithy_wire::{ContainerKind, Frame, Mark};

// What is kept of an open container, in which an entry has come or not.
#[inline]
pub(crate) fn frame(within: ContainerKind, entered: bool) -> Frame
    ensures { frame_of result ≡ inside_of (within_of within) entered }
{
    Frame {
        within,
        mark: Mark {
            entered,
            at_end: false,
            due: None,
        },
    }
}

// Whether a structure stands at the place: in an empty input none else may.
pub(crate) fn is_structure(schema: &Schema<'_>) -> bool
    ensures { IsTrue result ↔ IsStructure (kind_at (site_of schema.now)) }
{
    schema.shape_type() == ShapeType::Structure
}

// What is kept of the structure without members that an empty input is.
pub(crate) fn missing() -> Frame
    ensures { frame_of result ≡ missing_frame }
{
    Frame {
        within: ContainerKind::Structure,
        mark: Mark {
            entered: false,
            at_end: true,
            due: None,
        },
    }
}
