//! The size of a container by its head (RFC 8949, section 3.1).

ghost use Rattle.std.specs.Prelude.{◌≡◌, ◌≤◌, length, min, option_map};
ghost use Rattle.smithy_schema.specs.Sizes.{greatest_room};
ghost use Rattle.smithy_cbor_values.specs.ContainerSize.{cbor_sizes};

use crate::places::{array_at, map_at};
use smithy_schema::capped_container_size;

// The number that a head declares, but at most this one, and no more than room is made for.
fn size_within(declared: Option<u64>, most: usize) -> Option<usize>
    ensures { result ≡ option_map (λ n. min (min n most) greatest_room) declared }
{
    let declared = declared?;
    Some(capped_container_size(declared.min(most as u64) as usize))
}

/// The size of the array or map of definite length that begins at the offset.
pub fn container_size_at(input: &[u8], at: usize) -> Option<usize>
    requires { at ≤ length input.now }
    ensures { cbor_sizes input.now at result }
{
    if let Some(array) = array_at(input, at) {
        return size_within(array.due, input.len() - array.inside);
    }
    let map = map_at(input, at)?;
    size_within(map.due, (input.len() - map.inside) / 2)
}
