//! How much room is made for a container whose size is told before it is read.
ghost use Rattle.std.specs.Prelude.{◌≡◌, min};
ghost use Rattle.smithy_schema.specs.Sizes.{greatest_room};

// The greatest room that is made before any element was read.
const GREATEST_ROOM: usize = 10_000;

/// The room to make for so many elements before any was read: no more than 10,000, since a told number needn't be true.
pub fn capped_container_size(n: usize) -> usize
    ensures { result ≡ min n greatest_room }
{
    if n < GREATEST_ROOM { n } else { GREATEST_ROOM }
}
