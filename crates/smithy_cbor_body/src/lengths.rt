//! The lengths with which containers are written.
ghost use Rattle.std.specs.Prelude.{◌≡◌, ◌++◌, OnOk};
ghost use Rattle.smithy_cbor_body.specs.declared.lengths.Length.TheVariants.{Surplus};
ghost use Rattle.smithy_cbor_body.specs.Lengths.{head_of, begun, counted_first, is_complete, end_of};
ghost use Rattle.smithy_wire.specs.OpenContainers.{opens_of, marks_of, with_innermost};

use smithy_cbor::Encoder;
use smithy_wire::OpenContainers;
use std::alloc::AllocError;

/// What is known of the length of a container while it is open.
#[derive(Clone, Copy, Debug)]
pub(crate) enum Length {
    /// It isn't written: a break ends the container.
    Unwritten,
    /// So many elements or entries are still due.
    Due(u64),
    /// More elements or entries came than were announced.
    Surplus,
}

// What is known of a container that begins with this length, where it is written.
pub(crate) fn begun(length: Option<usize>) -> Length
    ensures { result ≡ begun length }
{
    match length {
        Some(length) => Length::Due(length as u64),
        None => Length::Unwritten,
    }
}

// Whether a container may end: as many elements or entries came as were announced.
pub(crate) fn is_complete(length: Length) -> bool
    ensures { result ≡ is_complete length }
{
    match length {
        Length::Unwritten => true,
        Length::Due(due) => due == 0,
        Length::Surplus => false,
    }
}

// One more element or entry of the innermost container has come.
pub(crate) fn count_value(containers: &mut OpenContainers<Length>)
    ensures lengths { marks_of containers.new ≡ counted_first (marks_of containers.old) }
    ensures containers { opens_of containers.new ≡ opens_of containers.old }
    ensures broken { containers.new.failed ≡ containers.old.failed }
{
    let Some(Length::Due(due)) = containers.mark() else {
        return;
    };
    match due.checked_sub(1) {
        Some(due) => containers.set_mark(Length::Due(due)),
        None => pass_length(containers),
    }
}

// More elements or entries come than were announced.
#[inline(never)]
fn pass_length(containers: &mut OpenContainers<Length>)
    ensures lengths { marks_of containers.new ≡ with_innermost Surplus (marks_of containers.old) }
    ensures containers { opens_of containers.new ≡ opens_of containers.old }
    ensures broken { containers.new.failed ≡ containers.old.failed }
{
    containers.set_mark(Length::Surplus);
}

// Writes the head of a list.
pub(crate) fn begin_array(encoder: &mut Encoder, length: Option<usize>) -> Result<(), AllocError>
    ensures { OnOk result (encoder.new ≡ encoder.old ++ head_of 4 length) }
{
    match length {
        Some(length) => encoder.array(length),
        None => encoder.begin_array(),
    }
}

// Writes the head of a map.
pub(crate) fn begin_map(encoder: &mut Encoder, length: Option<usize>) -> Result<(), AllocError>
    ensures { OnOk result (encoder.new ≡ encoder.old ++ head_of 5 length) }
{
    match length {
        Some(length) => encoder.map(length),
        None => encoder.begin_map(),
    }
}

// Writes what ends a container: nothing where its length is written.
pub(crate) fn write_end(encoder: &mut Encoder, length: Length) -> Result<(), AllocError>
    ensures { OnOk result (encoder.new ≡ encoder.old ++ end_of length) }
{
    match length {
        Length::Unwritten => encoder.end(),
        Length::Due(_) => Ok(()),
        Length::Surplus => Ok(()),
    }
}
