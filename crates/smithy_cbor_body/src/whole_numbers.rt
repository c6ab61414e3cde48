//! The encodings of whole numbers, and of lists of them.
ghost use Rattle.std.specs.Prelude.{◌≡◌, ◌++◌, Bool, map, OnOk};
ghost use Rattle.smithy_declarations.specs.Value.{scalar_value, whole, values_of};
ghost use Rattle.smithy_shapes.specs.Site.{Site};
ghost use Rattle.smithy_cbor.specs.Written.{big_integer_bytes};
ghost use Rattle.smithy_cbor_body.specs.Canonical.{element_bytes};
ghost use Rattle.smithy_cbor_body.specs.Lengths.{container_bytes};

use crate::lengths::{begin_array, begun, write_end};
use smithy_cbor::Encoder;
use std::alloc::AllocError;

/// Writes a whole number.
#[tactic(auto, using(crate::proofs::WrittenLeaves::long_is_integer))]
pub(crate) fn write_whole_number(encoder: &mut Encoder, value: i64) -> Result<(), AllocError>
    ensures { OnOk result (encoder.new ≡ encoder.old ++ big_integer_bytes value) }
{
    encoder.long(value)
}

// Writes whole numbers, one after another.
fn write_elements(encoder: &mut Encoder, numbers: &[i64]) -> Result<(), AllocError>
    ensures { (definite : Bool) (site : Site) → OnOk result (encoder.new ≡ encoder.old ++ element_bytes definite site (values_of (map (λ n. scalar_value (whole n)) numbers.now))) }
{
    for number in numbers {
        write_whole_number(encoder, *number)?;
    }
    Ok(())
}

/// Writes a list of whole numbers, with this length in its head or with none. Its encoding is the same at all places.
pub(crate) fn write_whole_numbers(
    encoder: &mut Encoder,
    length: Option<usize>,
    numbers: &[i64],
) -> Result<(), AllocError>
    ensures { (definite : Bool) (site : Site) → OnOk result (encoder.new ≡ encoder.old ++ container_bytes 4 length (element_bytes definite site (values_of (map (λ n. scalar_value (whole n)) numbers.now)))) }
{
    begin_array(encoder, length)?;
    write_elements(encoder, numbers)?;
    write_end(encoder, begun(length))
}
