//! Numbers as bytes, the highest first.

ghost use Rattle.std.specs.Prelude.{◌≡◌, ◌<◌, ◌^◌};
ghost use Rattle.std.specs.Option.{SomeIff};
ghost use Rattle.smithy_cbor.specs.Scalar.{big_endian};
ghost use Rattle.smithy_cbor.specs.Written.{without_leading_zeros};

/// The number of the bytes, where it is one of 128 bits.
pub(crate) fn big_endian(bytes: &[u8]) -> Option<u128>
    ensures { SomeIff result (big_endian bytes.now < 2 ^ 128) (big_endian bytes.now) }
{
    let mut value: u128 = 0;
    for byte in bytes {
        value = value.checked_mul(256)?.checked_add(u128::from(*byte))?;
    }
    Some(value)
}

/// The bytes without the zeros at their front.
pub(crate) fn without_leading_zeros(bytes: &[u8]) -> &[u8]
    ensures { result.now ≡ without_leading_zeros bytes.now }
{
    for at in 0..bytes.len() {
        if bytes[at] != 0 {
            return &bytes[at..];
        }
    }
    &[]
}
