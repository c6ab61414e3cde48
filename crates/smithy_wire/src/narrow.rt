//! Whole numbers that were found in 64 bits, in the fewer bits of their kind.
ghost use Rattle.std.specs.Prelude.{◌≡◌, IfSome, IfNone};
ghost use Rattle.smithy_wire.specs.Narrowing.{IsNarrowed, IsWider};

/// The number in 8 bits, where it fits them, with its end.
pub fn byte_found(found: Option<(i64, usize)>) -> Option<(i8, usize)>
    ensures some { IfSome result (IsNarrowed 8 found) }
    ensures none { IfNone result (IsWider 8 found) }
{
    let (number, end) = found?;
    match i8::try_from(number) {
        Ok(byte) => Some((byte, end)),
        Err(_) => None,
    }
}

/// The number in 16 bits, where it fits them, with its end.
pub fn short_found(found: Option<(i64, usize)>) -> Option<(i16, usize)>
    ensures some { IfSome result (IsNarrowed 16 found) }
    ensures none { IfNone result (IsWider 16 found) }
{
    let (number, end) = found?;
    match i16::try_from(number) {
        Ok(short) => Some((short, end)),
        Err(_) => None,
    }
}

/// The number in 32 bits, where it fits them, with its end.
pub fn integer_found(found: Option<(i64, usize)>) -> Option<(i32, usize)>
    ensures some { IfSome result (IsNarrowed 32 found) }
    ensures none { IfNone result (IsWider 32 found) }
{
    let (number, end) = found?;
    match i32::try_from(number) {
        Ok(integer) => Some((integer, end)),
        Err(_) => None,
    }
}
