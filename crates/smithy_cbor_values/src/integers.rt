//! Integers at offsets of an input, by the bytes of their heads (RFC 8949, sections 3 and 3.1).

ghost use Rattle.std.specs.Prelude.{◌≡◌, ◌≤◌, ◌<◌, ◌∷◌, ◌/◌, Some, FitsSigned, length, IfSome, IfNone, ◌⊎◌, ℕ, ℤ};
ghost use Rattle.std.specs.Int.{w64};
ghost use Rattle.cbor_item.specs.Head.{BeginsWithHead, IsCutHead, IsBrokenHead};
ghost use Rattle.smithy_cbor.specs.Private.HeadNumber.{number_of};
ghost use Rattle.smithy_cbor.specs.Reading.{IsIntegerAt};

// The initial bytes of unsigned integers, major type 0, are below this one, and those of negative ones, major type 1, below the next.
const NEGATIVE: u8 = 0x20;

const BYTES: u8 = 0x40;

// The argument of the head that begins with this initial byte, and the length of the head.
#[inline(always)]
fn argument_of(initial: u8, following: &[u8]) -> Option<(u64, usize)>
    requires { initial < 64 }
    ensures found { IfSome result (λ r. BeginsWithHead (initial ∷ following.now) (record { major = initial / 32; argument = Some r.0; length = r.1 })) }
    ensures none { IfNone result (IsCutHead (initial ∷ following.now) ⊎ IsBrokenHead (initial ∷ following.now)) }
{
    match (initial % 32, following) {
        (information @ 0..=23, _) => Some((u64::from(information), 1)),
        (24, [a, ..]) => Some((u64::from(*a), 2)),
        (25, [a, b, ..]) => Some((u64::from(u16::from_be_bytes([*a, *b])), 3)),
        (26, [a, b, c, d, ..]) => Some((u64::from(u32::from_be_bytes([*a, *b, *c, *d])), 5)),
        (27, [a, b, c, d, e, f, g, h, ..]) => Some((
            u64::from_be_bytes([*a, *b, *c, *d, *e, *f, *g, *h]),
            9,
        )),
        // The input ends within the head.
        (24..=27, _) => None,
        // No head of an integer begins so.
        _ => None,
    }
}

// The number of the head with this initial byte and this argument, within 64 bits.
#[inline(always)]
fn signed(initial: u8, argument: u64) -> Option<i64>
    requires { initial < 64 }
    ensures value { IfSome result (λ z. z ≡ number_of (initial / 32) argument) }
    ensures fits { IfSome result (FitsSigned w64) }
    ensures none { IfNone result (¬ (FitsSigned w64 (number_of (initial / 32) argument))) }
{
    if argument > i64::MAX as u64 {
        return None;
    }
    let value = argument as i64;
    if initial < NEGATIVE {
        return Some(value);
    }
    Some(-1 - value)
}

// The integer of 64 bits at the offset, with its end.
#[inline(always)]
pub(crate) fn integer_at(input: &[u8], at: usize) -> Option<(i64, usize)>
    requires { at ≤ length input.now }
    ensures found { IfSome result (λ r. IsIntegerAt r.0 input.now at r.1) }
    ensures fits { IfSome result (λ r. FitsSigned w64 r.0) }
    ensures none { IfNone result ((z : ℤ) (e : ℕ) → IsIntegerAt z input.now at e → FitsSigned w64 z → ⊥) }
{
    let [initial, following @ ..] = &input[at..] else {
        return None;
    };
    if *initial >= BYTES {
        return None;
    }
    let (argument, length) = argument_of(*initial, following)?;
    let value = signed(*initial, argument)?;
    Some((value, at + length))
}
