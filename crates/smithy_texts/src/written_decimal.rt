//! The canonical text of a decimal.
ghost use Rattle.std.specs.Prelude.{◌≡◌, ◌++◌, OnOk};
ghost use Rattle.smithy_texts.specs.Decimal.{exponent_text, decimal_text};

use crate::append_text::AppendText;
use itoa::Buffer;
use std::alloc::AllocError;

/// Adds the canonical text of a decimal: its mantissa, and behind an `e` its exponent where this isn't zero. After a refusal a
/// front of it may stand behind what was there.
pub fn push_decimal<T: AppendText>(
    out: &mut T,
    mantissa: i128,
    exponent: i64,
) -> Result<(), AllocError>
    ensures { OnOk result (T.bytes out.new ≡ T.bytes out.old ++ decimal_text mantissa exponent) }
{
    let mut buffer = Buffer::new();
    out.append_text(buffer.format(mantissa))?;
    push_exponent(out, exponent)
}

fn push_exponent<T: AppendText>(out: &mut T, exponent: i64) -> Result<(), AllocError>
    ensures { OnOk result (T.bytes out.new ≡ T.bytes out.old ++ exponent_text exponent) }
{
    if exponent == 0 {
        return Ok(());
    }
    let mut buffer = Buffer::new();
    out.append_text("e")?;
    out.append_text(buffer.format(exponent))
}
