//! The text of a list of whole numbers, at the end of a body.
ghost use Rattle.std.specs.Prelude.{◌≡◌, ◌++◌, OnOk};
ghost use Rattle.smithy_shapes.specs.Site.{Site};
ghost use Rattle.smithy_schema.specs.Written.{list_of_wholes};
ghost use Rattle.smithy_json_values.specs.Settings.{Settings};
ghost use Rattle.smithy_json_codec.specs.Canonical.{canonical_json};

use crate::digits::push_long;
use crate::output::push_comma;
use std::alloc::AllocError;

/// Adds a list of whole numbers, whose text is the same under all settings and at all places.
pub(crate) fn push_longs(out: &mut Vec<u8>, numbers: &[i64]) -> Result<(), AllocError>
    ensures { (c : Settings) (site : Site) → OnOk result (out.new.items ≡ out.old.items ++ canonical_json c site (list_of_wholes numbers.now)) }
{
    out.push(b'[')?;
    let mut needs_comma = false;
    for number in numbers {
        push_comma(out, needs_comma)?;
        push_long(out, *number)?;
        needs_comma = true;
    }
    out.push(b']')?;
    Ok(())
}
