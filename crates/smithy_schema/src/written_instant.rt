//! The text of an instant that is written.
ghost use Rattle.std.specs.Prelude.{◌≡◌, Some, is_some, true, false, IfOk, IfErr, IsErrOf, string_bytes};
ghost use Rattle.smithy_instants.specs.WrittenDate.{date_text};
ghost use Rattle.smithy_schema.specs.Errors.{IsFault};
ghost use Rattle.smithy_declarations.specs.TimeForms.{format_of, form_writes};
ghost use Rattle.smithy_declarations.specs.Value.{instant};
ghost use Rattle.smithy_schema.specs.declared.error.SerdeError.TheVariants.{NoMemory, Unwritable, Failed};

use crate::error::SerdeError;
use smithy_shapes::TimestampFormat;
use smithy_types::{DateTime, DateTimeFormatError};
use std::alloc::Global;

/// The text of an instant in a form: `Unwritable` where the form can't write it.
pub fn instant_text(
    alloc: Global,
    form: TimestampFormat,
    value: &DateTime,
) -> Result<String, SerdeError>
    ensures ok { IfOk result (λ text. date_text (format_of form) value.now ≡ Some (string_bytes text)) }
    ensures refused { IfErr result (λ e. IsFault e → (e ≡ Unwritable) × (form_writes form (instant value.now) ≡ false)) }
    // An instant that the form can't write takes no memory.
    ensures memory { IfErr result (λ e. e ≡ NoMemory → is_some (date_text (format_of form) value.now) ≡ true) }
    ensures sound { IsErrOf result Failed → ⊥ }
{
    match value.fmt(alloc, form.format()) {
        Ok(text) => Ok(text),
        Err(DateTimeFormatError::OutOfRange) => Err(SerdeError::Unwritable),
        Err(DateTimeFormatError::NoMemory) => Err(SerdeError::NoMemory),
    }
}
