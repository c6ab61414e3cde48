//! Why a body is refused, as a transcoding says it.
ghost use Rattle.std.specs.Prelude.{◌≢◌};
ghost use Rattle.smithy_schema.specs.Errors.{IsOfReader};
ghost use Rattle.smithy_transcode.specs.Refusal.{IsToldAs};

use crate::wire::TranscodeError;
use smithy_schema::SerdeError;

// The refusal of a transcoding. Its readers and serializers haven't failed before, and what was read is written unless memory is
// wanting.
pub(crate) fn refusal(error: SerdeError) -> TranscodeError
    requires sound { error ≢ SerdeError.Failed }
    requires reading { IsOfReader error }
    ensures { IsToldAs error result }
{
    match error {
        SerdeError::InvalidInput => TranscodeError::InvalidInput,
        SerdeError::TypeMismatch => TranscodeError::InvalidInput,
        SerdeError::TooDeep => TranscodeError::TooDeep,
        SerdeError::TooWide => TranscodeError::TooWide,
        SerdeError::NotCarried => TranscodeError::NotCarried,
        SerdeError::NoMemory => TranscodeError::NoMemory,
        SerdeError::Unsupported
        | SerdeError::Unwritable
        | SerdeError::Missing
        | SerdeError::Failed => unreachable!(),
    }
}
