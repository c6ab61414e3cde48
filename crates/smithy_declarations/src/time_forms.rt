//! The forms in which instants stand in texts.
ghost use Rattle.std.specs.Prelude.{◌≡◌};
ghost use Rattle.smithy_declarations.specs.TimeForms.{format_of};

use crate::shape_type::TimestampFormat;
use smithy_types::Format;

impl TimestampFormat {
    /// The form of the texts that are read and written.
    pub fn format(self) -> Format
        ensures { result ≡ format_of self }
    {
        match self {
            TimestampFormat::EpochSeconds => Format::EpochSeconds,
            TimestampFormat::DateTime => Format::DateTime,
            TimestampFormat::HttpDate => Format::HttpDate,
        }
    }
}
