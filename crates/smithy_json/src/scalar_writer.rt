//! Writing numbers and instants as values.

ghost use Rattle.std.specs.Prelude.{◌≡◌, ◌++◌, ℕ, List, string_bytes, OnOk, OnErr, IfErr, Some, None, is_some, true};
ghost use Rattle.smithy_json.specs.Writer.{value_text};
ghost use Rattle.smithy_json.specs.ValueTexts.{number_text, instant_text};
ghost use Rattle.smithy_types.specs.WrittenDate.{date_text};
ghost use Rattle.smithy_instants.specs.declared.written_date.DateTimeFormatError.TheVariants.{OutOfRange, NoMemory};

use crate::document_writer::push_number;
use crate::writer::JsonValueWriter;
use smithy_types::{DateTime, DateTimeFormatError, Format, Number};
use std::alloc::AllocError;

impl<'a> JsonValueWriter<'a> {
    /// Writes a whole number.
    pub fn number(self, value: Number) -> Result<(), AllocError>
        ensures ok { OnOk result (string_bytes self.exit.0.now ≡ value_text self.entry ++ number_text value) }
        ensures err { OnErr result (string_bytes self.exit.0.now ≡ value_text self.entry) }
    {
        push_number(self.output, value)
    }

    /// Writes an instant: for `EpochSeconds` a number, for the other forms a string.
    ///
    /// What the form has no room for is cut off.
    pub fn date_time(self, date_time: &DateTime, format: Format) -> Result<(), DateTimeFormatError>
        ensures ok { OnOk result ((text : List ℕ) × (date_text format date_time.now ≡ Some text)
            × (string_bytes self.exit.0.now ≡ value_text self.entry ++ instant_text format text)) }
        ensures err { OnErr result (string_bytes self.exit.0.now ≡ value_text self.entry) }
        ensures range { IfErr result (λ e. e ≡ OutOfRange → date_text format date_time.now ≡ None) }
        // An instant that leaves the range takes no memory.
        ensures memory { IfErr result (λ e. e ≡ NoMemory → is_some (date_text format date_time.now) ≡ true) }
    {
        let text = date_time.fmt(self.allocator(), format)?;
        match self.instant(text.as_str(), format) {
            Ok(()) => Ok(()),
            Err(_) => Err(DateTimeFormatError::NoMemory),
        }
    }

    // Writes a text of an instant of this form.
    fn instant(self, text: &str, format: Format) -> Result<(), AllocError>
        ensures ok { OnOk result (string_bytes self.exit.0.now ≡ value_text self.entry ++ instant_text format text.now) }
        ensures err { OnErr result (string_bytes self.exit.0.now ≡ value_text self.entry) }
    {
        match format {
            Format::EpochSeconds => self.write_raw_value(text),
            Format::DateTime => self.string(text),
            Format::DateTimeWithOffset => self.string(text),
            Format::HttpDate => self.string(text),
        }
    }
}
