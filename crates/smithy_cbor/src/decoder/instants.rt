//! Dates and instants, in whole seconds.

ghost use Rattle.std.specs.Prelude.{◌≡◌};

use super::Decoder;
use crate::error::{DecodeKind, DeserializeError};
use crate::tagged::date_at;
use smithy_types::DateTime;

impl Decoder<'_> {
    ghost use Rattle.smithy_cbor.specs.DecoderView.{position_of, Decodes, IsKindAt};
    ghost use Rattle.smithy_cbor.specs.Reading.{IsDateAt, IsNoDate, IsInstantAt, IsInstantFault};
    ghost use Rattle.smithy_cbor.specs.declared.error.DecodeKind.TheVariants.{NotCarried};
    ghost use Rattle.std.specs.Prelude.{Some};

    /// The seconds of a date (tag 1), or none where they are a float. The position goes past the date in both cases.
    pub fn date(&mut self) -> Result<Option<i128>, DeserializeError>
        ensures { Decodes IsDateAt (IsKindAt IsNoDate) self.old result self.new }
    {
        match date_at(self.bytes, self.position) {
            Ok((seconds, end)) => {
                self.position = end;
                Ok(seconds)
            }
            Err(e) => Err(self.refused(e)),
        }
    }

    /// Whole seconds after the epoch, under tag 1. A float there is not carried.
    pub fn timestamp(&mut self) -> Result<DateTime, DeserializeError>
        ensures { Decodes IsInstantAt IsInstantFault self.old result self.new }
    {
        let (seconds, end) = match date_at(self.bytes, self.position) {
            Ok(found) => found,
            Err(e) => return Err(self.refused(e)),
        };
        let Some(seconds) = seconds else {
            return Err(self.not_carried());
        };
        match i64::try_from(seconds) {
            Ok(seconds) => {
                self.position = end;
                Ok(DateTime::from_secs(seconds))
            }
            Err(_) => Err(self.out_of_range()),
        }
    }

    // A refusal of a form that is not carried.
    fn not_carried(&self) -> DeserializeError
        ensures { result ≡ record { kind = NotCarried; at = Some (position_of self.now) } }
    {
        DeserializeError::new(DecodeKind::NotCarried, self.position)
    }
}
