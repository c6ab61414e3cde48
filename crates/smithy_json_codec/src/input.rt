//! The input of a reader, with the settings under which it is read.
ghost use Rattle.std.specs.Prelude.{◌≡◌};

use crate::deserializer::JsonDeserializer;
use smithy_json_values::input::Input;

impl<'a> JsonDeserializer<'_, 'a> {
    // What is read, under the settings.
    #[inline(always)]
    pub(crate) fn input(&self) -> Input<'a>
        ensures { result ≡ record { bytes = self.now.walk.input; settings = self.now.settings } }
    {
        Input {
            bytes: self.walk.input,
            settings: self.settings,
        }
    }
}
