//! An input, with the settings under which it is read.
use smithy_json_settings::Settings;

/// The bytes of an input, and the settings under which they are read.
#[derive(Clone, Copy)]
pub struct Input<'a> {
    pub bytes: &'a [u8],
    pub settings: Settings,
}
