//! The settings of codecs of JSON, and what makes them.
#![tactic(auto)]

mod builder;
mod codec_settings;
mod settings;

pub use builder::JsonCodecSettingsBuilder;
pub use codec_settings::JsonCodecSettings;
pub use settings::Settings;
