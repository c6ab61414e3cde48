//! The settings of a codec, as the lines of a row tell them.
use smithy_cbor_codec::CborCodecSettings;
use smithy_rows::Row;

// The greatest depth, where a row tells one.
fn max_depth(row: &Row) -> Option<u32> {
    row.text("max_depth")?.parse::<u32>().ok()
}

/// Those of a CBOR codec: strict, but for what the row tells.
pub fn cbor_settings(row: &Row) -> CborCodecSettings {
    let settings = CborCodecSettings::default()
        .enforce_strictness(row.bytes("lenient").is_none())
        .use_definite_lengths(row.bytes("use_definite_lengths").is_some());
    match max_depth(row) {
        Some(depth) => settings.with_max_depth(depth),
        None => settings,
    }
}
