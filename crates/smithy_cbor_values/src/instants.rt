//! Instants that stand at a place of an input: dates of whole seconds.

ghost use Rattle.std.specs.Prelude.{◌≡◌, ◌≤◌, length};
ghost use Rattle.smithy_declarations.specs.declared.shape_type.Scalar.TheVariants as scalars;
ghost use Rattle.smithy_declarations.specs.Value.{instant, scalar_value};
ghost use Rattle.smithy_cbor_values.specs.Scalar.{date_says};
ghost use Rattle.smithy_cbor_values.specs.Private.ScalarAtPlace.{MeansAt, UncarriedAt, NothingAt};
ghost use Rattle.smithy_wire.specs.Finding.{MatchFound};
ghost use Rattle.smithy_wire.specs.Rules.{means, no_meaning, uncarried};

use crate::places::{decoder_at, may_end};
use smithy_types::DateTime;
use smithy_wire::Found;

// The instant of a date of so many seconds, which isn't carried where they are a float.
fn instant_of(seconds: Option<i128>) -> Found<DateTime>
    ensures { MatchFound result (λ d. date_says seconds ≡ means (scalar_value (instant d))) (date_says seconds ≡ no_meaning) (date_says seconds ≡ uncarried) }
{
    let Some(seconds) = seconds else {
        return Found::Beyond;
    };
    match i64::try_from(seconds) {
        Ok(seconds) => Found::Value(DateTime::from_secs(seconds)),
        Err(_) => Found::Nothing,
    }
}

/// The instant at the offset, with its end, where a value may end there.
pub fn instant_at(input: &[u8], at: usize, depth: usize) -> Found<(DateTime, usize)>
    requires { at ≤ length input.now }
    ensures { MatchFound result (λ r. MeansAt scalars.Timestamp input.now at depth (instant r.0) r.1)
        (NothingAt scalars.Timestamp input.now at depth) (UncarriedAt scalars.Timestamp input.now at depth) }
{
    let mut decoder = decoder_at(input, at);
    let Ok(seconds) = decoder.date() else {
        return Found::Nothing;
    };
    let end = decoder.position();
    if !may_end(input, end, depth) {
        return Found::Nothing;
    }
    match instant_of(seconds) {
        Found::Value(instant) => Found::Value((instant, end)),
        Found::Nothing => Found::Nothing,
        Found::Beyond => Found::Beyond,
    }
}
