//! What is found in a scalar.
ghost use Rattle.std.specs.Prelude.{◌≡◌};
ghost use Rattle.smithy_lint.specs.Private.Verdicts.{unless, finding_of};

use crate::finding::Kind;
use smithy_wire::Found;

// That a scalar is no value of its kind, unless it is one.
pub(crate) fn unless(stands: bool) -> Option<Kind>
    ensures { result ≡ unless stands }
{
    if stands { None } else { Some(Kind::Mismatch) }
}

// What is found in a number, by what a search answered.
pub(crate) fn finding_of<T: Drop>(found: Found<T>, beyond: Kind) -> Option<Kind>
    ensures { result ≡ finding_of found beyond }
{
    match found {
        Found::Value(_) => None,
        Found::Nothing => Some(Kind::Mismatch),
        Found::Beyond => Some(beyond),
    }
}
