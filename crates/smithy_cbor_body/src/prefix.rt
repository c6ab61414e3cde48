//! What a serializer adds at the beginning of each structure and union.
ghost use Rattle.std.specs.Prelude.{◌≡◌, ℕ, List, Result, Ok, Err, OnOk, IfErr, IsErrOf, false};
ghost use Rattle.smithy_schema.specs.declared.error.SerdeError.{SerdeError};
ghost use Rattle.smithy_schema.specs.declared.error.SerdeError.TheVariants.{Failed};
ghost use Rattle.smithy_schema.specs.Errors.{IsFault};
ghost use Rattle.smithy_shapes.specs.Site.{Site, site_of};
ghost use Rattle.smithy_cbor_body.specs.Body.{body_of, body_has_failed};
ghost use Rattle.smithy_cbor_body.specs.Prefixes.{IsInStructure, AreEntries, behind, no_prefix};

use crate::body::CborBody;
use smithy_schema::{Schema, SerdeError};

/// Entries that a serializer of CBOR writes at the beginning of each structure and union, in front of its members.
pub trait StructPrefix {
    // What is added for a structure at a site, or why none is begun there.
    ghost adds: { Self → Site → Result (List ℕ) SerdeError };

    // Whole entries: keys and their values in turn.
    ghost entries: { (self : Self) (site : Site) → AreEntries (adds self site) };

    /// Writes them for the structure or union of this schema, which is open. The containers that are open stay so.
    fn write(&self, schema: &Schema<'_>, sink: &mut CborBody) -> Result<(), SerdeError>
        requires sound { body_has_failed sink.old ≡ false }
        requires inside { IsInStructure (body_of sink.old) }
        ensures ok { OnOk result (behind (adds self.now (site_of schema.now)) (body_of sink.old) ≡ Ok (body_of sink.new)) }
        ensures sound { OnOk result (body_has_failed sink.new ≡ false) }
        ensures refused { IfErr result (λ e. IsFault e → adds self.now (site_of schema.now) ≡ Err e) }
        ensures own { IsErrOf result Failed → ⊥ };
}

/// No entries.
#[derive(Clone, Copy, Debug)]
pub struct NoPrefix;

impl StructPrefix for NoPrefix {
    ghost use Rattle.smithy_cbor_body.specs.PrefixNesting.{nothing_is_entries};

    ghost adds = { λ p. no_prefix };

    ghost entries = { λ p site. nothing_is_entries };

    fn write(&self, _schema: &Schema<'_>, _sink: &mut CborBody) -> Result<(), SerdeError> {
        Ok(())
    }
}
