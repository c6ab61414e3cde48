//! What takes the entries of a container as a reader comes to them.
ghost use Rattle.std.specs.Prelude.{◌≡◌, Bool, true, false, Option, OnOk, option_map, string_bytes};
ghost use Rattle.smithy_shapes.specs.Site.{Site, site_of};
ghost use Rattle.smithy_schema.specs.Nulls.{GetsNoNull};
ghost use Rattle.smithy_schema.specs.Consuming.{MemberCall, ElementCall, EntryCall, Rests, IsMemberOf};

use crate::error::SerdeError;
use crate::read::ShapeDeserializer;
use smithy_shapes::Schema;

/// Takes the members of a structure or a union, a call for each entry.
///
/// A call that answers Ok leaves the value unread, which is skipped then, or reads or skips it whole, and leaves the
/// reader's open containers as they were.
pub trait StructConsumer {
    // What a call does, with whichever reader.
    ghost call: { MemberCall Self };

    // The structures and unions that the consumer can be used for.
    ghost can_take: { Self → Site → Type 0 } = { λ _ _. Unit {0} };

    // What `takes_nulls` answers.
    ghost takes_nulls: { Bool } = { true };

    /// Whether nulls of members come to the consumer. If not, `read_struct` makes the reader drop them while it reads, in all that is read
    /// inside too.
    fn takes_nulls(&self) -> bool
        ensures { result ≡ takes_nulls };

    /// Takes the member that is due, or an entry whose key names none.
    fn member<D: ShapeDeserializer>(
        &mut self,
        member: Option<&Schema<'_>>,
        source: &mut D,
    ) -> Result<(), SerdeError>
        requires due { (D.state source.old).due ≡ true }
        requires sound { (D.state source.old).failed ≡ false }
        requires nulls { GetsNoNull takes_nulls (D.dispatches_nulls (D.settings source.old)) }
        requires allowed { (outer : Site) × can_take self.old outer × IsMemberOf outer (option_map (λ s. site_of s.now) member) }
        ensures same { D.settings source.new ≡ D.settings source.old }
        ensures called { call (D.reading (D.settings source.old)) (option_map (λ s. site_of s.now) member.entry) self.old (D.state source.old) result self.new (D.state source.new) }
        ensures rests { OnOk result (Rests (D.state source.old) (D.state source.new)) }
        ensures allowed { OnOk result ((outer : Site) → can_take self.old outer → can_take self.new outer) };
}

/// Takes the elements of a list, a call for each. It has to take each whole, since a list doesn't go on from an element
/// that was left unread.
pub trait ListConsumer {
    // What a call does, with whichever reader.
    ghost call: { ElementCall Self };

    // What `takes_nulls` answers.
    ghost takes_nulls: { Bool } = { true };

    /// Whether nulls of members come to the consumer. If not, `read_list` makes the reader drop them while it reads, in all that is read
    /// inside too.
    fn takes_nulls(&self) -> bool
        ensures { result ≡ takes_nulls };

    /// Takes the element that is due.
    fn element<D: ShapeDeserializer>(&mut self, source: &mut D) -> Result<(), SerdeError>
        requires due { (D.state source.old).due ≡ true }
        requires sound { (D.state source.old).failed ≡ false }
        requires nulls { GetsNoNull takes_nulls (D.dispatches_nulls (D.settings source.old)) }
        ensures same { D.settings source.new ≡ D.settings source.old }
        ensures called { call (D.reading (D.settings source.old)) self.old (D.state source.old) result self.new (D.state source.new) }
        ensures rests { OnOk result (Rests (D.state source.old) (D.state source.new)) };
}

/// Takes the entries of a map, a call for each, in the order of the input.
pub trait MapConsumer {
    // What a call does, with whichever reader.
    ghost call: { EntryCall Self };

    // What `takes_nulls` answers.
    ghost takes_nulls: { Bool } = { true };

    /// Whether nulls of members come to the consumer. If not, `read_map` makes the reader drop them while it reads, in all that is read
    /// inside too.
    fn takes_nulls(&self) -> bool
        ensures { result ≡ takes_nulls };

    /// Takes the key and the value that is due.
    fn entry<D: ShapeDeserializer>(&mut self, key: String, source: &mut D) -> Result<(), SerdeError>
        requires due { (D.state source.old).due ≡ true }
        requires sound { (D.state source.old).failed ≡ false }
        requires nulls { GetsNoNull takes_nulls (D.dispatches_nulls (D.settings source.old)) }
        ensures same { D.settings source.new ≡ D.settings source.old }
        ensures called { call (D.reading (D.settings source.old)) (string_bytes key) self.old (D.state source.old) result self.new (D.state source.new) }
        ensures rests { OnOk result (Rests (D.state source.old) (D.state source.new)) };
}
