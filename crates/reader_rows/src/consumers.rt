//! Consumers that deal with each entry of a container in one way.

ghost use Rattle.std.specs.Prelude.{◌≡◌, Bool, OnOk, true, false};
ghost use Rattle.smithy_schema.specs.Consuming.{Rests};
ghost use Rattle.smithy_declarations.specs.Table.{HasMembers, IsList, IsMap};
ghost use Rattle.smithy_shapes.specs.Site.{site_of, kind_at};

use crate::answers::push_shown;
use crate::places::{place_of, split};
use smithy_rows::Field;
use smithy_schema::{
    ListConsumer, MapConsumer, Schema, SerdeError, ShapeDeserializer, ShapeType, Shapes,
    StructConsumer,
};
use std::alloc::Global;

// Which call answers with an error of the consumer's own, where one does.
const THIRD: u32 = 3;

// What is done with an entry's value.
#[derive(Clone, Copy)]
enum How {
    // No call is made.
    LeaveUnread,
    // It is skipped.
    Skip,
    // It is skipped, and once more.
    SkipTwice,
    // It is skipped, but the third call makes none and answers an error.
    FailAtThird,
    // It is skipped, but the call answers an error where the reader gives nulls of members to its caller.
    SkipWithoutNulls,
}

impl How {
    fn from_word(word: &str) -> Option<How> {
        match word {
            "leave_unread" => Some(How::LeaveUnread),
            "skip_value" => Some(How::Skip),
            "skip_value_twice" => Some(How::SkipTwice),
            "fail_at_third" => Some(How::FailAtThird),
            "skip_without_nulls" => Some(How::SkipWithoutNulls),
            _ => None,
        }
    }
}

// Whether a consumer takes the nulls of members.
trait Nulls: Drop {
    ghost are_taken: { Bool };

    fn are_taken(&self) -> bool
        ensures { result ≡ are_taken };
}

#[derive(Drop)]
struct Taken;

impl Nulls for Taken {
    ghost are_taken = { true };

    fn are_taken(&self) -> bool {
        true
    }
}

#[derive(Drop)]
struct NotTaken;

impl Nulls for NotTaken {
    ghost are_taken = { false };

    fn are_taken(&self) -> bool {
        false
    }
}

// Counts the entries, and deals with each in one way.
#[derive(Drop)]
struct Entries<N> {
    nulls: N,
    how: How,
    calls: u32,
}

// Deals with the value that is due in this call.
fn deal_with<D: ShapeDeserializer>(source: &mut D, how: How, call: u32) -> Result<(), SerdeError>
    requires due { (D.state source.old).due ≡ true }
    ensures same { D.settings source.new ≡ D.settings source.old }
    ensures rests { OnOk result (Rests (D.state source.old) (D.state source.new)) }
{
    match how {
        How::LeaveUnread => Ok(()),
        How::Skip => source.skip_value(),
        How::SkipTwice => {
            source.skip_value()?;
            source.skip_value()
        }
        How::FailAtThird => {
            if call == THIRD {
                return Err(SerdeError::Unsupported);
            }
            source.skip_value()
        }
        How::SkipWithoutNulls => {
            if gives_nulls(source) {
                return Err(SerdeError::Unsupported);
            }
            source.skip_value()
        }
    }
}

// Whether the reader gives nulls of members to its caller.
fn gives_nulls<D: ShapeDeserializer>(source: &mut D) -> bool
    ensures same { D.settings source.new ≡ D.settings source.old }
    ensures stays { D.state source.new ≡ D.state source.old }
{
    let given = source.dispatch_null_members(false);
    source.dispatch_null_members(given);
    given
}

impl<N: Nulls> StructConsumer for Entries<N> {
    ghost call = { λ r member s c result t d. Unit {0} };

    ghost takes_nulls = { N.are_taken };

    fn takes_nulls(&self) -> bool {
        self.nulls.are_taken()
    }

    fn member<D: ShapeDeserializer>(
        &mut self,
        _member: Option<&Schema<'_>>,
        source: &mut D,
    ) -> Result<(), SerdeError> {
        self.calls = self.calls.saturating_add(1);
        deal_with(source, self.how, self.calls)
    }
}

impl<N: Nulls> ListConsumer for Entries<N> {
    ghost call = { λ r s c result t d. Unit {0} };

    ghost takes_nulls = { N.are_taken };

    fn takes_nulls(&self) -> bool {
        self.nulls.are_taken()
    }

    fn element<D: ShapeDeserializer>(&mut self, source: &mut D) -> Result<(), SerdeError> {
        self.calls = self.calls.saturating_add(1);
        deal_with(source, self.how, self.calls)
    }
}

impl<N: Nulls> MapConsumer for Entries<N> {
    ghost call = { λ r key s c result t d. Unit {0} };

    ghost takes_nulls = { N.are_taken };

    fn takes_nulls(&self) -> bool {
        self.nulls.are_taken()
    }

    fn entry<D: ShapeDeserializer>(
        &mut self,
        _key: String,
        source: &mut D,
    ) -> Result<(), SerdeError> {
        self.calls = self.calls.saturating_add(1);
        deal_with(source, self.how, self.calls)
    }
}

// Reads the container that is due, and tells how often its consumer was called.
fn consume<R: ShapeDeserializer, N: Nulls>(
    alloc: Global,
    source: &mut R,
    place: &Schema<'_>,
    how: How,
    nulls: N,
    answers: &mut Vec<Field>,
) -> Option<Result<(), SerdeError>> {
    let mut entries = Entries {
        nulls,
        how,
        calls: 0,
    };
    let answer = match place.shape_type() {
        ShapeType::Structure | ShapeType::Union => source.read_struct(place, &mut entries),
        ShapeType::List => source.read_list(place, &mut entries),
        ShapeType::Map => source.read_map(place, &mut entries),
        _ => return None,
    };
    match answer {
        Ok(()) => Some(counted(alloc, entries.calls, answers)),
        Err(error) => Some(Err(error)),
    }
}

fn counted(alloc: Global, calls: u32, answers: &mut Vec<Field>) -> Result<(), SerdeError> {
    Ok(push_shown(alloc, answers, "calls", calls)?)
}

/// Whether a line of a row reads with a consumer.
pub fn is_consume_call(word: &str) -> bool {
    word == "consume" || word == "consume_present"
}

/// Reads a container with a consumer that deals with each entry in one way, and takes nulls of members or none. There is no answer for
/// a place that is no container, or for a way without a name.
pub fn consume_call<R: ShapeDeserializer>(
    alloc: Global,
    shapes: &Shapes,
    source: &mut R,
    word: &str,
    text: &[u8],
    answers: &mut Vec<Field>,
) -> Option<Result<(), SerdeError>> {
    let (place, way) = split(str::from_utf8(text).ok()?);
    let how = How::from_word(way)?;
    let place = place_of(shapes, place)?;
    if word == "consume_present" {
        return consume(alloc, source, &place, how, NotTaken, answers);
    }
    consume(alloc, source, &place, how, Taken, answers)
}
