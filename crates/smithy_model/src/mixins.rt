//! What shapes take over from their mixins (Smithy 2.0, "Mixins").
ghost use Rattle.std.specs.Prelude.{◌≡◌, ◌<◌, ◌||◌, ◌&&◌, ℕ, option_map, List, not, None, Some, [], map, length, slice_get, true, false, OnOk, IfOk, IfErr, IfSome};
ghost use Rattle.std.specs.List.{fold, AllZip};
ghost use Rattle.std.specs.Option.{option_or};
ghost use Rattle.smithy_model.specs.Model as specs;
ghost use Rattle.smithy_model.specs.Mixins.{takes_mixins, members_of, with_members, redefined, with_member, has_other_target, agree, nothing, with_parts, hands_on_sparse, hands_on_time, with_gathered, gathered, AreMixed, is_done, IsDone};
ghost use Rattle.smithy_model.specs.Mixing.{TakesMixins, IsWaiting, IsHeldUp, IsSettledAt, RefusesOne, count_of_waiting};
ghost use Rattle.smithy_model.specs.Placing.{position_of, place_in, ArePlaces};
ghost use Rattle.smithy_model.specs.Reading.{ids_of};
ghost use Rattle.smithy_model.specs.Faults.{RefusesMixins};
ghost use Rattle.smithy_model.specs.Views.{kind_view, member_view, shape_view, numbers_view, gathered_view};

use crate::fault::ModelFault;
use crate::mixin_order::take_in_order;
use crate::model::{Kind, Member, Shape};
use crate::numbers::Numbers;
use std::alloc::{AllocError, Global};
use std::collections::BTreeMap;

/// What was gathered for a shape.
#[derive(Drop)]
pub(crate) struct Gathered<'a> {
    pub(crate) members: Vec<Member<'a>>,
    // The place of the first member of each name.
    pub(crate) places: BTreeMap<&'a str, usize>,
    // No member was added that has another target than the earlier one of its name.
    pub(crate) agrees: bool,
    pub(crate) is_sparse: bool,
    pub(crate) time_format: Option<&'a str>,
}

// The members of a structure or a union.
fn members_of<'s, 'a>(kind: &'s Kind<'a>) -> &'s [Member<'a>]
    ensures { map member_view result.now ≡ members_of (kind_view kind.now) }
{
    match kind {
        Kind::Structure(members) => members.as_slice(),
        Kind::Union(members) => members.as_slice(),
        _ => &[],
    }
}

// The text that is given, and else the earlier one.
fn text_of<'a>(given: Option<&'a str>, earlier: Option<&'a str>) -> Option<&'a str>
    ensures { option_map (λ t. t.now) result ≡ option_or (option_map (λ t. t.now) given.entry) (option_map (λ t. t.now) earlier.entry) }
{
    match given {
        Some(text) => Some(text),
        None => earlier,
    }
}

fn either(given: bool, earlier: bool) -> bool
    ensures { result ≡ (given || earlier) }
{
    given || earlier
}

fn both(earlier: bool, given: bool) -> bool
    ensures { result ≡ (earlier && given) }
{
    earlier && given
}

// A member that is defined again: what it isn't given again, it has from the earlier definition.
fn redefined<'a>(earlier: &Member<'a>, given: &Member<'a>) -> Member<'a>
    ensures { member_view result ≡ redefined (member_view earlier.now) (member_view given.now) }
{
    Member {
        name: given.name,
        target: given.target,
        number: given.number,
        json_name: text_of(given.json_name, earlier.json_name),
        xml_name: text_of(given.xml_name, earlier.xml_name),
        ec2_name: text_of(given.ec2_name, earlier.ec2_name),
        is_flattened: either(given.is_flattened, earlier.is_flattened),
        time_format: text_of(given.time_format, earlier.time_format),
        in_headers: either(given.in_headers, earlier.in_headers),
        in_request_line: either(given.in_request_line, earlier.in_request_line),
        in_status_line: either(given.in_status_line, earlier.in_status_line),
        is_payload: either(given.is_payload, earlier.is_payload),
    }
}

// The place of the first member of this name.
fn place_of<'a>(places: &BTreeMap<&'a str, usize>, name: &'a str) -> Option<usize>
    ensures { result ≡ place_in places.now name.now }
{
    Some(*places.get(name)?)
}

// Defines the member at this place again, and tells whether it had the same target.
fn put_again<'a>(members: &mut Vec<Member<'a>>, place: usize, member: &Member<'a>) -> bool
    requires { position_of member.now.name.now (map member_view members.now.items) ≡ Some place }
    ensures put { map member_view members.new.items ≡ with_member (map member_view members.old.items) (member_view member.now) }
    ensures agrees { result ≡ not (has_other_target (map member_view members.old.items) (member_view member.now)) }
{
    let agrees = members[place].target == member.target;
    members[place] = redefined(&members[place], member);
    agrees
}

// Adds a member, in the place of an earlier one of its name where there is one, and tells whether that one has its target.
fn put<'a>(
    members: &mut Vec<Member<'a>>,
    places: &mut BTreeMap<&'a str, usize>,
    member: &Member<'a>,
) -> Result<bool, AllocError>
    requires { ArePlaces (map member_view members.now.items) places.now }
    ensures put { OnOk result (map member_view members.new.items ≡ with_member (map member_view members.old.items) (member_view member.now)) }
    ensures agrees { IfOk result (λ agrees. agrees ≡ not (has_other_target (map member_view members.old.items) (member_view member.now))) }
    ensures places { OnOk result (ArePlaces (map member_view members.new.items) places.new) }
{
    if let Some(place) = place_of(places, member.name) {
        return Ok(put_again(members, place, member));
    }
    places.insert(member.name, members.len())?;
    members.push(*member)?;
    Ok(true)
}

// Adds members, one after the other, and tells whether they agree with the earlier ones of their names.
fn put_all<'a>(
    members: &mut Vec<Member<'a>>,
    places: &mut BTreeMap<&'a str, usize>,
    more: &[Member<'a>],
) -> Result<bool, AllocError>
    requires { ArePlaces (map member_view members.now.items) places.now }
    ensures put { OnOk result (map member_view members.new.items ≡ fold with_member (map member_view members.old.items) (map member_view more.now)) }
    ensures agree { IfOk result (λ agrees. agrees ≡ agree (map member_view members.old.items) (map member_view more.now)) }
    ensures places { OnOk result (ArePlaces (map member_view members.new.items) places.new) }
{
    let mut agrees = true;
    for member in more {
        agrees = both(agrees, put(members, places, member)?);
    }
    Ok(agrees)
}

// Nothing yet.
fn nothing<'a>(alloc: Global) -> Gathered<'a>
    ensures nothing { gathered_view result ≡ nothing }
    ensures places { ArePlaces (map member_view result.members.items) result.places }
{
    Gathered {
        members: Vec::new(alloc),
        places: BTreeMap::new(alloc),
        agrees: true,
        is_sparse: false,
        time_format: None,
    }
}

// Whether a mixin makes a shape sparse that takes it in.
fn hands_on_sparse(mixin: &Shape<'_>) -> bool
    ensures { result ≡ hands_on_sparse (shape_view mixin.now) }
{
    mixin.is_sparse && !mixin.has_local_sparse
}

// The time format that a mixin gives to a shape that takes it in.
fn hands_on_time<'a>(mixin: &Shape<'a>) -> Option<&'a str>
    ensures { option_map (λ t. t.now) result ≡ hands_on_time (shape_view mixin.now) }
{
    if mixin.has_local_time {
        return None;
    }
    mixin.time_format
}

// Adds what a shape has.
fn add_parts<'a>(
    gathered: &mut Gathered<'a>,
    kind: &Kind<'a>,
    is_sparse: bool,
    time_format: Option<&'a str>,
) -> Result<(), AllocError>
    requires { ArePlaces (map member_view gathered.now.members.items) gathered.now.places }
    ensures added { OnOk result (gathered_view gathered.new ≡ with_parts (gathered_view gathered.old) (kind_view kind.now) is_sparse (option_map (λ t. t.now) time_format.entry)) }
    ensures places { OnOk result (ArePlaces (map member_view gathered.new.members.items) gathered.new.places) }
{
    let more = members_of(kind);
    let agrees = put_all(&mut gathered.members, &mut gathered.places, more)?;
    gathered.agrees = both(gathered.agrees, agrees);
    gathered.is_sparse = either(is_sparse, gathered.is_sparse);
    gathered.time_format = text_of(time_format, gathered.time_format);
    Ok(())
}

// Whether the mixins of the shape of this number were taken in.
fn is_done(done: &[bool], number: usize) -> bool
    ensures { result ≡ is_done done.now number }
{
    match done.get(number) {
        Some(is_done) => *is_done,
        None => false,
    }
}

// The shape of this number, where its mixins were taken in.
fn done_at<'s, 'a>(shapes: &'s [Shape<'a>], done: &[bool], number: usize) -> Option<&'s Shape<'a>>
    ensures there { IfSome result (λ s. (slice_get (map shape_view shapes.now) number ≡ Some (shape_view s.now)) × (is_done done.now number ≡ true)) }
    ensures waiting { result ≡ None → number < length shapes.now → is_done done.now number ≡ false }
{
    if !is_done(done, number) {
        return None;
    }
    shapes.get(number)
}

// What the mixins of a shape have, in order, and then the shape itself: none where a mixin isn't done yet.
fn gather<'a>(
    alloc: Global,
    shapes: &[Shape<'a>],
    numbers: &Numbers<'a>,
    done: &[bool],
    shape: &Shape<'a>,
) -> Result<Option<Gathered<'a>>, ModelFault<'a>>
    requires { numbers_view numbers.now ≡ ids_of (map shape_view shapes.now) }
    ensures gathered { IfOk result (λ found. IfSome found (λ g. (mixins : List specs.Shape) × AllZip (IsDone (map shape_view shapes.now) done.now) (shape_view shape.now).mixins mixins
        × (gathered_view g ≡ gathered (shape_view shape.now) mixins) × (g.agrees ≡ true))) }
    ensures held_up { IfOk result (λ found. found ≡ None → IsHeldUp (map shape_view shapes.now) done.now (shape_view shape.now)) }
    ensures refused { IfErr result (λ fault. (number : ℕ) → slice_get (map shape_view shapes.now) number ≡ Some (shape_view shape.now)
        → RefusesOne (map shape_view shapes.now) done.now (shape_view shape.now) fault) }
{
    let mut gathered = nothing(alloc);
    for id in &shape.mixins {
        let Some(number) = numbers.number(*id) else {
            return Err(ModelFault::BadMixin(shape.id));
        };
        let Some(mixin) = done_at(shapes, done, number) else {
            return Ok(None);
        };
        add_parts(
            &mut gathered,
            &mixin.kind,
            hands_on_sparse(mixin),
            hands_on_time(mixin),
        )?;
    }
    add_parts(
        &mut gathered,
        &shape.kind,
        shape.is_sparse,
        shape.time_format,
    )?;
    if !gathered.agrees {
        return Err(ModelFault::BadMixin(shape.id));
    }
    Ok(Some(gathered))
}

// Gives a structure or a union other members. Shapes of other kinds take none over.
fn replace_members<'a>(kind: &mut Kind<'a>, members: Vec<Member<'a>>)
    ensures { kind_view kind.new ≡ with_members (kind_view kind.old) (map member_view members.entry.items) }
{
    match kind {
        Kind::Structure(own) => *own = members,
        Kind::Union(own) => *own = members,
        Kind::Simple(_) => {}
        Kind::Float => {}
        Kind::EventStream => {}
        Kind::List(_) => {}
        Kind::Map(_) => {}
    }
}

// Gives a shape what was gathered for it.
fn give<'a>(shape: &mut Shape<'a>, gathered: Gathered<'a>)
    ensures { shape_view shape.new ≡ with_gathered (shape_view shape.old) (gathered_view gathered.entry) }
{
    replace_members(&mut shape.kind, gathered.members);
    shape.is_sparse = gathered.is_sparse;
    shape.time_format = gathered.time_format;
}

/// Takes in the mixins of the shape of this number, where they are done and it isn't, and tells whether it did.
pub(crate) fn take_in<'a>(
    alloc: Global,
    shapes: &mut Vec<Shape<'a>>,
    numbers: &Numbers<'a>,
    done: &mut Vec<bool>,
    number: usize,
) -> Result<bool, ModelFault<'a>>
    requires { numbers_view numbers.now ≡ ids_of (map shape_view shapes.now.items) }
    ensures taken { TakesMixins (map shape_view shapes.old.items) (map shape_view shapes.new.items) done.old.items done.new.items result }
    ensures fewer { IfOk result (λ found. found ≡ true → count_of_waiting done.new.items < count_of_waiting done.old.items) }
    ensures held_up { IfOk result (λ found. found ≡ false → (shapes.new ≡ shapes.old) × (done.new ≡ done.old)
        × IsSettledAt (map shape_view shapes.old.items) done.old.items number) }
{
    if number >= shapes.len() || number >= done.len() {
        return Ok(false);
    }
    if done[number] {
        return Ok(false);
    }
    let Some(gathered) = gather(alloc, shapes, numbers, done, &shapes[number])? else {
        return Ok(false);
    };
    give(&mut shapes[number], gathered);
    done[number] = true;
    Ok(true)
}

// Takes in the mixins of each shape whose mixins are done, and tells whether there was one.
fn take_in_some<'a>(
    alloc: Global,
    shapes: &mut Vec<Shape<'a>>,
    numbers: &Numbers<'a>,
    done: &mut Vec<bool>,
) -> Result<bool, ModelFault<'a>>
    requires { numbers_view numbers.now ≡ ids_of (map shape_view shapes.now.items) }
    ensures taken { TakesMixins (map shape_view shapes.old.items) (map shape_view shapes.new.items) done.old.items done.new.items result }
    ensures fewer { IfOk result (λ found. found ≡ true → count_of_waiting done.new.items < count_of_waiting done.old.items) }
    ensures held_up { IfOk result (λ found. found ≡ false → (k : ℕ) → IsSettledAt (map shape_view shapes.new.items) done.new.items k) }
{
    let mut found = false;
    for number in 0..shapes.len() {
        if !take_in(alloc, shapes, numbers, done, number)? {
            continue;
        }
        found = true;
    }
    Ok(found)
}

// Takes in mixins until no shape is left whose mixins are done. Behind `take_in_order` the first turn is meant to be the last; that it finds
// none says that those which are left wait for one another.
fn take_in_all<'a>(
    alloc: Global,
    shapes: &mut Vec<Shape<'a>>,
    numbers: &Numbers<'a>,
    done: &mut Vec<bool>,
) -> Result<(), ModelFault<'a>>
    requires { numbers_view numbers.now ≡ ids_of (map shape_view shapes.now.items) }
    ensures taken { TakesMixins (map shape_view shapes.old.items) (map shape_view shapes.new.items) done.old.items done.new.items result }
    ensures held_up { OnOk result ((k : ℕ) → IsSettledAt (map shape_view shapes.new.items) done.new.items k) }
{
    while take_in_some(alloc, shapes, numbers, done)? {}
    Ok(())
}

// The id of a shape whose mixins aren't done.
fn waiting<'a>(shapes: &[Shape<'a>], done: &[bool]) -> Option<&'a str>
    ensures one { IfSome result (λ id. IsWaiting (map shape_view shapes.now) done.now id.now) }
    ensures none { result ≡ None → (k : ℕ) → k < length shapes.now → is_done done.now k ≡ true }
{
    for number in 0..shapes.len() {
        if !is_done(done, number) {
            return Some(shapes[number].id);
        }
    }
    None
}

// For each shape whether it has no mixins to take in.
fn complete_at_first(alloc: Global, shapes: &[Shape<'_>]) -> Result<Vec<bool>, AllocError>
    ensures { IfOk result (λ done. done.items ≡ map (λ (s : specs.Shape). not (takes_mixins s)) (map shape_view shapes.now)) }
{
    let mut done = Vec::with_capacity(alloc, shapes.len())?;
    for shape in shapes {
        done.push(shape.mixins.is_empty())?;
    }
    Ok(done)
}

/// Gives each shape what its mixins have.
pub(crate) fn take_in_mixins<'a>(
    alloc: Global,
    shapes: &mut Vec<Shape<'a>>,
) -> Result<(), ModelFault<'a>>
    ensures mixed { OnOk result (AreMixed (map shape_view shapes.old.items) (map shape_view shapes.new.items)) }
    ensures refused { IfErr result (RefusesMixins (map shape_view shapes.old.items)) }
{
    let mut done = complete_at_first(alloc, shapes)?;
    let Some(_) = waiting(shapes, &done) else {
        return Ok(());
    };
    let numbers = Numbers::of(alloc, shapes)?;
    take_in_order(alloc, shapes, &numbers, &mut done)?;
    take_in_all(alloc, shapes, &numbers, &mut done)?;
    match waiting(shapes, &done) {
        Some(id) => Err(ModelFault::BadMixin(id)),
        None => Ok(()),
    }
}
