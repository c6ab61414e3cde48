//! The places in declarations.
ghost use Rattle.std.specs.Prelude.{◌≡◌, ◌<◌, length, map, option_map, slice_index_or, string_bytes};
ghost use Rattle.smithy_declarations.specs.Acceptance.{places_of, place_of_member};
ghost use Rattle.smithy_declarations.specs.DeclViews.{decl_of, member_decl_of, place_words_of};

use crate::decl::{Decl, MemberDecl};

/// A place, as words name it.
#[derive(Clone, Copy)]
pub struct PlaceWords<'a> {
    pub target: &'a str,
    pub time: Option<&'a str>,
}

impl<'a> PlaceWords<'a> {
    fn new(target: &'a String, time: &'a Option<String>) -> PlaceWords<'a>
        ensures { place_words_of result
            ≡ record { target = string_bytes target.now; time = option_map string_bytes time.now } }
    {
        PlaceWords {
            target: target.as_str(),
            time: time.as_deref(),
        }
    }
}

/// The places of a declaration, by their positions, from 0.
#[derive(Clone, Copy)]
pub struct Places<'a>(pub &'a Decl);

impl<'a> Places<'a> {
    /// How many places the declaration has: one for each member, or that of the elements or the values.
    pub fn count(&self) -> usize
        ensures { result ≡ length (places_of (decl_of self.now.0.now).form) }
    {
        match self.0 {
            Decl::Structure { members, .. } => members.len(),
            Decl::Union { members, .. } => members.len(),
            Decl::List { .. } => 1,
            Decl::Map { .. } => 1,
        }
    }

    /// The words of the place at a position, from 0.
    pub fn at(&self, position: usize) -> PlaceWords<'a>
        requires { position < length (places_of (decl_of self.now.0.now).form) }
        ensures { place_words_of result ≡ slice_index_or (places_of (decl_of self.now.0.now).form) position (place_words_of result) }
    {
        match self.0 {
            Decl::Structure { members, .. } => member_place(members.as_slice(), position),
            Decl::Union { members, .. } => member_place(members.as_slice(), position),
            Decl::List { target, time, .. } => PlaceWords::new(target, time),
            Decl::Map { target, time, .. } => PlaceWords::new(target, time),
        }
    }
}

// The place of the member at a position.
fn member_place(members: &[MemberDecl], position: usize) -> PlaceWords<'_>
    requires { position < length members.now }
    ensures { place_words_of result
        ≡ slice_index_or (map place_of_member (map member_decl_of members.now)) position (place_words_of result) }
{
    let member = &members[position];
    PlaceWords::new(&member.target, &member.time)
}
