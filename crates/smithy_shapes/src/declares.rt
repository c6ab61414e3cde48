//! Whether a table declares the members that a type of a client's own has.
ghost use Rattle.std.specs.Prelude.{◌≡◌, ◌↔◌, IsTrue, map, string_bytes};
ghost use Rattle.smithy_shapes.specs.Declares.{row_of, row_told, Declares, Holds};
ghost use Rattle.smithy_shapes.specs.Site.{site_of};
ghost use Rattle.smithy_shapes.specs.Views.{member_of};

use crate::members::MemberShape;
use crate::schema::Schema;
use smithy_declarations::{ShapeType, Target};

// Whether the member has this name and this target.
fn is_member(member: &MemberShape, name: &str, target: Target) -> bool
    ensures { IsTrue result ↔ (row_of (member_of member.now) ≡ (name.now, target)) }
{
    member.name.as_str() == name && member.place.target == target
}

// Whether the members have these names and targets, in this order.
fn are_members(members: &[MemberShape], rows: &[(&str, Target)]) -> bool
    ensures { IsTrue result ↔ (map row_of (map member_of members.now) ≡ map row_told rows.now) }
{
    let mut left = members.iter();
    for (name, target) in rows {
        let Some(member) = left.next() else {
            return false;
        };
        if !is_member(member, name, *target) {
            return false;
        }
    }
    left.len() == 0
}

impl<'a> Schema<'a> {
    /// What the place is, without its time form.
    pub fn target(&self) -> Target
        ensures { result ≡ (site_of self.now).place.target }
    {
        self.place.target
    }

    /// A shape of this kind stands at the place, and its members have these names and targets, in this order. A shape that has no
    /// members has none of any name.
    pub fn declares(&self, kind: ShapeType, rows: &[(&str, Target)]) -> bool
        ensures { IsTrue result ↔ Declares kind (map row_told rows.now) (site_of self.now) }
    {
        if self.shape_type() != kind {
            return false;
        }
        match self.members_at_place() {
            Some(members) => are_members(members.items.as_slice(), rows),
            None => rows.is_empty(),
        }
    }

    /// A list or a map, as this kind tells, stands at the place. Its elements or values are this target, and none of them may be null.
    pub fn holds(&self, kind: ShapeType, inner: Target) -> bool
        ensures { IsTrue result ↔ Holds (site_of self.now).table (site_of self.now).place.target kind inner }
    {
        if self.shape_type() != kind || self.is_sparse() {
            return false;
        }
        match self.member() {
            Some(place) => place.target() == inner,
            None => false,
        }
    }
}
