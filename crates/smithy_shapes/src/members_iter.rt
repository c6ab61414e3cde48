//! The members at a place, one after the other.
ghost use Rattle.std.specs.Prelude.{◌≡◌, ◌≤◌, length};
ghost use Rattle.smithy_declarations.specs.Table.{members_of};
ghost use Rattle.smithy_shapes.specs.Site.{site_of, kind_at};

use crate::schema::Schema;

/// An iterator over the members of a structure or a union, in order.
#[derive(Clone, Copy)]
pub struct Members<'a> {
    schema: Schema<'a>,
    position: u32,
    end: u32,
    ghost not_past_end: { position ≤ end },
    ghost counted: { end ≡ length (members_of (kind_at (site_of schema))) },
}

impl<'a> Schema<'a> {
    ghost use Rattle.smithy_shapes.specs.Site.{member_sites};
    ghost use Rattle.smithy_shapes.specs.MembersLeft.{members_left};

    /// The members of the structure or the union, in order: none where the place is of another kind.
    pub fn members(&self) -> Members<'a>
        ensures { members_left result ≡ member_sites (site_of self.now) }
    {
        let end = match self.members_at_place() {
            Some(members) => members.items.len() as u32,
            None => 0,
        };
        Members {
            schema: *self,
            position: 0,
            end,
        }
    }
}

impl<'a> Iterator for Members<'a> {
    ghost use Rattle.std.specs.Iterator.{YieldsFirstBy, item_count};
    ghost use Rattle.smithy_shapes.specs.MembersLeft.{members_left};

    type Item = Schema<'a>;

    ghost next_gives = { YieldsFirstBy site_of members_left };

    ghost remaining = { item_count members_left };

    fn next(&mut self) -> Option<Schema<'a>> {
        if self.position == self.end {
            return None;
        }
        let member = self.schema.member_at(self.position);
        self.position += 1;
        member
    }
}
