//! How a reader goes on in a structure or a union.
ghost use Rattle.std.specs.Prelude.{◌≡◌, option_map};
ghost use Rattle.smithy_shapes.specs.Site.{site_of};
ghost use Rattle.smithy_schema.specs.Consuming.{site_in};

use smithy_shapes::Schema;

/// Where a structure or a union goes on: to a member that the table knows, to another entry, or to its end.
#[derive(Clone, Copy, Debug)]
pub enum Step<'s> {
    /// The value of this member is due.
    Member(Schema<'s>),
    /// The value of an entry is due whose key names no member.
    Unknown,
    /// The structure or the union has ended.
    End,
}

impl<'s> Step<'s> {
    /// The member whose value is due, if it is one.
    pub fn member(&self) -> Option<&Schema<'s>>
        ensures { option_map (λ s. site_of s.now) result ≡ site_in self.now }
    {
        match self {
            Step::Member(member) => Some(member),
            Step::Unknown | Step::End => None,
        }
    }
}
