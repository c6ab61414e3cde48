//! The members of a structure or a union, and where they stand by their names.
ghost use Rattle.std.specs.Prelude.{map};
ghost use Rattle.smithy_shapes.specs.Private.MemberNames.{member_name, json_name};
ghost use Rattle.smithy_declarations.specs.Private.Order.{IsOrderOf};

use smithy_declarations::Place;
use smithy_declarations::names::{Named, order_of, position_of};
use std::alloc::{AllocError, Global};

#[derive(Debug, Drop)]
pub(crate) struct MemberShape {
    pub(crate) name: String,
    pub(crate) json_name: Option<String>,
    pub(crate) xml_name: Option<String>,
    pub(crate) flat: bool,
    pub(crate) place: Place,
}

/// The members of a structure or a union in their order, with their positions in the order of their names.
#[derive(Debug, Drop)]
pub(crate) struct MemberList {
    pub(crate) items: Vec<MemberShape>,
    pub(crate) by_name: Vec<usize>,
    pub(crate) by_json_name: Vec<usize>,
    pub(crate) ghost names_in_order: { IsOrderOf (map member_name items.items) by_name.items },
    pub(crate) ghost json_names_in_order: { IsOrderOf (map json_name items.items) by_json_name.items },
}

impl MemberList {
    ghost use Rattle.std.specs.Prelude.{◌≡◌, bytes_eq, position as first_position, IfOk};

    /// A list of these members, in this order.
    pub(crate) fn new(alloc: Global, items: Vec<MemberShape>) -> Result<MemberList, AllocError>
        ensures { IfOk result (λ members. members.items.items ≡ items.items) }
    {
        let by_name = order_of(alloc, &MemberNames(items.as_slice()))?;
        let by_json_name = order_of(alloc, &JsonNames(items.as_slice()))?;
        Ok(MemberList {
            items,
            by_name,
            by_json_name,
        })
    }

    /// The position of a member name.
    pub(crate) fn position_of_name(&self, name: &str) -> Option<usize>
        ensures { result ≡ first_position (λ n. bytes_eq n name.now) (map member_name self.now.items.items) }
    {
        position_of(
            &MemberNames(self.items.as_slice()),
            self.by_name.as_slice(),
            name,
        )
    }

    /// The position of a JSON name.
    pub(crate) fn position_of_json_name(&self, name: &str) -> Option<usize>
        ensures { result ≡ first_position (λ n. bytes_eq n name.now) (map json_name self.now.items.items) }
    {
        position_of(
            &JsonNames(self.items.as_slice()),
            self.by_json_name.as_slice(),
            name,
        )
    }
}

// The member names, in the order of the members.
#[derive(Clone, Copy)]
struct MemberNames<'a>(&'a [MemberShape]);

impl Named for MemberNames<'_> {
    ghost names = { λ s. map member_name s.0.now };

    fn count(&self) -> usize {
        self.0.len()
    }

    fn name_at(&self, position: usize) -> &str {
        self.0[position].name.as_str()
    }
}

// The JSON names, in the order of the members.
#[derive(Clone, Copy)]
struct JsonNames<'a>(&'a [MemberShape]);

impl Named for JsonNames<'_> {
    ghost names = { λ s. map json_name s.0.now };

    fn count(&self) -> usize {
        self.0.len()
    }

    fn name_at(&self, position: usize) -> &str {
        let member = &self.0[position];
        match &member.json_name {
            Some(name) => name.as_str(),
            None => member.name.as_str(),
        }
    }
}
