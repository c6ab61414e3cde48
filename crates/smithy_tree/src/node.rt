//! The nodes of a tree.
use smithy_types::Document;

/// One value. A text, bytes and the children of a container are named by where they begin and how many they are.
#[derive(Clone, Copy, Drop)]
pub enum Node {
    /// False or true.
    Boolean(bool),
    /// A whole number that a signed integer of 64 bits holds.
    Whole(i64),
    /// The nanoseconds of an instant past its second, and its seconds from 1970-01-01T00:00:00Z on.
    Timestamp(u32, i64),
    /// A text.
    Text(u32, u32),
    /// Any bytes.
    Bytes(u32, u32),
    /// The elements of a list, in their order.
    List(u32, u32),
    /// The whole numbers of a list: where they begin among the numbers, and how many.
    Numbers(u32, u32),
    /// The entries of a map, in the order of their keys, as `close_entries` leaves them.
    Map(u32, u32),
    /// The members of a structure, in the order of their positions, as `close_members` leaves them.
    Structure(u32, u32),
    /// The member of a union: the one child that begins here.
    Union(u32),
    /// A null among the elements of a sparse list or the values of a sparse map.
    Null,
    /// A value that no node holds, by its number.
    Rare(u32),
}

/// A value that takes more room than a node has.
#[derive(Drop)]
pub enum Rare {
    /// A whole number that no signed integer of 64 bits holds.
    Large(i128),
    /// A mantissa, times ten to an exponent.
    Decimal(i128, i64),
    /// A document. Of its numbers the whole number alone counts.
    Document(Document),
}

/// A child with its label: for an entry of a map where its key begins and the key's length, for a member its position and 0.
#[derive(Clone, Copy, Drop)]
pub struct Slot {
    pub first: u32,
    pub second: u32,
    pub node: Node,
}

impl Slot {
    ghost use Rattle.std.specs.Prelude.{◌≡◌};

    /// A node without a label.
    #[inline(always)]
    pub fn of(node: Node) -> Slot
        ensures node { result.node ≡ node }
        ensures first { result.first ≡ 0 }
        ensures second { result.second ≡ 0 }
    {
        Slot {
            first: 0,
            second: 0,
            node,
        }
    }
}
