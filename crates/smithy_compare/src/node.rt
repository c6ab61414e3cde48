//! A value or a document where it is kept, and what it is beside its parts.
ghost use Rattle.std.specs.Prelude.{◌≡◌};
ghost use Rattle.smithy_compare.specs.FirstPath.{same_top};
ghost use Rattle.smithy_types.specs.Document.{whole_document};
ghost use Rattle.smithy_types.specs.DocumentView.{document_view};
ghost use Rattle.smithy_types.specs.Number.{whole_number};
ghost use Rattle.smithy_tree.specs.Nodes.{rare_value};
ghost use Rattle.smithy_tree.specs.Seen.{IsSound, HoldsSlot, view};
ghost use Rattle.smithy_compare.specs.Tree.{tree, tree_of, document_tree};
ghost use Rattle.smithy_compare.specs.Private.Nodes.{node_tree, top_of, parts_of};
ghost use Rattle.smithy_compare.specs.Private.Standing.{NodeStands, PartsStand};

use crate::parts::Parts;
use smithy_tree::{Node as TreeNode, Pool, Rare, Slot};
use smithy_types::{DateTime, Document, Number};

/// A value, or a document that stands in one.
#[derive(Clone, Copy)]
pub enum Node<'v> {
    /// A value of a pool.
    Value(&'v Pool<'v>, &'v Slot),
    /// A whole number of a list of such.
    Number(i64),
    /// A document.
    Document(&'v Document),
}

/// What a value or a document is beside its parts.
#[derive(Clone, Copy, PartialEq)]
pub enum Top<'v> {
    /// False or true.
    Boolean(bool),
    /// A whole number.
    Whole(i128),
    /// A text.
    Text(&'v str),
    /// Any bytes.
    Bytes(&'v [u8]),
    /// A mantissa, times ten to an exponent.
    Decimal(i128, i64),
    /// An instant.
    Instant(DateTime),
    /// A null in a list or a map.
    Null,
    /// A list.
    List,
    /// A map.
    Map,
    /// A structure.
    Structure,
    /// A union, with the position of its member.
    Union(u32),
    /// A null of a document.
    DocumentNull,
    /// False or true in a document.
    DocumentBoolean(bool),
    /// A number of a document, whichever variant has it.
    DocumentNumber(i128),
    /// A text of a document.
    DocumentText(&'v str),
    /// An array.
    Array,
    /// An object.
    Object,
}

impl<'v> Node<'v> {
    // What stands at its top, and its parts.
    #[inline(always)]
    pub(crate) fn split(&self) -> (Top<'v>, Parts<'v>)
        requires stands { NodeStands self.now }
        ensures shows { tree (top_of result.0) (parts_of result.1) ≡ node_tree self.now }
        ensures stands { PartsStand result.1 }
    {
        match self {
            Node::Value(pool, slot) => split_value(*pool, *slot),
            Node::Number(number) => (Top::Whole(i128::from(*number)), Parts::Nothing),
            Node::Document(document) => split_document(*document),
        }
    }
}

// The top of a value, and its parts.
#[inline(always)]
fn split_value<'v>(pool: &'v Pool<'v>, slot: &'v Slot) -> (Top<'v>, Parts<'v>)
    requires sound { IsSound pool.now }
    requires holds { HoldsSlot pool.now slot.now }
    ensures shows { tree (top_of result.0) (parts_of result.1) ≡ tree_of (view pool.now slot.now.node) }
    ensures stands { PartsStand result.1 }
{
    match slot.node {
        TreeNode::Boolean(value) => (Top::Boolean(value), Parts::Nothing),
        TreeNode::Whole(number) => (Top::Whole(i128::from(number)), Parts::Nothing),
        TreeNode::Timestamp(nanos, secs) => {
            let instant = DateTime::from_secs_and_nanos(secs, nanos);
            (Top::Instant(instant), Parts::Nothing)
        }
        TreeNode::Text(at, size) => (Top::Text(pool.text(at, size)), Parts::Nothing),
        TreeNode::Bytes(at, size) => (Top::Bytes(pool.bytes(at, size)), Parts::Nothing),
        TreeNode::List(at, count) => {
            let elements = pool.children(at, count);
            (Top::List, Parts::Elements(pool, 0, elements))
        }
        TreeNode::Numbers(at, count) => (Top::List, Parts::Numbers(0, pool.numbers(at, count))),
        TreeNode::Map(at, count) => (Top::Map, Parts::Entries(pool, pool.children(at, count))),
        TreeNode::Structure(at, count) => {
            let members = pool.children(at, count);
            (Top::Structure, Parts::Members(pool, members))
        }
        TreeNode::Union(at) => {
            let child = pool.child(at);
            (Top::Union(child.first), Parts::Only(pool, child))
        }
        TreeNode::Null => (Top::Null, Parts::Nothing),
        TreeNode::Rare(place) => split_rare(pool.rare(place)),
    }
}

// The top of a value that takes more room than a node has, and its parts.
fn split_rare(rare: &Rare) -> (Top<'_>, Parts<'_>)
    ensures shows { tree (top_of result.0) (parts_of result.1) ≡ tree_of (rare_value rare.now) }
    ensures stands { PartsStand result.1 }
{
    match rare {
        Rare::Large(number) => (Top::Whole(*number), Parts::Nothing),
        Rare::Decimal(mantissa, exponent) => {
            (Top::Decimal(*mantissa, *exponent), Parts::Nothing)
        }
        Rare::Document(document) => split_document(document),
    }
}

// The top of a document, and its parts.
pub(crate) fn split_document(document: &Document) -> (Top<'_>, Parts<'_>)
    ensures shows { tree (top_of result.0) (parts_of result.1) ≡ document_tree (whole_document (document_view document.now)) }
    ensures stands { PartsStand result.1 }
{
    match document {
        Document::Null => (Top::DocumentNull, Parts::Nothing),
        Document::Bool(value) => (Top::DocumentBoolean(*value), Parts::Nothing),
        Document::Number(number) => (Top::DocumentNumber(whole(*number)), Parts::Nothing),
        Document::String(content) => (Top::DocumentText(content.as_str()), Parts::Nothing),
        Document::Array(items) => (Top::Array, Parts::Items(0, items.as_slice())),
        Document::Object(properties) => (Top::Object, Parts::Properties(properties.iter())),
    }
}

// The number, whichever variant has it.
fn whole(number: Number) -> i128
    ensures { result ≡ whole_number number }
{
    match number {
        Number::PosInt(n) => i128::from(n),
        Number::NegInt(n) => i128::from(n),
    }
}

impl Top<'_> {
    // Two are one.
    pub(crate) fn is(&self, other: &Top<'_>) -> bool
        ensures { result ≡ same_top (top_of self.now) (top_of other.now) }
    {
        self == other
    }
}
