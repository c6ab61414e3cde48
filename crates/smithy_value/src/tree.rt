//! A tree of values, as a reader builds it and a writer goes through it.
ghost use Rattle.std.specs.Prelude.{◌≡◌, ℕ, List, [], ◌∷◌, ◌++◌, OnOk, IfOk, IfErr};
ghost use Rattle.smithy_schema.specs.declared.error.SerdeError.TheVariants.{NoMemory};
ghost use Rattle.smithy_declarations.specs.Value.{Value, scalar_value, boolean, whole, text, bytes, decimal, instant, list, map, structure, union, null_element, document_value, values_of, MapEntries, no_map_entries, put_entry, MemberValues, no_member_values, put_member};
ghost use Rattle.smithy_tree.specs.Items.{whole_values};
ghost use Rattle.smithy_types.specs.Document.{whole_document};
ghost use Rattle.smithy_types.specs.DocumentView.{document_view};
ghost use Rattle.smithy_value.specs.Building.{IsMade, KeepsLawfully, GrowsLawfully};
ghost use Rattle.smithy_value.specs.Tree.{part_view, PartStands};

use crate::entries::{Entries, Members};
use smithy_schema::{BytesPiece, SerdeError, TextPiece};
use smithy_types::{DateTime, Document};
use std::alloc::Global;

/// What a tree is at its root.
#[derive(Drop)]
pub enum Part<'v, T> {
    /// False or true.
    Boolean(bool),
    /// A whole number.
    Whole(i128),
    /// A text.
    Text(&'v str),
    /// Any bytes.
    Bytes(&'v [u8]),
    /// A mantissa, times ten to an exponent.
    Decimal(i128, i64),
    /// An instant.
    Timestamp(DateTime),
    /// The elements of a list, in their order.
    List(&'v [T]),
    /// The elements of a list that are all whole numbers of 64 bits.
    Numbers(&'v [i64]),
    /// The entries of a map, in the order of their keys.
    Map(Entries<'v, T>),
    /// The members of a structure, in the order of their positions.
    Structure(Members<'v, T>),
    /// The member of a union by its position, and its value.
    Union(u32, &'v T),
    /// A null among the elements of a sparse list or the values of a sparse map.
    Null,
    /// A document.
    Document(&'v Document),
}

/// Trees that are built from their leaves on, and gone through from their root on. What a tree doesn't keep itself stands in this
/// store, which only grows.
pub trait Trees: Sized {
    /// One tree.
    type Tree: Drop;

    /// A text, as the tree is given it.
    type Text: TextPiece;

    /// Any bytes, as the tree is given them.
    type Bytes: BytesPiece;

    /// The elements of a list that is half built.
    type Elements: Drop;

    /// The entries of a map that is half built.
    type Entries: Drop;

    /// The members of a structure that is half built.
    type Members: Drop;

    // Trees that are read from this input may stand in the store.
    ghost sound: { Self → List ℕ → Type 0 };

    // The second store has grown from the first, and what is half built is as it was.
    ghost keeps: { Self → Self → Type 0 };

    ghost keeps_lawfully: { KeepsLawfully sound keeps };

    // The tree stands in the store.
    ghost stands: { Self → Self.Tree → Type 0 };

    // What it stands for there.
    ghost view: { Self → Self.Tree → Value };

    // The key of a tree that is kept as an entry of a map, and the position of one that is kept as a member.
    ghost key_of: { Self → Self.Tree → List ℕ };

    ghost position_of: { Self.Tree → ℕ };

    // The second store has grown from the first by these elements, entries or members alone; and what they stand for.
    ghost begun_elements: { Self → Self → Self.Elements → Type 0 };

    ghost view_elements: { Self → Self.Elements → List Value };

    ghost elements_grow_lawfully: { GrowsLawfully sound keeps begun_elements view_elements };

    ghost begun_entries: { Self → Self → Self.Entries → Type 0 };

    ghost view_entries: { Self → Self.Entries → MapEntries };

    ghost entries_grow_lawfully: { GrowsLawfully sound keeps begun_entries view_entries };

    ghost begun_members: { Self → Self → Self.Members → Type 0 };

    ghost view_members: { Self → Self.Members → MemberValues };

    ghost members_grow_lawfully: { GrowsLawfully sound keeps begun_members view_members };

    fn boolean(value: bool) -> Self::Tree
        ensures stands { (p : Self) → stands p result }
        ensures shows { (p : Self) → view p result ≡ scalar_value (boolean value) };

    fn whole(number: i64) -> Self::Tree
        ensures stands { (p : Self) → stands p result }
        ensures shows { (p : Self) → view p result ≡ scalar_value (whole number) };

    fn timestamp(value: DateTime) -> Self::Tree
        ensures stands { (p : Self) → stands p result }
        ensures shows { (p : Self) → view p result ≡ scalar_value (instant value) };

    fn null() -> Self::Tree
        ensures stands { (p : Self) → stands p result }
        ensures shows { (p : Self) → view p result ≡ null_element };

    fn text(&mut self, content: Self::Text) -> Result<Self::Tree, SerdeError>
        requires stands { (i : List ℕ) × sound self.old i × Self.Text.is_placed i content }
        ensures ok { (i : List ℕ) → sound self.old i → IfOk result (IsMade keeps stands view self.old self.new (scalar_value (text (Self.Text.bytes_of i content)))) }
        ensures err { IfErr result (λ e. e ≡ NoMemory) };

    fn bytes(&mut self, content: Self::Bytes) -> Result<Self::Tree, SerdeError>
        requires stands { (i : List ℕ) × sound self.old i × Self.Bytes.is_placed i content }
        ensures ok { (i : List ℕ) → sound self.old i → IfOk result (IsMade keeps stands view self.old self.new (scalar_value (bytes (Self.Bytes.items_of i content)))) }
        ensures err { IfErr result (λ e. e ≡ NoMemory) };

    fn big_integer(&mut self, number: i128) -> Result<Self::Tree, SerdeError>
        requires sound { (i : List ℕ) × sound self.old i }
        ensures ok { IfOk result (IsMade keeps stands view self.old self.new (scalar_value (whole number))) }
        ensures err { IfErr result (λ e. e ≡ NoMemory) };

    fn decimal(&mut self, mantissa: i128, exponent: i64) -> Result<Self::Tree, SerdeError>
        requires sound { (i : List ℕ) × sound self.old i }
        ensures ok { IfOk result (IsMade keeps stands view self.old self.new (scalar_value (decimal mantissa exponent))) }
        ensures err { IfErr result (λ e. e ≡ NoMemory) };

    fn document(&mut self, value: Document) -> Result<Self::Tree, SerdeError>
        requires sound { (i : List ℕ) × sound self.old i }
        ensures ok { IfOk result (IsMade keeps stands view self.old self.new (document_value (whole_document (document_view value)))) }
        ensures err { IfErr result (λ e. e ≡ NoMemory) };

    fn no_elements(&self, alloc: Global) -> Self::Elements
        requires sound { (i : List ℕ) × sound self.now i }
        ensures begun { begun_elements self.now self.now result }
        ensures none { view_elements self.now result ≡ [] };

    /// Puts an element behind all others.
    fn push_element(
        &mut self,
        elements: &mut Self::Elements,
        value: Self::Tree,
    ) -> Result<(), SerdeError>
        requires sound { (i : List ℕ) × sound self.old i }
        requires begun { (p : Self) × begun_elements p self.old elements.old }
        requires stands { stands self.old value }
        ensures begun { OnOk result ((p : Self) → begun_elements p self.old elements.old → begun_elements p self.new elements.new) }
        ensures ok { OnOk result (view_elements self.new elements.new ≡ view_elements self.old elements.old ++ view self.old value ∷ []) }
        ensures err { IfErr result (λ e. e ≡ NoMemory) };

    /// Puts whole numbers behind all others, in their order.
    fn push_numbers(
        &mut self,
        elements: &mut Self::Elements,
        numbers: &[i64],
    ) -> Result<(), SerdeError>
        requires begun { (p : Self) × (i : List ℕ) × sound p i × begun_elements p self.old elements.old }
        ensures begun { OnOk result ((p : Self) → begun_elements p self.old elements.old → begun_elements p self.new elements.new) }
        ensures ok { OnOk result (view_elements self.new elements.new ≡ view_elements self.old elements.old ++ whole_values numbers.now) }
        ensures err { IfErr result (λ e. e ≡ NoMemory) }
    {
        for number in numbers {
            self.push_element(elements, Self::whole(*number))?;
        }
        Ok(())
    }

    fn list(&mut self, elements: Self::Elements) -> Result<Self::Tree, SerdeError>
        requires sound { (i : List ℕ) × sound self.old i }
        requires begun { (p : Self) × begun_elements p self.old elements }
        ensures ok { (p : Self) → begun_elements p self.old elements → IfOk result (IsMade keeps stands view p self.new (list (values_of (view_elements self.old elements)))) }
        ensures err { IfErr result (λ e. e ≡ NoMemory) };

    fn no_entries(&self, alloc: Global) -> Self::Entries
        requires sound { (i : List ℕ) × sound self.now i }
        ensures begun { begun_entries self.now self.now result }
        ensures none { view_entries self.now result ≡ no_map_entries };

    /// Puts an entry at its key. The last value of a key counts.
    fn set_entry(
        &mut self,
        alloc: Global,
        entries: &mut Self::Entries,
        key: Self::Text,
        value: Self::Tree,
    ) -> Result<(), SerdeError>
        requires key { (i : List ℕ) × sound self.old i × Self.Text.is_placed i key }
        requires begun { (p : Self) × begun_entries p self.old entries.old }
        requires stands { stands self.old value }
        ensures begun { OnOk result ((p : Self) → begun_entries p self.old entries.old → begun_entries p self.new entries.new) }
        ensures ok { (i : List ℕ) → sound self.old i → OnOk result (view_entries self.new entries.new ≡ put_entry (Self.Text.bytes_of i key) (view self.old value) (view_entries self.old entries.old)) }
        ensures err { IfErr result (λ e. e ≡ NoMemory) };

    fn map(&mut self, alloc: Global, entries: Self::Entries) -> Result<Self::Tree, SerdeError>
        requires sound { (i : List ℕ) × sound self.old i }
        requires begun { (p : Self) × begun_entries p self.old entries }
        ensures ok { (p : Self) → begun_entries p self.old entries → IfOk result (IsMade keeps stands view p self.new (map (view_entries self.old entries))) }
        ensures err { IfErr result (λ e. e ≡ NoMemory) };

    fn no_members(&self, alloc: Global) -> Self::Members
        requires sound { (i : List ℕ) × sound self.now i }
        ensures begun { begun_members self.now self.now result }
        ensures none { view_members self.now result ≡ no_member_values };

    /// Puts a member at its position, from 0. The last value of a member counts.
    fn set_member(
        &mut self,
        members: &mut Self::Members,
        index: u32,
        value: Self::Tree,
    ) -> Result<(), SerdeError>
        requires sound { (i : List ℕ) × sound self.old i }
        requires begun { (p : Self) × begun_members p self.old members.old }
        requires stands { stands self.old value }
        ensures begun { OnOk result ((p : Self) → begun_members p self.old members.old → begun_members p self.new members.new) }
        ensures ok { OnOk result (view_members self.new members.new ≡ put_member index (view self.old value) (view_members self.old members.old)) }
        ensures err { IfErr result (λ e. e ≡ NoMemory) };

    fn structure(&mut self, alloc: Global, members: Self::Members) -> Result<Self::Tree, SerdeError>
        requires sound { (i : List ℕ) × sound self.old i }
        requires begun { (p : Self) × begun_members p self.old members }
        ensures ok { (p : Self) → begun_members p self.old members → IfOk result (IsMade keeps stands view p self.new (structure (view_members self.old members))) }
        ensures err { IfErr result (λ e. e ≡ NoMemory) };

    fn union(
        &mut self,
        alloc: Global,
        index: u32,
        value: Self::Tree,
    ) -> Result<Self::Tree, SerdeError>
        requires sound { (i : List ℕ) × sound self.old i }
        requires stands { stands self.old value }
        ensures ok { IfOk result (IsMade keeps stands view self.old self.new (union index (view self.old value))) }
        ensures err { IfErr result (λ e. e ≡ NoMemory) };

    /// What the tree is at its root.
    fn part<'v>(&'v self, tree: &'v Self::Tree) -> Part<'v, Self::Tree>
        requires sound { (i : List ℕ) × sound self.now i }
        requires stands { stands self.now tree.now }
        ensures shows { view self.now tree.now ≡ part_view (view self.now) (key_of self.now) position_of result }
        ensures parts { PartStands (stands self.now) result };

    /// The key of a tree that is kept as an entry of a map.
    fn key<'v>(&'v self, tree: &'v Self::Tree) -> &'v str
        requires sound { (i : List ℕ) × sound self.now i }
        requires stands { stands self.now tree.now }
        ensures { result.now ≡ key_of self.now tree.now };

    /// The position of a tree that is kept as a member of a structure.
    fn position(tree: &Self::Tree) -> u32
        ensures { result ≡ position_of tree.now };
}
