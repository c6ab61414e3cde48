//! The numbers of shapes by their ids.
ghost use Rattle.std.specs.Prelude.{◌≡◌, ◌++◌, ◌∷◌, [], None, Some, true, false, map, option_map, slice_get, bytes_eq, IfOk, OnOk, IfSome};
ghost use Rattle.std.specs.List.{list_any};
ghost use Rattle.smithy_model.specs.Reading.{ids_of};
ghost use Rattle.smithy_model.specs.Views.{shape_view, numbers_view};

use crate::model::Shape;
use std::alloc::{AllocError, Global};

/// The ids of shapes, and the number of each.
#[derive(Drop)]
pub(crate) struct Numbers<'a> {
    pub(crate) ids: Vec<&'a str>,
    // Each id behind its hash, with its number, in order. Ids of one namespace begin alike, so hashes are told apart sooner; and
    // where all hashes are equal, the order of the ids still finds one in a few steps.
    places: Vec<((u64, &'a str), usize)>,
}

// The hash of an id (FNV-1a).
fn hash_of(id: &str) -> u64 {
    let mut hash = 0xcbf2_9ce4_8422_2325;
    for byte in id.as_bytes() {
        hash = (hash ^ *byte as u64).wrapping_mul(0x0000_0100_0000_01b3);
    }
    hash
}

// The id at a place.
fn id_at<'a>(ids: &[&'a str], number: usize) -> Option<&'a str>
    ensures { option_map (λ t. t.now) result ≡ slice_get (map (λ t. t.now) ids.now) number }
{
    Some(*ids.get(number)?)
}

// Whether the id at a place is this.
fn has_at(ids: &[&str], number: usize, id: &str) -> bool
    ensures { result ≡ true → slice_get (map (λ t. t.now) ids.now) number ≡ Some id.now }
{
    match id_at(ids, number) {
        Some(other) => other == id,
        None => false,
    }
}

/// The place of the first of these ids that is this.
pub fn place_of(ids: &[&str], id: &str) -> Option<usize>
    ensures found { IfSome result (λ number. slice_get (map (λ t. t.now) ids.now) number ≡ Some id.now) }
    ensures unknown { result ≡ None → list_any (λ other. bytes_eq other id.now) (map (λ t. t.now) ids.now) ≡ false }
{
    for number in 0..ids.len() {
        if ids[number] == id {
            return Some(number);
        }
    }
    None
}

impl<'a> Numbers<'a> {
    /// The numbers of these shapes.
    pub(crate) fn of(alloc: Global, shapes: &[Shape<'a>]) -> Result<Numbers<'a>, AllocError>
        ensures { IfOk result (λ numbers. numbers_view numbers ≡ ids_of (map shape_view shapes.now)) }
    {
        let mut numbers = Numbers {
            ids: Vec::with_capacity(alloc, shapes.len())?,
            places: Vec::with_capacity(alloc, shapes.len())?,
        };
        for shape in shapes {
            numbers.add(shape.id)?;
        }
        numbers.places.sort_unstable();
        Ok(numbers)
    }

    // Adds an id under the next number.
    fn add(&mut self, id: &'a str) -> Result<(), AllocError>
        ensures { OnOk result (numbers_view self.new ≡ numbers_view self.old ++ id.now ∷ []) }
    {
        self.places.push(((hash_of(id), id), self.ids.len()))?;
        self.ids.push(id)?;
        Ok(())
    }

    /// The number under this id. That none is there is not proved to mean that no shape has the id.
    pub(crate) fn place(&self, id: &'a str) -> Option<usize> {
        let key = (hash_of(id), id);
        match self.places.binary_search_by_key(&key, |place| place.0) {
            Ok(at) => Some(self.places[at].1),
            Err(_) => None,
        }
    }

    /// The number of the shape of this id. What isn't found by its hash is looked for among all, so that `None` says that no
    /// shape has this id.
    pub(crate) fn number(&self, id: &'a str) -> Option<usize>
        ensures found { IfSome result (λ number. slice_get (numbers_view self.now) number ≡ Some id.now) }
        ensures unknown { result ≡ None → list_any (λ other. bytes_eq other id.now) (numbers_view self.now) ≡ false }
    {
        if let Some(number) = self.place(id) {
            if has_at(&self.ids, number, id) {
                return Some(number);
            }
        }
        place_of(&self.ids, id)
    }
}
