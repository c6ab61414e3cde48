//! Lists of names, and where a name stands in one.
ghost use Rattle.std.specs.Prelude.{◌≡◌, ◌<◌, ℕ, List, [], length, slice_index_or, bytes_eq, position as first_position, IfOk};
ghost use Rattle.smithy_declarations.specs.Names.{has_equal_texts};
ghost use Rattle.smithy_declarations.specs.Private.Order.{IsOrderOf};

use std::alloc::{AllocError, Global};

// How many names are looked through one by one at most. For so few that takes less time than a search in their order.
const FEW: usize = 8;

/// Names by their positions, from 0.
pub trait Named {
    ghost names: { Self → List (List ℕ) };

    fn count(&self) -> usize
        ensures { result ≡ length (names self.now) };

    fn name_at(&self, position: usize) -> &str
        requires { position < length (names self.now) }
        ensures { result.now ≡ slice_index_or (names self.now) position [] };
}

/// The positions in the order of the names.
pub fn order_of<N: Named>(alloc: Global, named: &N) -> Result<Vec<usize>, AllocError>
    ensures { IfOk result (λ order. IsOrderOf (N.names named.now) order.items) }
{
    let mut entries = Vec::with_capacity(alloc, named.count())?;
    for position in 0..named.count() {
        entries.push((named.name_at(position), position))?;
    }
    entries.sort()?;
    entries.iter().map(|entry| entry.1).collect(alloc)
}

/// The first position of a name.
pub fn position_of<N: Named>(named: &N, order: &[usize], name: &str) -> Option<usize>
    requires { IsOrderOf (N.names named.now) order.now }
    ensures { result ≡ first_position (λ n. bytes_eq n name.now) (N.names named.now) }
{
    if named.count() <= FEW {
        return position_among_few(named, name);
    }
    let mut low = 0;
    let mut high = order.len();
    while low < high {
        let middle = low + (high - low) / 2;
        if named.name_at(order[middle]).cmp(name).is_lt() {
            low = middle + 1;
        } else {
            high = middle;
        }
    }
    if low < order.len() && named.name_at(order[low]) == name {
        Some(order[low])
    } else {
        None
    }
}

// The first position of a name, whatever their order.
fn position_among_few<N: Named>(named: &N, name: &str) -> Option<usize>
    ensures { result ≡ first_position (λ n. bytes_eq n name.now) (N.names named.now) }
{
    let count = named.count();
    let mut position = 0;
    while position < count {
        if named.name_at(position) == name {
            return Some(position);
        }
        position += 1;
    }
    None
}

/// Whether two of the names are equal.
pub fn has_equal_names<N: Named>(named: &N, order: &[usize]) -> bool
    requires { IsOrderOf (N.names named.now) order.now }
    ensures { result ≡ has_equal_texts (N.names named.now) }
{
    for position in 0..named.count() {
        let first = position_of(named, order, named.name_at(position));
        if first != Some(position) {
            return true;
        }
    }
    false
}

/// Whether two of the names are equal, where their order isn't known.
pub fn has_clash<N: Named>(alloc: Global, named: &N) -> Result<bool, AllocError>
    ensures { IfOk result (λ clash. clash ≡ has_equal_texts (N.names named.now)) }
{
    let order = order_of(alloc, named)?;
    Ok(has_equal_names(named, order.as_slice()))
}
