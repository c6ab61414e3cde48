//! What a search for a value of one kind answers.

/// What is found of a value where one of its kind is due.
#[derive(Clone, Copy)]
pub enum Found<T> {
    /// It stands here.
    Value(T),
    /// Nothing of the kind stands here.
    Nothing,
    /// Something stands here that leaves the limits of the kind, or that the kind can't carry.
    Beyond,
}
