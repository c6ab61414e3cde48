//! What a table leaves out of a model.

/// Why a member is left out.
#[derive(Clone, Copy, Debug, PartialEq, Eq)]
pub enum Reason {
    /// It is a float, or a list, a map or a union of nothing else.
    Float,
    /// It is a stream of events.
    EventStream,
    /// It travels outside of the body.
    Outside,
    /// Its name in JSON or in a form is that of an earlier member.
    Clash,
}

/// A member that is left out.
#[derive(Clone, Copy, Debug, Drop)]
pub struct Left<'a> {
    /// The id of the shape that has it.
    pub shape: &'a str,
    /// Its name.
    pub member: &'a str,
    pub reason: Reason,
}
