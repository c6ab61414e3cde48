//! Where a reader stands in an input, and the moves that every reader makes.
ghost use Rattle.std.specs.Prelude.{◌≤◌, length, vec_len};

use crate::found::Found;
use smithy_schema::SerdeError;
use std::alloc::{AllocError, Global};

/// What a frame is of: a kind of container, or what stands outside of all containers.
#[derive(Clone, Copy)]
pub enum ContainerKind {
    Outside,
    /// A structure or a union.
    Structure,
    List,
    Map,
}

/// How far a reader is in an open container.
#[derive(Clone, Copy)]
pub struct Mark {
    /// An entry has come, where the bytes that follow depend on that.
    pub entered: bool,
    /// The container was opened at the end of the input.
    pub at_end: bool,
    /// How many entries are still due, where that was declared.
    pub due: Option<u64>,
}

/// What a reader keeps of an open container, and outside of all.
#[derive(Clone, Copy)]
pub struct Frame {
    pub within: ContainerKind,
    pub mark: Mark,
}

/// Where a reader stands: its position, its open containers, and whether a value is due.
///
/// After a refusal it has failed, and stays where it is.
#[derive(Drop)]
pub struct Walk<'a> {
    pub input: &'a [u8],
    pub position: usize,
    pub inner: Frame,
    pub outer: Vec<Frame>,
    pub max_depth: usize,
    pub due: bool,
    pub failed: bool,
    // The offset is within the input, and no more containers are open than may be.
    ghost in_input: { position ≤ length input.now },
    ghost shallow: { vec_len outer ≤ max_depth },
}

impl<'a> Walk<'a> {
    ghost use Rattle.std.specs.Prelude.{◌≡◌, ◌≤◌, ◌<◌, ◌∷◌, length, Ok, Err, IfOk, IfErr, IfSome, IsOk, IsErr, IsSome, IsNone, OnOk, OnErr, true, false, if◌then◌else◌, vec_len};
    ghost use Rattle.smithy_schema.specs.Reading.{depth, failed_at, passed_to};
    ghost use Rattle.smithy_schema.specs.declared.error.SerdeError.TheVariants.{Failed, InvalidInput, NoMemory};
    ghost use Rattle.smithy_wire.specs.Finding.{MatchFound, Takes, TakesWithin, EntersInto};
    ghost use Rattle.smithy_wire.specs.Walking.{cursor_of, fresh_cursor, gone_on_to, frame_of};

    /// A walk that begins.
    pub fn new(input: &'a [u8], alloc: Global, max_depth: usize) -> Walk<'a>
        ensures state { cursor_of result ≡ fresh_cursor input.now }
        ensures max_depth { result.max_depth ≡ max_depth }
    {
        Walk {
            input,
            position: 0,
            inner: Frame {
                within: ContainerKind::Outside,
                mark: Mark {
                    entered: false,
                    at_end: false,
                    due: None,
                },
            },
            outer: Vec::new(alloc),
            max_depth,
            due: true,
            failed: false,
        }
    }

    /// How many containers are open.
    pub fn depth(&self) -> usize
        ensures { result ≡ depth (cursor_of self.now) }
    {
        self.outer.len()
    }

    /// Makes the reader fail where it stands, and hands the error on.
    pub fn refuse(&mut self, error: SerdeError) -> SerdeError
        ensures same { self.new.max_depth ≡ self.old.max_depth }
        ensures stays { cursor_of self.new ≡ failed_at (cursor_of self.old) }
        ensures error { result ≡ error }
    {
        self.failed = true;
        error
    }

    /// Refuses where no value can be read: after a failure, or where none is due.
    pub fn ready(&mut self) -> Result<(), SerdeError>
        ensures answer { result ≡ (if self.old.failed then Err Failed else (if self.old.due then Ok tt else Err InvalidInput)) }
        ensures ok { OnOk result (self.new ≡ self.old) }
        ensures same { self.new.max_depth ≡ self.old.max_depth }
        ensures err { OnErr result (cursor_of self.new ≡ failed_at (cursor_of self.old)) }
    {
        if self.failed {
            Err(self.refuse(SerdeError::Failed))
        } else if self.due {
            Ok(())
        } else {
            Err(self.refuse(SerdeError::InvalidInput))
        }
    }

    /// Goes on behind the value that was due.
    pub fn pass(&mut self, end: usize)
        requires { end ≤ length self.old.input.now }
        ensures same { self.new.max_depth ≡ self.old.max_depth }
        ensures passed { cursor_of self.new ≡ passed_to (cursor_of self.old) end }
    {
        self.position = end;
        self.due = false;
    }

    /// Goes on behind what was found, or refuses where nothing was.
    pub fn take<T: Drop>(&mut self, found: Option<(T, usize)>) -> Result<T, SerdeError>
        requires { IfSome found (λ r. r.1 ≤ length self.old.input.now) }
        ensures same { self.new.max_depth ≡ self.old.max_depth }
        ensures ok { IfOk result (λ v. IfSome found (λ r. (r.0 ≡ v) × (cursor_of self.new ≡ passed_to (cursor_of self.old) r.1))) }
        ensures some { IsOk result → IsSome found }
        ensures none { IsErr result → IsNone found }
        ensures err { OnErr result (cursor_of self.new ≡ failed_at (cursor_of self.old)) }
        ensures error { IfErr result (λ e. e ≡ InvalidInput) }
    {
        match found {
            Some((value, end)) => {
                self.pass(end);
                Ok(value)
            }
            None => Err(self.refuse(SerdeError::InvalidInput)),
        }
    }

    /// Goes on behind what a search that takes memory found, or refuses: nothing stands there, or memory was wanting.
    pub fn take_found<T: Drop>(
        &mut self,
        found: Result<Option<(T, usize)>, AllocError>,
    ) -> Result<T, SerdeError>
        requires { IfOk found (λ o. IfSome o (λ r. r.1 ≤ length self.old.input.now)) }
        ensures same { self.new.max_depth ≡ self.old.max_depth }
        ensures taken { Takes (cursor_of self.old) (cursor_of self.new) found result }
    {
        match found {
            Ok(Some((value, end))) => {
                self.pass(end);
                Ok(value)
            }
            Ok(None) => Err(self.refuse(SerdeError::InvalidInput)),
            Err(_) => Err(self.refuse(SerdeError::NoMemory)),
        }
    }

    /// The same of a kind that excludes something, which is refused with an error of its own.
    pub fn take_within<T: Drop>(
        &mut self,
        found: Result<Found<(T, usize)>, AllocError>,
        beyond: SerdeError,
    ) -> Result<T, SerdeError>
        requires { IfOk found (λ f. MatchFound f (λ r. r.1 ≤ length self.old.input.now) (Unit {0}) (Unit {0})) }
        ensures same { self.new.max_depth ≡ self.old.max_depth }
        ensures taken { TakesWithin (cursor_of self.old) (cursor_of self.new) beyond found result }
    {
        match found {
            Ok(Found::Value((value, end))) => {
                self.pass(end);
                Ok(value)
            }
            Ok(Found::Nothing) => Err(self.refuse(SerdeError::InvalidInput)),
            Ok(Found::Beyond) => Err(self.refuse(beyond)),
            Err(_) => Err(self.refuse(SerdeError::NoMemory)),
        }
    }

    /// Goes on to an entry of the innermost container, whose value is due.
    pub fn go_on(&mut self, at: usize, frame: Frame)
        requires { at ≤ length self.old.input.now }
        ensures same { self.new.max_depth ≡ self.old.max_depth }
        ensures gone { cursor_of self.new ≡ gone_on_to (cursor_of self.old) at (frame_of frame) }
    {
        self.position = at;
        self.inner = frame;
        self.due = true;
    }

    /// Enters the container that was due.
    pub fn enter(&mut self, inside: usize, frame: Frame) -> Result<(), SerdeError>
        requires { inside ≤ length self.old.input.now }
        ensures same { self.new.max_depth ≡ self.old.max_depth }
        ensures enters { EntersInto (cursor_of self.old) (cursor_of self.new) self.old.max_depth inside (frame_of frame) result }
    {
        if self.outer.len() == self.max_depth {
            return Err(self.refuse(SerdeError::TooDeep));
        }
        match self.outer.push(self.inner) {
            Ok(()) => {
                self.inner = frame;
                self.pass(inside);
                Ok(())
            }
            Err(_) => Err(self.refuse(SerdeError::NoMemory)),
        }
    }

    /// Leaves the innermost container.
    pub fn leave(&mut self, end: usize)
        requires within { end ≤ length self.old.input.now }
        requires inside { 0 < depth (cursor_of self.old) }
        ensures same { self.new.max_depth ≡ self.old.max_depth }
        ensures input { (cursor_of self.new).input ≡ (cursor_of self.old).input }
        ensures at { (cursor_of self.new).at ≡ end }
        ensures outer { (cursor_of self.old).outer ≡ (cursor_of self.new).inner ∷ (cursor_of self.new).outer }
        ensures due { (cursor_of self.new).due ≡ false }
        ensures failed { (cursor_of self.new).failed ≡ (cursor_of self.old).failed }
    {
        match self.outer.pop() {
            Some(frame) => {
                self.inner = frame;
                self.pass(end);
            }
            None => unreachable!(),
        }
    }
}
