//! The containers of a body that is written, and what may come next in them.
ghost use Rattle.std.specs.Prelude.{◌≡◌, ◌↔◌, [], ◌∷◌, Ok, true, false, option_map, IfOk, IfErr, IsErrOf, OnOk};
ghost use Rattle.smithy_schema.specs.declared.error.SerdeError.TheVariants.{Failed, Unwritable};
ghost use Rattle.smithy_schema.specs.Errors.{IsFault};
ghost use Rattle.smithy_schema.specs.Writing.{after_value, after_text};
ghost use Rattle.smithy_wire.specs.OpenContainers.{open_of, opens_of, marks_of, innermost, with_innermost, after_end};

use smithy_schema::SerdeError;
use std::alloc::{AllocError, Global};

/// A kind of container, and of a map what is due in it.
#[derive(Clone, Copy, Debug)]
pub enum Container {
    /// A structure or a union.
    Structure,
    List,
    MapAtKey,
    MapAtValue,
}

/// A container that is open, with what its wire keeps of it.
#[derive(Clone, Copy, Debug)]
pub struct OpenContainer<M> {
    pub container: Container,
    pub mark: M,
}

/// Where a serializer stands: its open containers, and whether it has failed.
///
/// A call begins with `begin` and ends with `succeed`. In between the serializer counts as failed, so whatever refuses a call on
/// the way leaves it so.
#[derive(Debug, Drop)]
pub struct OpenContainers<M> {
    // the innermost stands last
    stack: Vec<OpenContainer<M>>,
    failed: bool,
}

impl<M: Copy> OpenContainers<M> {
    /// No container, and no failure.
    pub fn new(alloc: Global) -> OpenContainers<M>
        ensures containers { opens_of result ≡ [] }
        ensures marks { marks_of result ≡ [] }
        ensures sound { result.failed ≡ false }
    {
        OpenContainers {
            stack: Vec::new(alloc),
            failed: false,
        }
    }

    /// Whether none is open.
    pub fn is_empty(&self) -> bool
        ensures { (result ≡ true) ↔ (opens_of self.now ≡ []) }
    {
        self.stack.is_empty()
    }

    /// The kind of the innermost container.
    pub fn innermost(&self) -> Option<Container>
        ensures { option_map open_of result ≡ innermost (opens_of self.now) }
    {
        Some(self.stack.last()?.container)
    }

    /// What is kept of the innermost container.
    pub fn mark(&self) -> Option<M>
        ensures { result ≡ innermost (marks_of self.now) }
    {
        Some(self.stack.last()?.mark)
    }

    /// Keeps this of the innermost container from now on.
    pub fn set_mark(&mut self, mark: M)
        ensures containers { opens_of self.new ≡ opens_of self.old }
        ensures marks { marks_of self.new ≡ with_innermost mark (marks_of self.old) }
        ensures broken { self.new.failed ≡ self.old.failed }
    {
        if let Some(innermost) = self.stack.len().checked_sub(1) {
            self.stack[innermost].mark = mark;
        }
    }

    // Of a map: this is due in the innermost container from now on.
    fn turn(&mut self, container: Container)
        ensures containers { opens_of self.new ≡ with_innermost (open_of container) (opens_of self.old) }
        ensures marks { marks_of self.new ≡ marks_of self.old }
        ensures broken { self.new.failed ≡ self.old.failed }
    {
        if let Some(innermost) = self.stack.len().checked_sub(1) {
            self.stack[innermost].container = container;
        }
    }

    /// The serializer has failed.
    pub fn fail(&mut self)
        ensures { self.new ≡ record self.old { failed = true } }
    {
        self.failed = true;
    }

    /// A call begins.
    pub fn begin(&mut self) -> Result<(), SerdeError>
        ensures failed { IsErrOf result Failed ↔ (self.old.failed ≡ true) }
        ensures begun { self.new ≡ record self.old { failed = true } }
        ensures refused { IfErr result (λ e. e ≡ Failed) }
    {
        if self.failed {
            return Err(SerdeError::Failed);
        }
        self.failed = true;
        Ok(())
    }

    /// A call ends well.
    pub fn succeed(&mut self)
        ensures { self.new ≡ record self.old { failed = false } }
    {
        self.failed = false;
    }

    /// A value comes: none in a key's place, and behind a map's value a key is due.
    pub fn pass_value(&mut self) -> Result<(), SerdeError>
        ensures taken { OnOk result (after_value (opens_of self.old) ≡ Ok (opens_of self.new)) }
        ensures marks { OnOk result (marks_of self.new ≡ marks_of self.old) }
        ensures refused { IfErr result (λ e. IsFault e → after_value (opens_of self.old) ≡ Err e) }
        ensures unwritable { IfErr result (λ e. e ≡ Unwritable) }
        ensures sound { IsErrOf result Failed → ⊥ }
        ensures broken { self.new.failed ≡ self.old.failed }
    {
        match self.stack.last() {
            Some(innermost) => match innermost.container {
                Container::MapAtKey => Err(SerdeError::Unwritable),
                Container::MapAtValue => {
                    self.turn(Container::MapAtKey);
                    Ok(())
                }
                Container::Structure | Container::List => Ok(()),
            },
            None => Ok(()),
        }
    }

    /// A text comes: it is a key where one is due, whose value is due then, and else a value.
    pub fn pass_text(&mut self) -> Result<(), SerdeError>
        ensures taken { OnOk result (after_text (opens_of self.old) ≡ Ok (opens_of self.new)) }
        ensures marks { OnOk result (marks_of self.new ≡ marks_of self.old) }
        ensures refused { IfErr result (λ e. IsFault e → after_text (opens_of self.old) ≡ Err e) }
        ensures unwritable { IfErr result (λ e. e ≡ Unwritable) }
        ensures sound { IsErrOf result Failed → ⊥ }
        ensures broken { self.new.failed ≡ self.old.failed }
    {
        if let Some(Container::MapAtKey) = self.innermost() {
            self.turn(Container::MapAtValue);
            return Ok(());
        }
        self.pass_value()
    }

    /// A container begins inside of the others.
    pub fn push(&mut self, container: Container, mark: M) -> Result<(), AllocError>
        ensures containers { OnOk result (opens_of self.new ≡ open_of container ∷ opens_of self.old) }
        ensures marks { OnOk result (marks_of self.new ≡ mark ∷ marks_of self.old) }
        ensures broken { self.new.failed ≡ self.old.failed }
    {
        self.stack.push(OpenContainer { container, mark })?;
        Ok(())
    }

    /// The innermost container ends, which has to be of this kind, and what was kept of it is handed out.
    pub fn pop(&mut self, container: Container) -> Result<M, SerdeError>
        ensures taken { OnOk result (after_end container (opens_of self.old) ≡ Ok (opens_of self.new)) }
        ensures marks { IfOk result (λ mark. marks_of self.old ≡ mark ∷ marks_of self.new) }
        ensures refused { IfErr result (λ e. (e ≡ Unwritable) × (after_end container (opens_of self.old) ≡ Err e)) }
        ensures broken { self.new.failed ≡ self.old.failed }
    {
        let Some(ended) = self.stack.pop() else {
            return Err(SerdeError::Unwritable);
        };
        match (ended.container, container) {
            (Container::Structure, Container::Structure)
            | (Container::List, Container::List)
            | (Container::MapAtKey, Container::MapAtKey) => Ok(ended.mark),
            _ => Err(SerdeError::Unwritable),
        }
    }
}
