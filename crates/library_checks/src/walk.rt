//! Moves of a walk, one after another, and a refusal.

use smithy_schema::SerdeError;
use smithy_wire::{ContainerKind, Frame, Mark, Walk};
use std::alloc::Global;

const LIST: Frame = Frame {
    within: ContainerKind::List,
    mark: Mark {
        entered: false,
        at_end: false,
        due: None,
    },
};

const MAP: Frame = Frame {
    within: ContainerKind::Map,
    mark: Mark {
        entered: true,
        at_end: false,
        due: Some(1),
    },
};

pub fn a_map_is_entered_inside_a_list_and_left(alloc: Global) -> bool {
    let mut walk = Walk::new(b"[{}]", alloc, 2);
    let Ok(()) = walk.enter(1, LIST) else {
        return false;
    };
    walk.go_on(1, LIST);
    // Its element is a map, which is innermost, with its mark.
    let Ok(()) = walk.enter(2, MAP) else {
        return false;
    };
    let is_innermost = walk.depth() == 2 && walk.inner.mark.due == Some(1);
    walk.leave(3);
    let is_left = matches!(walk.inner.within, ContainerKind::List) && walk.depth() == 1;
    let none: Option<(u8, usize)> = None;
    let is_refused = walk.take(none) == Err(SerdeError::InvalidInput);
    is_innermost && is_left && is_refused && walk.failed
}
