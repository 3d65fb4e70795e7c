//! Slots: where an item is kept, and how the slots of a list are linked.
ghost use Rattle.std.specs.Prelude.{◌≡◌};

use std::marker::Model;

/// One of the two sides. An item is on one list of each.
#[derive(Clone, Copy, Debug, PartialEq, Eq)]
pub enum Side {
    X,
    Y,
}

// Which neighbour on a list: the next slot or the previous one.
#[derive(Clone, Copy, Debug)]
pub(crate) enum Direction {
    Forward,
    Backward,
}

/// Names a slot of an arena. Contracts see its number.
#[derive(Clone, Copy, Debug, PartialEq, Eq)]
pub struct Slot {
    pub(crate) index: usize,
}

impl Model for Slot {
    ghost use Rattle.std.specs.Prelude.{ℕ};

    ghost Value = { ℕ };

    ghost view = { λ slot. slot.index };

    ghost inverse = { λ number. record { index = number } };
}

// The neighbours of a slot on its list of one side. At either end of the list there is none.
#[derive(Clone, Copy, Debug)]
pub(crate) struct Link {
    pub(crate) prev: Option<Slot>,
    pub(crate) next: Option<Slot>,
    pub(crate) list: u32,
}

impl Link {
    // The links of a slot that is on no list.
    const NONE: Link = Link {
        prev: None,
        next: None,
        list: 0,
    };
}

// The two ends of a list. An empty list has none.
#[derive(Clone, Copy, Debug)]
pub(crate) struct Ends {
    pub(crate) first: Option<Slot>,
    pub(crate) last: Option<Slot>,
}

impl Ends {
    // The ends of an empty list.
    pub(crate) const NONE: Ends = Ends {
        first: None,
        last: None,
    };
}

// What a slot has: an item, or, in a slot that is free, the next free slot.
#[derive(Debug, Drop)]
pub(crate) enum Content<T> {
    Item(T),
    Free(Option<Slot>),
}

// A slot with its two links. Those of a free slot say nothing.
#[derive(Debug, Drop)]
pub(crate) struct LinkedSlot<T> {
    pub(crate) x: Link,
    pub(crate) y: Link,
    pub(crate) content: Content<T>,
}

impl<T> LinkedSlot<T> {
    ghost use Rattle.cl_lists.specs.Links.{no_link};
    ghost use Rattle.cl_lists.specs.Entries.{link_of, with_link};

    // A free slot, which names the next free slot.
    pub(crate) fn free(next: Option<Slot>) -> Self
        ensures { result ≡ record { x = no_link; y = no_link; content = Content.Free next } }
    {
        LinkedSlot {
            x: Link::NONE,
            y: Link::NONE,
            content: Content::Free(next),
        }
    }

    // The links of the slot on one side.
    pub(crate) fn link(&self, side: Side) -> Link
        ensures { result ≡ link_of side self.now }
    {
        match side {
            Side::X => self.x,
            Side::Y => self.y,
        }
    }

    // Writes the links of the slot on one side.
    pub(crate) fn set_link(&mut self, side: Side, link: &Link)
        ensures { self.new ≡ with_link side self.old link.now }
    {
        match side {
            Side::X => self.x = *link,
            Side::Y => self.y = *link,
        }
    }
}
