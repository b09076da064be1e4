//! Hints: a hash table that finds the group of some boxes. It promises nothing, so each caller checks the hint.
use cellset::Cell;
use std::alloc::{AllocError, Global};

// How many slots are tried for one hash.
pub(crate) const TRIES: usize = 128;

// A group, and the odd part of the hash of its boxes. The part is 0 if the slot is free. Two bytes hold 65,536 groups, and groups
// after those have no hints.
#[derive(Clone, Copy, Debug)]
pub(crate) struct Slot {
    mark: u16,
    group: u16,
}

impl Slot {
    // Returns the group if it is for this hash.
    pub(crate) fn group_for(self, hash: usize) -> Option<usize> {
        if self.mark != mark_of(hash) {
            return None;
        }
        Some(usize::from(self.group))
    }
}

const FREE: Slot = Slot { mark: 0, group: 0 };

// Twice as many slots as lines.
#[derive(Debug, Drop)]
pub(crate) struct Hints {
    slots: Vec<Slot>,
}

// Returns what a box adds to a hash.
fn hash_of_box(cell: Cell) -> usize {
    let number = usize::from(cell.row()) << 16 | usize::from(cell.column());
    let mixed = number.wrapping_mul(0x9E37_79B9_7F4A_7C15);
    (mixed ^ mixed >> 29).wrapping_mul(0xBF58_476D_1CE4_E5B9)
}

// Returns the hash of boxes: the sum of what each adds, so their order doesn't matter.
pub(crate) fn hash_of(boxes: &[Cell]) -> usize {
    let mut hash = 0;
    for cell in boxes {
        hash = hash_with(hash, *cell);
    }
    hash
}

// Returns the hash of boxes and one more.
pub(crate) fn hash_with(hash: usize, cell: Cell) -> usize {
    hash.wrapping_add(hash_of_box(cell))
}

// Returns the hash of boxes less one of them.
pub(crate) fn hash_without(hash: usize, cell: Cell) -> usize {
    hash.wrapping_sub(hash_of_box(cell))
}

// Returns the number of the slot that is tried for a hash in this turn. The next turn tries the next slot, and the first follows
// the last.
fn slot_at(hash: usize, turn: usize, slots: usize) -> usize {
    let at = ((hash >> 32).wrapping_mul(slots) >> 32).wrapping_add(turn);
    if at < slots {
        at
    } else {
        at.wrapping_sub(slots)
    }
}

// Returns the part of a hash that a slot keeps. It is odd, so it is never 0.
fn mark_of(hash: usize) -> u16 {
    (hash & 0xFFFF) as u16 | 1
}

impl Hints {
    // Returns an empty table for this number of lines.
    pub(crate) fn new(alloc: Global, lines: usize) -> Result<Hints, AllocError> {
        let slots = vec![in alloc; FREE; lines.saturating_mul(2)]?;
        Ok(Hints { slots })
    }

    // Puts a group into the first free one of the slots that are tried for its hash, if there is one.
    pub(crate) fn enter(&mut self, hash: usize, group: usize) {
        let Ok(group) = u16::try_from(group) else {
            return;
        };
        for turn in 0..TRIES {
            let at = slot_at(hash, turn, self.slots.len());
            if let Some(slot) = self.slots.get_mut(at) {
                if slot.mark == 0 {
                    let mark = mark_of(hash);
                    *slot = Slot { mark, group };
                    return;
                }
            }
        }
    }

    // Returns the slot that is tried for a hash in this turn, or None if it is free. Then no later slot has this hash either.
    pub(crate) fn slot(&self, hash: usize, turn: usize) -> Option<Slot> {
        let slot = *self.slots.get(slot_at(hash, turn, self.slots.len()))?;
        if slot.mark == 0 {
            return None;
        }
        Some(slot)
    }
}
