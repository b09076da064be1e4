//! Open pushes: those out of a group that aren't settled. One is found by the box that it moves and its direction.
ghost use Rattle.std.specs.Prelude.{◌≡◌, ◌⊎◌, ◌+◌, ◌*◌, ◌<◌, ◌≤◌, [], ℕ, IfOk, MatchBool, MatchOption, OnOk, length, slice_index_or};
ghost use Rattle.std.specs.List.{Contains};
ghost use Rattle.cellset.specs.Cell.{IsOn};
ghost use Rattle.reach.specs.{Pushes.dir_rank, declared.pushes.Push.Push as OutPush};
ghost use Rattle.closure.specs.Open.{IsStep, IsThat, key};

use crate::arena::to_u32;
use cellset::{Cell, Dir, Shape};
use certificates::is_same;
use reach::Push;
use std::alloc::{AllocError, Global};
use std::marker::Model;

// Pushes of boxes on a grid, at most one for each box and direction.
#[derive(Debug, Drop)]
pub(crate) struct Open {
    shape: Shape,
    pushes: Vec<Push>,
    // By box and direction, the number of its push. Where there is no push, it is any number.
    numbers: Vec<u32>,
}

impl Model for Open {
    ghost use Rattle.closure.specs.Open.{OpenPushes, AreNumbered, coded_open};

    ghost Value = { OpenPushes };

    ghost coded = { coded_open };

    ghost view = { λ o. record { extent = o.shape; pushes = o.pushes.items } };

    ghost invariant = { λ o. AreNumbered o.shape o.pushes.items o.numbers.items };
}

impl Open {
    // Returns no pushes.
    pub(crate) fn new(alloc: Global, shape: Shape) -> Result<Open, AllocError>
        ensures { IfOk result (λ o. (o.extent ≡ shape) × (o.pushes ≡ [])) }
    {
        let cells = usize::from(shape.width()) * usize::from(shape.height());
        Ok(Open {
            shape,
            pushes: Vec::new(alloc),
            numbers: vec![in alloc; 0u32; 4 * cells]?,
        })
    }

    // Returns the pushes.
    pub(crate) fn all(&self) -> &[Push]
        ensures { result.now ≡ self.now.pushes }
    {
        &self.pushes
    }

    // Returns the first push.
    pub(crate) fn first(&self) -> Option<Push>
        ensures { MatchOption result (self.now.pushes ≡ []) (Contains self.now.pushes) }
    {
        self.pushes.first().copied()
    }

    // Takes out all pushes.
    pub(crate) fn clear(&mut self)
        ensures extent { self.new.extent ≡ self.old.extent }
        ensures none { self.new.pushes ≡ [] }
    {
        self.pushes.clear();
    }

    // Adds a push.
    pub(crate) fn add(&mut self, push: Push) -> Result<(), AllocError>
        requires on { IsOn self.old.extent push.from }
        requires step { IsStep push }
        ensures extent { self.new.extent ≡ self.old.extent }
        ensures added { OnOk result (Contains self.new.pushes push) }
        ensures kept { (p : OutPush) → Contains self.old.pushes p → Contains self.new.pushes p }
        ensures only { (p : OutPush) → Contains self.new.pushes p → Contains self.old.pushes p ⊎ (p ≡ push) }
        ensures more { length self.new.pushes ≤ length self.old.pushes + 1 }
    {
        if self.has(push.from, push.dir) {
            return Ok(());
        }
        let number = to_u32(self.pushes.len())?;
        self.pushes.push(push)?;
        self.numbers[key_of(self.shape, push.from, push.dir)] = number;
        Ok(())
    }

    // Returns whether a box has a push in a direction.
    #[inline(always)]
    pub(crate) fn has(&self, from: Cell, dir: Dir) -> bool
        requires { IsOn self.now.extent from }
        ensures { MatchBool result ((p : OutPush) × Contains self.now.pushes p × IsThat from dir p)
            ((p : OutPush) → Contains self.now.pushes p → IsThat from dir p → ⊥) }
    {
        self.number_of(from, dir).is_some()
    }

    // Returns the number of the push of a box in a direction.
    #[inline(always)]
    fn number_of(&self, from: Cell, dir: Dir) -> Option<usize>
        requires { IsOn self.now.extent from }
        ensures { MatchOption result ((p : OutPush) → Contains self.now.pushes p → IsThat from dir p → ⊥)
            (λ n. (n < length self.now.pushes) × ((p : OutPush) → IsThat from dir (slice_index_or self.now.pushes n p))) }
    {
        let number = self.numbers[key_of(self.shape, from, dir)] as usize;
        if number >= self.pushes.len() {
            return None;
        }
        let push = self.pushes[number];
        if is_same(push.from, from) && rank(push.dir) == rank(dir) {
            Some(number)
        } else {
            None
        }
    }

    // Takes out the push of a box in a direction, if there is one.
    pub(crate) fn take(&mut self, from: Cell, dir: Dir)
        requires { IsOn self.old.extent from }
        ensures extent { self.new.extent ≡ self.old.extent }
        ensures kept { (p : OutPush) → Contains self.old.pushes p → Contains self.new.pushes p ⊎ IsThat from dir p }
        ensures only { (p : OutPush) → Contains self.new.pushes p → Contains self.old.pushes p }
        ensures fewer { length self.new.pushes ≤ length self.old.pushes }
        ensures none { (p : OutPush) → Contains self.new.pushes p → IsThat from dir p → ⊥ }
    {
        if let Some(number) = self.number_of(from, dir) {
            let _push = self.take_at(number);
        }
    }

    // Takes out the push with a number. The last push gets its number.
    pub(crate) fn take_at(&mut self, number: usize) -> Push
        requires { number < length self.old.pushes }
        ensures extent { self.new.extent ≡ self.old.extent }
        ensures value { (p : OutPush) → result ≡ slice_index_or self.old.pushes number p }
        ensures kept { (p : OutPush) → Contains self.old.pushes p → Contains self.new.pushes p ⊎ (p ≡ result) }
        ensures only { (p : OutPush) → Contains self.new.pushes p → Contains self.old.pushes p }
        ensures before { (i : ℕ) (p : OutPush) → i < number → slice_index_or self.new.pushes i p ≡ slice_index_or self.old.pushes i p }
        ensures fewer { length self.new.pushes + 1 ≡ length self.old.pushes }
        ensures on { IsOn self.old.extent result.from }
        ensures step { IsStep result }
        ensures none { (p : OutPush) → Contains self.new.pushes p → IsThat result.from result.dir p → ⊥ }
    {
        let last = self.pushes[self.pushes.len() - 1];
        let taken = self.pushes.swap_remove(number);
        let key = key_of(self.shape, taken.from, taken.dir);
        self.numbers[key_of(self.shape, last.from, last.dir)] = self.numbers[key];
        taken
    }
}

// Returns where the number of the push of a box in a direction is kept.
#[inline(always)]
fn key_of(shape: Shape, from: Cell, dir: Dir) -> usize
    requires { IsOn shape from }
    ensures value { result ≡ key shape from dir }
    ensures within { result < 4 * (shape.width * shape.height) }
{
    4 * shape.index_of(from) + rank(dir) as usize
}

// Returns the place of a direction in the order left, up, right, down.
pub(crate) fn rank(dir: Dir) -> u8
    ensures { result ≡ dir_rank dir }
{
    match dir {
        Dir::L => 0,
        Dir::U => 1,
        Dir::R => 2,
        Dir::D => 3,
    }
}
