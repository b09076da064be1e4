//! Groups: lines with equal boxes.
ghost use Rattle.std.specs.Prelude.{◌≡◌, ◌<◌, ◌⊎◌, ◌++◌, ◌∷◌, [], ℕ, IfOk, IfSome, IsTrue, List, length};
ghost use Rattle.closure.specs.Chains.{AreChains};
ghost use Rattle.closure.specs.{Spans.AreSpans, Spans.IsWithin, Spans.part as part_of, Spans.span_at, Groups.IsGrouped, Groups.boxes_of};

use crate::arena::{Arena, Span, part, to_u32};
use crate::chains::{Chains, chain};
use crate::hints::{Hints, TRIES, hash_of};
use cellset::Cell;
use std::alloc::{AllocError, Global};

// The groups of a list.
#[derive(Debug, Drop)]
pub(crate) struct Groups {
    pub arena: Arena,
    // By line, its group.
    pub of: Vec<u32>,
    // By group, the boxes of its first line.
    pub spans: Vec<Span>,
    // The lines of each group.
    pub chains: Chains,
    pub(crate) hints: Hints,
}

// Groups the lines of a list.
//
// Hints find a group with the same boxes. If they fail, lines with equal boxes come into several groups. That changes no answer.
pub(crate) fn group(alloc: Global, arena: Arena) -> Result<Groups, AllocError>
    ensures same { IfOk result (λ g. g.arena ≡ arena) }
    ensures groups { IfOk result IsGrouped }
{
    let mut of = Vec::with_capacity(alloc, arena.lines.len())?;
    let mut spans = Vec::new(alloc);
    let mut hints = Hints::new(alloc, arena.lines.len())?;
    for line in &arena.lines {
        let group = group_of(&arena.boxes, line.boxes, &mut spans, &mut hints)?;
        of.push_reserved(to_u32(group)?);
    }
    let chains = chain(alloc, &of, spans.len())?;
    Ok(Groups {
        arena,
        of,
        spans,
        chains,
        hints,
    })
}

// Returns the number of the group of these boxes. If hints find no group with them, they are a new group.
fn group_of(
    cells: &[Cell],
    boxes: Span,
    spans: &mut Vec<Span>,
    hints: &mut Hints,
) -> Result<usize, AllocError>
    requires boxes { IsWithin (length cells.now) boxes }
    requires spans { AreSpans (length cells.now) spans.old.items }
    ensures { IfOk result (λ g. ((spans.new.items ≡ spans.old.items) × (g < length spans.old.items)
        × (part_of cells.now (span_at spans.old.items g) ≡ part_of cells.now boxes))
        ⊎ ((g ≡ length spans.old.items) × (spans.new.items ≡ spans.old.items ++ boxes ∷ []))) }
{
    let wanted = part(cells, boxes);
    let hash = hash_of(wanted);
    let found = find_equal(cells, wanted, spans, hints, hash);
    if let Some(group) = found {
        return Ok(group);
    }
    let group = spans.len();
    hints.enter(hash, group);
    spans.push(boxes)?;
    Ok(group)
}

// Returns the number of a group with the wanted boxes, if hints for their hash find one.
fn find_equal(
    cells: &[Cell],
    wanted: &[Cell],
    spans: &[Span],
    hints: &Hints,
    hash: usize,
) -> Option<usize>
    requires { AreSpans (length cells.now) spans.now }
    ensures { IfSome result (λ g. (g < length spans.now) × (part_of cells.now (span_at spans.now g) ≡ wanted.now)) }
{
    for turn in 0..TRIES {
        let slot = hints.slot(hash, turn)?;
        if let Some(group) = slot.group_for(hash) {
            if group < spans.len() {
                if are_same(part(cells, spans[group]), wanted) {
                    return Some(group);
                }
            }
        }
    }
    None
}

// Returns whether two lists have the same cells in the same order.
fn are_same(left: &[Cell], right: &[Cell]) -> bool
    ensures { IsTrue result → left.now ≡ right.now }
{
    left == right
}

impl Groups {
    // Returns the boxes of a group.
    pub(crate) fn boxes(&self, group: usize) -> &[Cell]
        requires groups { IsGrouped self.now }
        requires group { group < length self.now.spans.items }
        ensures { result.now ≡ boxes_of self.now group }
    {
        part(&self.arena.boxes, self.spans[group])
    }

    // Chains the groups by their number of boxes.
    pub(crate) fn by_count(&self, alloc: Global) -> Result<Chains, AllocError>
        requires { IsGrouped self.now }
        ensures { IfOk result (λ c. (counts : List ℕ) × (length counts ≡ length self.now.spans.items)
            × AreChains counts (length c.first.items) c.first.items c.next.items) }
    {
        let mut counts = Vec::with_capacity(alloc, self.spans.len())?;
        let mut most = 0;
        for group in 0..self.spans.len() {
            let count = to_u32(self.boxes(group).len())?;
            most = std::cmp::max(most, count);
            counts.push_reserved(count);
        }
        chain(alloc, &counts, most as usize + 1)
    }
}
