//! Chains: the items of each key, from the last one to the first.
ghost use Rattle.std.specs.Prelude.{◌<◌, ℕ, IfOk, length, slice_index};
ghost use Rattle.closure.specs.Chains.{AreChains};

use crate::arena::to_u32;
use std::alloc::{AllocError, Global};

// A chain for each key. The link to an item is its number plus 1, and link 0 ends a chain.
#[derive(Debug, Drop)]
pub(crate) struct Chains {
    // By key, the link to its last item.
    pub first: Vec<u32>,
    // By item, the link to the item before it with the same key.
    pub next: Vec<u32>,
}

// Chains items by their keys, which are below `count`.
pub(crate) fn chain(alloc: Global, keys: &[u32], count: usize) -> Result<Chains, AllocError>
    requires { (j : ℕ) → j < length keys.now → slice_index keys.now j < count }
    ensures { IfOk result (λ c. AreChains keys.now count c.first.items c.next.items) }
{
    let mut first = vec![in alloc; 0; count]?;
    let mut next = Vec::with_capacity(alloc, keys.len())?;
    for (item, key) in keys.iter().enumerate() {
        let key = *key as usize;
        next.push_reserved(first[key]);
        first[key] = to_u32(item + 1)?;
    }
    Ok(Chains { first, next })
}
