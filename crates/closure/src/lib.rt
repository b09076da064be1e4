//! The check of certificates that a level is unsolvable, and what it means that one is accepted.
//!
//! Contracts see a pattern line as a `Pattern`: a set of boxes, with seeds that say where the player may be. It covers a state if the state
//! has all its boxes and the player is in the region of the seeds. Contracts see a zone as the set of its cells. A list of patterns is
//! accepted exactly if it is closed, and a zone exactly if it refutes the level. Then no list of directions, of any length, solves the
//! level in the full game. The crate `certificates` has what patterns, closed lists and zones are. Read `specs/FirstFault.antt` for the
//! faults of certificates that are refused.
//!
//! How a list of n lines is checked:
//!
//! 1. **Lines** are added one after another (`pattern_list`). Each becomes cells in one arena (`arena`), and is checked for its own faults
//!    (`lawful`). After a line at fault none is added.
//! 2. **Trap**: the cells of the lines of one box with `*` may be a trap, which no box leaves (`trap`). The list covers each state with a
//!    box on it. If each line has a box on the trap and the start has one there too, the list is closed (`checking`).
//! 3. **Groups**: lines with the same boxes are one group, found by a hash (`groups`, `hints`, `chains`). One flood for each group off the
//!    trap finds its region, unless all that is free is in one component or a line says `*` (`group_regions`). Its rows are kept (`kept`),
//!    so whether a cell is in it is one bit. In which directions each box can be pushed is noted too (`ways`). That makes the tables
//!    (`tables`).
//! 4. **Start**: it is covered if it has a box on the trap, or all boxes of a group are there and its region has the player (`index`).
//! 5. **Pushes by hints** (`pushes`): if a push leads to the trap, it is covered. Otherwise a hash finds the group of just the boxes after
//!    the push, and one bit decides: whether its region has the cell that the pushed box leaves. Groups of which all pushes are settled are
//!    noted as covered. If all are, the list is closed. This is so for nearly every list that a program writes.
//! 6. **Pushes by lookups** (`lookups`, `settling`, `unsettled`), for each other group, by rising number of boxes. Its pushes are open, and
//!    other groups settle them. A group covers the result of a push exactly if each of its boxes is there or is where the push leads, and its
//!    region has the cell that the pushed box leaves. So one that lacks a box settles at most the four pushes to it, and these are found by
//!    the box that they move (`open`). If all boxes of a group are there and its region has the player, it covers the results of the pushes
//!    from the player's component of the room less the boxes that move boxes which it lacks; and if it is noted as covered itself, the list
//!    covers those of all. A push that is open when all groups were asked isn't covered. If none is open, the group is noted as covered.
//! 7. At last the lines are gone through up to the first fault. If a line's group isn't noted, its pushes are settled again. The line gets
//!    a flood of its own, and the first push left by a player in it is the fault.
//!
//! **The order in which groups are asked** (`search`, `buckets`): first those that hints name; then, component by component, the covered
//! group that settled the last component, the groups found so far whose boxes are all there, and the groups in the buckets of the cells
//! ahead and of the boxes, until nothing is open in the component. Each group is in the bucket of one of its boxes, the smallest one when
//! it came.
//!
//! **Cost**: at most 2n floods, and two for each component that is entered. In the worst case each group is looked at once for each group,
//! and once more for each component if its boxes are all there. A region takes at most 8 KB, on the largest board, so a list at most half a
//! gigabyte.
//!
//! `Index` answers whether a list covers a state (`index`): it asks the groups in the buckets of the state's boxes. `Scan` answers the same
//! question line by line (`coverage`, `scan`). Zones are `zone`'s. `fault` has the faults, and `laws` what follows from an answer.
#![tactic(auto)]

mod arena;
mod buckets;
mod chains;
mod checking;
mod coverage;
mod fault;
mod group_regions;
mod groups;
mod hints;
mod index;
mod kept;
mod lawful;
mod laws;
mod lookups;
mod open;
mod pattern_list;
mod place;
mod pushes;
mod scan;
mod search;
mod settling;
mod tables;
mod task;
mod trap;
mod unsettled;
mod ways;
mod zone;

pub use checking::Accepted;
pub use coverage::Coverage;
pub use fault::{CheckFault, LineWhy, ZoneFault, ZoneLineWhy};
pub use index::Index;
pub use laws::{
    closed_lists_have_no_fault, closed_means_unsolvable, lists_have_one_first_fault,
    refuting_zone_means_unsolvable, refuting_zones_have_no_fault, zones_have_one_first_fault,
};
pub use pattern_list::{PatternList, check};
pub use scan::Scan;
pub use zone::{AcceptedZone, check_zone};
