//! The memory for lookups of pushes.
ghost use Rattle.std.specs.Prelude.{IfOk};
ghost use Rattle.closure.specs.{Lookups.AreLookups, Tables.AreTables};

use crate::buckets::{Buckets, fill_buckets};
use crate::group_regions::Flood;
use crate::open::Open;
use crate::place::Place;
use crate::search::Search;
use crate::tables::Tables;
use crate::unsettled::Unsettled;
use cellset::CellSet;
use reach::{Push, Rows};
use std::alloc::{AllocError, Global};

// The groups by one of their boxes, and memory for the pushes of one group after another.
#[derive(Debug, Drop)]
pub(crate) struct Lookups {
    pub buckets: Buckets,
    pub flood: Flood,
    pub place: Place,
    pub unsettled: Unsettled,
    // The pushes whose results no group covers.
    pub left: Vec<Push>,
}

impl Lookups {
    // Returns what lookups in these tables need.
    pub(crate) fn new<S: CellSet>(alloc: Global, tables: &Tables<S>) -> Result<Lookups, AllocError>
        requires { AreTables tables.now }
        ensures { IfOk result (AreLookups tables.now) }
    {
        let board = tables.board;
        let place = Place {
            boxes: Rows::new(alloc, board.shape())?,
            player: board.player(),
        };
        let flood = Flood::new(alloc, board.shape())?;
        let buckets = fill_buckets(alloc, board, &tables.groups)?;
        Ok(Lookups {
            buckets,
            flood,
            place,
            unsettled: Unsettled {
                away: Open::new(alloc, board.shape())?,
                here: Open::new(alloc, board.shape())?,
                search: Search {
                    cells: Vec::new(alloc),
                    begun: 0,
                    link: 0,
                },
                inside: Vec::new(alloc),
                last: 0,
            },
            left: Vec::new(alloc),
        })
    }
}
