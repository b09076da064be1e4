//! The shape of a grid.
ghost use Rattle.std.specs.Prelude.{◌≡◌, ◌*◌, ◌<◌};
ghost use Rattle.std.specs.Option.{SomeIff};
ghost use Rattle.cellset.specs.Shape.{HasSides};
ghost use Rattle.cellset.specs.Cell.{IsOn, neighbor, cell_at, IsNextCell};
ghost use Rattle.cellset.specs.SortedList.{index};

use crate::{Cell, Dir};
use std::marker::Model;

/// The largest width and height of a grid.
pub const MAX_SIDE: usize = 255;

/// The width and height of a grid, each from 1 to `MAX_SIDE`.
#[derive(Clone, Copy, Debug, PartialEq, Eq)]
pub struct Shape {
    width: u8,
    height: u8,
}

impl Model for Shape {
    ghost use Rattle.cellset.specs.Shape.{Extent, HasSides};

    ghost Value = { Extent };

    ghost view = { λ s. record { width = s.width; height = s.height } };

    ghost invariant = { λ s. HasSides s.width s.height };

    ghost inverse = { λ e. record { width = e.width; height = e.height } };
}

impl Shape {
    /// Returns the shape with these sides, if each is from 1 to `MAX_SIDE`.
    pub fn new(width: usize, height: usize) -> Option<Shape>
        ensures { SomeIff result (HasSides width height) (record { width = width; height = height }) }
    {
        if width < 1 || width > MAX_SIDE || height < 1 || height > MAX_SIDE {
            return None;
        }
        Some(Shape {
            width: width as u8,
            height: height as u8,
        })
    }

    /// Returns the number of columns.
    pub fn width(self) -> u8
        ensures value { result ≡ self.width }
        ensures sides { HasSides self.width self.height }
    {
        self.width
    }

    /// Returns the number of rows.
    pub fn height(self) -> u8
        ensures value { result ≡ self.height }
        ensures sides { HasSides self.width self.height }
    {
        self.height
    }

    /// Returns the neighbour of a cell in a direction, or `None` past the edge.
    pub fn step(self, cell: Cell, dir: Dir) -> Option<Cell>
        requires { IsOn self cell }
        ensures { SomeIff result (IsOn self (neighbor cell dir)) (neighbor cell dir) }
    {
        match dir {
            Dir::L if cell.column > 1 => Some(Cell {
                column: cell.column - 1,
                ..cell
            }),
            Dir::U if cell.row > 1 => Some(Cell {
                row: cell.row - 1,
                ..cell
            }),
            Dir::R if cell.column < self.width => Some(Cell {
                column: cell.column + 1,
                ..cell
            }),
            Dir::D if cell.row < self.height => Some(Cell {
                row: cell.row + 1,
                ..cell
            }),
            _ => None,
        }
    }

    /// Returns the cell in a column and a row, both from 1, or `None` off the grid.
    pub fn cell(self, column: u16, row: u16) -> Option<Cell>
        ensures { SomeIff result (IsOn self (cell_at column row)) (cell_at column row) }
    {
        if column < 1 || column > self.width as u16 || row < 1 || row > self.height as u16 {
            return None;
        }
        Some(Cell {
            row: row as u8,
            column: column as u8,
        })
    }

    /// Returns the index of a cell in reading order, from 0.
    pub fn index_of(self, cell: Cell) -> usize
        requires { IsOn self cell }
        ensures value { result ≡ index self cell }
        ensures within { result < self.width * self.height }
    {
        (cell.row as usize - 1) * self.width as usize + (cell.column as usize - 1)
    }

    /// Returns the next cell in reading order, or `None` after the last.
    pub fn next(self, cell: Cell) -> Option<Cell>
        requires { IsOn self cell }
        ensures { IsNextCell self cell result }
    {
        if cell.column < self.width {
            Some(Cell {
                column: cell.column + 1,
                ..cell
            })
        } else if cell.row < self.height {
            Some(Cell {
                row: cell.row + 1,
                column: 1,
            })
        } else {
            None
        }
    }
}
