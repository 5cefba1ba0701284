// One step from a cell to a neighbour (01 "Neighbours and shapes").
// Directions 0 to 3 are up, right, down, left; `last` is m - 1, the last row and column.
ghost use Rattle.std.specs.Prelude.{◌≡◌, false, ◌-◌, ◌≤◌};
ghost use Rattle.cell.specs.Cell.{IsCell, IsArrangement, found};
ghost use Rattle.cell.specs.Neighbour.{at, rows, turn_north, turn_south, leaves, within_face, neighbour_of, neighbour_refusal};
ghost use Rattle.cell.specs.Neighbour.{out_of_belt, out_of_north, out_of_south, across_edge};

use crate::{Arrangement, Cell};

impl Cell {
    // "Moving a cell one step in a direction hands back a new cell."
    pub fn step(self, arrangement: Arrangement, direction: u64) -> Result<Cell, u64>
        ensures { result ≡ found (neighbour_refusal arrangement self direction) (neighbour_of arrangement self direction) }
    {
        let unarranged = arrangement.refusal();
        if unarranged != 0 {
            return Err(unarranged);
        }
        let refusal = self.refusal();
        if refusal != 0 {
            return Err(refusal);
        }
        if direction > 3 {
            return Err(3);
        }
        Ok(self.neighbour(arrangement, direction))
    }

    // The same of a cell and an arrangement.
    pub fn neighbour(self, arrangement: Arrangement, direction: u64) -> Cell
        requires arrangement { IsArrangement arrangement }
        requires cell { IsCell self }
        ensures { result ≡ neighbour_of arrangement self direction }
    {
        let last = ternary::power(self.resolution) - 1;
        if self.leaves(direction, last) {
            return self.across_edge(arrangement, direction, last);
        }
        self.within_face(direction)
    }

    // The cell has no further cell of its face in that direction.
    pub fn leaves(self, direction: u64, last: u64) -> bool
        requires cell { IsCell self }
        requires last_value { last ≡ rows self - 1 }
        ensures { result ≡ leaves self direction }
    {
        let row = self.row;
        let column = self.column;
        match direction {
            0 => row == 0,
            1 => column == last,
            2 => row == last,
            _ => column == 0,
        }
    }

    // "Inside a face it is the plain step."
    fn within_face(self, direction: u64) -> Cell
        requires cell { IsCell self }
        requires direction_value { leaves self direction ≡ false }
        ensures { result ≡ within_face self direction }
    {
        let row = self.row;
        let column = self.column;
        match direction {
            0 => self.at(self.face, row - 1, column),
            1 => self.at(self.face, row, column + 1),
            2 => self.at(self.face, row + 1, column),
            _ => self.at(self.face, row, column - 1),
        }
    }

    // "The face across an edge is decided by face, direction and turn."
    fn across_edge(self, arrangement: Arrangement, direction: u64, last: u64) -> Cell
        requires arrangement { IsArrangement arrangement }
        requires cell { IsCell self }
        requires last_value { last ≡ rows self - 1 }
        ensures { result ≡ across_edge arrangement self direction }
    {
        let face = self.face;
        match face {
            0 => self.out_of_north(arrangement, direction, last),
            1..=4 => self.out_of_belt(face - 1, arrangement, direction, last),
            _ => self.out_of_south(arrangement, direction, last),
        }
    }

    // The table, from face b of O to R. "Right and left go round O, P, Q, R in the same row."
    fn out_of_belt(self, b: u64, arrangement: Arrangement, direction: u64, last: u64) -> Cell
        requires arrangement { IsArrangement arrangement }
        requires cell { IsCell self }
        requires last_value { last ≡ rows self - 1 }
        requires b_bound { b ≤ 3 }
        ensures { result ≡ out_of_belt arrangement self direction b }
    {
        let n = arrangement.north;
        let s = arrangement.south;
        let row = self.row;
        let column = self.column;
        match direction {
            0 => {
                let turn = (b + 4 - n) % 4;
                match turn {
                    0 => self.at(0, last, column),
                    1 => self.at(0, last - column, last),
                    2 => self.at(0, 0, last - column),
                    _ => self.at(0, column, 0),
                }
            }
            1 => self.at(1 + (b + 1) % 4, row, 0),
            2 => {
                let turn = (b + 4 - s) % 4;
                match turn {
                    0 => self.at(5, 0, column),
                    1 => self.at(5, column, last),
                    2 => self.at(5, last, last - column),
                    _ => self.at(5, last - column, 0),
                }
            }
            _ => self.at(1 + (b + 3) % 4, row, last),
        }
    }

    // "The down, right, up and left edges of N meet turns 0 to 3", and lead back by the inverse of the table's first line.
    fn out_of_north(self, arrangement: Arrangement, direction: u64, last: u64) -> Cell
        requires arrangement { IsArrangement arrangement }
        requires cell { IsCell self }
        requires last_value { last ≡ rows self - 1 }
        ensures { result ≡ out_of_north arrangement self (turn_north direction) }
    {
        let n = arrangement.north;
        let row = self.row;
        let column = self.column;
        match direction {
            0 => self.at(1 + (n + 2) % 4, 0, last - column),
            1 => self.at(1 + (n + 1) % 4, 0, last - row),
            2 => self.at(1 + n, 0, column),
            _ => self.at(1 + (n + 3) % 4, 0, row),
        }
    }

    // "for S it is the up, right, down and left edges", back by the inverse of the table's second line.
    fn out_of_south(self, arrangement: Arrangement, direction: u64, last: u64) -> Cell
        requires arrangement { IsArrangement arrangement }
        requires cell { IsCell self }
        requires last_value { last ≡ rows self - 1 }
        ensures { result ≡ out_of_south arrangement self (turn_south direction) }
    {
        let s = arrangement.south;
        let row = self.row;
        let column = self.column;
        match direction {
            0 => self.at(1 + s, last, column),
            1 => self.at(1 + (s + 1) % 4, last, row),
            2 => self.at(1 + (s + 2) % 4, last, last - column),
            _ => self.at(1 + (s + 3) % 4, last, last - row),
        }
    }

    // Another cell of the same resolution.
    fn at(self, face: u64, row: u64, column: u64) -> Cell
        ensures { result ≡ at self face row column }
    {
        Cell {
            face,
            resolution: self.resolution,
            row,
            column,
        }
    }
}
