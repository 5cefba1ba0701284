// Cells and arrangements by value, and the steps up and down the hierarchy.
#![tactic(auto)]

ghost use Rattle.std.specs.Prelude.{◌≡◌, ◌≤◌, ◌<◌};
ghost use Rattle.cell.specs.Cell.{IsCell, cell_refusal, arrangement_refusal, found};
ghost use Rattle.cell.specs.Hierarchy.{parent_refusal, parent_of, child_refusal, child_of};

mod step;

// A face (0 to 5 are N, O, P, Q, R, S), a resolution, a row from the top and a column from the left.
#[derive(Clone, Copy)]
pub struct Cell {
    pub face: u64,
    pub resolution: u64,
    pub row: u64,
    pub column: u64,
}

// N lies above face `north` of O to R, and S below face `south`.
#[derive(Clone, Copy)]
pub struct Arrangement {
    pub north: u64,
    pub south: u64,
}

impl Arrangement {
    // 5, or 0 where this is an arrangement.
    pub fn refusal(self) -> u64
        ensures { result ≡ arrangement_refusal self }
    {
        if self.north > 3 {
            return 5;
        }
        if self.south > 3 {
            return 5;
        }
        0
    }
}

impl Cell {
    // 2, 1 or 3, or 0 where this is a cell.
    pub fn refusal(self) -> u64
        ensures { result ≡ cell_refusal self }
    {
        if self.resolution > 15 {
            return 2;
        }
        if self.face > 5 {
            return 1;
        }
        let m = ternary::power(self.resolution);
        if self.row >= m {
            return 3;
        }
        if self.column >= m {
            return 3;
        }
        0
    }

    // The cell that this one is a child of.
    pub fn parent(self) -> Result<Cell, u64>
        ensures { result ≡ found (parent_refusal self) (parent_of self) }
    {
        let refusal = self.refusal();
        if refusal != 0 {
            return Err(refusal);
        }
        if self.resolution == 0 {
            return Err(12); // a face has no parent
        }
        Ok(self.parent_cell())
    }

    // The same of a cell that has a parent.
    pub fn parent_cell(self) -> Cell
        requires { 0 < self.resolution }
        ensures { result ≡ parent_of self }
    {
        Cell {
            face: self.face,
            resolution: self.resolution - 1,
            row: self.row / 3,
            column: self.column / 3,
        }
    }

    // The child that a digit names.
    pub fn child(self, digit: u64) -> Result<Cell, u64>
        ensures { result ≡ found (child_refusal self digit) (child_of self digit) }
    {
        let refusal = self.refusal();
        if refusal != 0 {
            return Err(refusal);
        }
        if digit > 8 {
            return Err(3);
        }
        if self.resolution == 15 {
            return Err(12); // a finest cell has no child
        }
        Ok(self.child_cell(digit))
    }

    // The same of a cell, and of a digit that names a child.
    pub fn child_cell(self, digit: u64) -> Cell
        requires cell { IsCell self }
        requires digit_bound { digit ≤ 8 }
        ensures { result ≡ child_of self digit }
    {
        Cell {
            face: self.face,
            resolution: self.resolution + 1,
            row: 3 * self.row + digit / 3,
            column: 3 * self.column + digit % 3,
        }
    }
}
