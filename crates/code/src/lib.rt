// Codes: a cell and the arrangement that it is of. How a code is made is known here only.
#![tactic(auto)]

ghost use Rattle.std.specs.Prelude.{◌≡◌, true, ◌+◌, ◌-◌, ◌*◌, ◌/◌, ◌^◌, ◌≤◌, ◌<◌};
ghost use Rattle.logic.specs.Refusal.{◌otherwise◌};
ghost use Rattle.ternary.specs.Weave.{weave};
ghost use Rattle.cell.specs.Cell.{IsCell, IsArrangement, cell_refusal, arrangement_refusal, found};
ghost use Rattle.code.specs.Code.{cell_code_at, is_cell_code, cell_code_refusal, cell_split};
ghost use Rattle.code.specs.Code.{code_at, code_of, is_code, cell_of, arrangement_of, is_of, code_refusal, size_of, coded, Placed, found_code, split};
ghost use Rattle.code.specs.Inside.{start_of};
ghost use Rattle.code.specs.Number.{code_as};

use cell::{Arrangement, Cell};

// The size of a face, 9^15.
pub const FACE_SIZE: u64 = 205_891_132_094_649;

// What a code is made of.
#[derive(Clone, Copy)]
pub struct Parts {
    pub face: u64,
    pub resolution: u64,
    pub path: u64,
}

// The cell's part of a code, of a face, a resolution and a path.
fn cell_code_at(face: u64, resolution: u64, path: u64) -> u64
    requires { (face ≤ 5) × (resolution ≤ 15) × (path < 9 ^ resolution) }
    ensures { (result ≡ cell_code_at face resolution path) × (result ≤ 19765548681086303) }
{
    let finest = path * ternary::nine_power(15 - resolution);
    (face * FACE_SIZE + finest) * 16 + resolution
}

// A cell's part and an arrangement, put together.
fn with_arrangement(arrangement: Arrangement, part: u64) -> u64
    requires arrangement { IsArrangement arrangement }
    requires part_bound { part < 2 ^ 59 }
    ensures { result ≡ 16 * part + (4 * arrangement.north + arrangement.south) }
{
    16 * part + (4 * arrangement.north + arrangement.south)
}

// The code of a face, a resolution and a path.
pub fn code_at(arrangement: Arrangement, face: u64, resolution: u64, path: u64) -> u64
    requires arrangement { IsArrangement arrangement }
    requires face_bound { (face ≤ 5) × (resolution ≤ 15) × (path < 9 ^ resolution) }
    ensures { result ≡ code_at arrangement face resolution path }
{
    with_arrangement(arrangement, cell_code_at(face, resolution, path))
}

// What stands behind the finest path in a code: the resolution and the arrangement.
pub fn ending(arrangement: Arrangement, resolution: u64) -> u64
    requires arrangement { IsArrangement arrangement }
    requires resolution_bound { resolution ≤ 15 }
    ensures { (result ≡ 16 * resolution + (4 * arrangement.north + arrangement.south)) × (result < 256) }
{
    16 * resolution + (4 * arrangement.north + arrangement.south)
}

// The code of a face and of how far down and how far right on it a place lies, in parts of 2^56, with that ending. All weaving is done here, since the compiler
// puts it in line only where it has one caller. Four numbers stay in registers.
pub fn code_by(ending: u64, face: u64, row: u64, column: u64) -> u64
    requires { (ending < 256) × (face ≤ 5) × (row < 2 ^ 56) × (column < 2 ^ 56) }
    ensures { result ≡ weave 15 (row * 3 ^ 15 / 2 ^ 56) (column * 3 ^ 15 / 2 ^ 56) * 256 + (face * (9 ^ 15 * 256) + ending) }
{
    let path = ternary::woven(row, column);
    path * 256 + (face * (FACE_SIZE * 256) + ending)
}

// The code of a face, a resolution, a row and a column, each as the first part of its finest ones.
pub fn code_in(arrangement: Arrangement, face: u64, resolution: u64, row: u64, column: u64) -> u64
    requires arrangement { IsArrangement arrangement }
    requires face_bound { (face ≤ 5) × (resolution ≤ 15) × (row < 3 ^ resolution) × (column < 3 ^ resolution) }
    ensures { result ≡ code_at arrangement face resolution (weave resolution row column) }
{
    let cell = ternary::CELL * ternary::power(15 - resolution);
    let ending = ending(arrangement, resolution);
    code_by(ending, face, row * cell, column * cell)
}

// The code of a cell.
pub fn code_of(arrangement: Arrangement, cell: Cell) -> u64
    requires arrangement { IsArrangement arrangement }
    requires cell { IsCell cell }
    ensures { result ≡ code_of arrangement cell }
{
    let row = cell.row;
    let column = cell.column;
    code_in(arrangement, cell.face, cell.resolution, row, column)
}

// The code of any numbers: 5 where they are no arrangement, 2, 1 or 3 where they are no cell.
pub fn coded_cell(arrangement: Arrangement, cell: Cell) -> Result<u64, u64>
    ensures { result ≡ coded (arrangement_refusal arrangement otherwise cell_refusal cell) (code_of arrangement cell) }
{
    let unarranged = arrangement.refusal();
    if unarranged != 0 {
        return Err(unarranged);
    }
    let refusal = cell.refusal();
    if refusal != 0 {
        return Err(refusal);
    }
    Ok(code_of(arrangement, cell))
}

// The code of a cell that was found, or the refusal.
pub fn found_code(arrangement: Arrangement, found: Result<Cell, u64>) -> Result<u64, u64>
    requires { Placed arrangement found }
    ensures { result ≡ found_code arrangement found }
{
    let place = found?;
    Ok(code_of(arrangement, place))
}

// Whether a number is the cell's part of a code: below 6 x 9^15 it lies in one of the faces.
fn is_cell_code(part: u64) -> bool
    ensures { result ≡ is_cell_code part }
{
    let finest = part / 16;
    if finest < 1_235_346_792_567_894 {
        return finest % ternary::nine_power(15 - part % 16) == 0;
    }
    false
}

// Whether some cell has this code.
pub fn is_code(code: u64) -> bool
    ensures { result ≡ is_code code }
{
    is_cell_code(code / 16)
}

// The face, the resolution and the path of the cell's part of a code: 4 where it is none. One quotient tells both the path and whether a digit
// stands below the resolution.
fn cell_parts(part: u64) -> Result<Parts, u64>
    ensures { result ≡ cell_split (cell_code_refusal part) part }
{
    let number = part / 16;
    let face = number / FACE_SIZE;
    if face >= 6 {
        return Err(4); // no face
    }
    let resolution = part % 16;
    let step = ternary::nine_power(15 - resolution);
    let rest = number % FACE_SIZE;
    let path = rest / step;
    if path * step != rest {
        return Err(4); // a digit below the resolution
    }
    Ok(Parts {
        face,
        resolution,
        path,
    })
}

// The face, the resolution and the path of a code: 4 where it is no cell's.
pub fn parts_of(code: u64) -> Result<Parts, u64>
    ensures { result ≡ split (code_refusal code) code }
{
    cell_parts(code / 16)
}

// The arrangement that a code is of.
pub fn arrangement_of(code: u64) -> Arrangement
    ensures { result ≡ arrangement_of code }
{
    Arrangement {
        north: code / 4 % 4,
        south: code % 4,
    }
}

// Whether a code is of an arrangement.
pub fn is_of(arrangement: Arrangement, code: u64) -> bool
    requires { IsArrangement arrangement }
    ensures { result ≡ is_of arrangement code }
{
    code % 16 == 4 * arrangement.north + arrangement.south
}

// The cell of a code: 4 where it is no cell's.
pub fn cell_of(code: u64) -> Result<Cell, u64>
    ensures { result ≡ found (code_refusal code) (cell_of code) }
{
    let parts = parts_of(code)?;
    let place = ternary::unwoven(parts.path);
    Ok(Cell {
        face: parts.face,
        resolution: parts.resolution,
        row: place.row,
        column: place.column,
    })
}

// The number of the first finest cell of a code's cell.
pub fn start_in(code: u64) -> u64
    requires { is_code code ≡ true }
    ensures { result ≡ start_of (cell_of code) }
{
    code / 256
}

// The number of finest cells of a code's cell.
pub fn size_in(code: u64) -> u64
    ensures { result ≡ size_of (cell_of code) }
{
    ternary::nine_power(15 - code / 16 % 16)
}

// The code of a cell that is given by its resolution and its number.
pub fn code_as(arrangement: Arrangement, resolution: u64, number: u64) -> u64
    requires arrangement { IsArrangement arrangement }
    requires resolution_bound { (resolution ≤ 15) × (number < 9 ^ (resolution + 1)) }
    ensures { result ≡ code_as arrangement resolution number }
{
    let part = number * ternary::nine_power(15 - resolution) * 16 + resolution;
    with_arrangement(arrangement, part)
}
