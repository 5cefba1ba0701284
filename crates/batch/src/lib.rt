// Batches (02, W-202): many codes to cells and back, three levels at a time. A constant array is copied where it is used, so a batch takes its table
// once and lends it on. What each code or cell gets is what it gets alone.
#![tactic(auto)]

ghost use Rattle.std.specs.Prelude.{◌≡◌, ◌+◌, ◌*◌, ◌≤◌, length, drop};
ghost use Rattle.std.proofs.lemmas.List.Edits.{sets};
ghost use Rattle.logic.specs.Refusal.{◌otherwise◌};
ghost use Rattle.ternary.specs.Threes.{Apart, Woven};
ghost use Rattle.cell.specs.Cell.{cell_refusal, arrangement_refusal, found};
ghost use Rattle.code.specs.Code.{code_of, cell_of, code_refusal, coded};
ghost use Rattle.batch.specs.Batch.{seven, seven_of, cells_of, cells_refusal, cells_memory};
ghost use Rattle.batch.specs.Batch.{two_in, coded_at, cells_in, codes_of, codes_refusal, codes_memory, batched};

use cell::{Arrangement, Cell};

// The cell of a code, three levels at a time: 4 where it is no cell's.
fn cell_by(table: &[u64; 729], code: u64) -> Result<Cell, u64>
    requires { Apart table.now }
    ensures { result ≡ found (code_refusal code) (cell_of code) }
{
    let Ok(parts) = code::parts_of(code) else {
        return Err(4);
    };
    let place = ternary::apart_by(table, parts.path);
    Ok(Cell {
        face: parts.face,
        resolution: parts.resolution,
        row: place.row,
        column: place.column,
    })
}

// Puts a refusal and the numbers of an arrangement and a cell to a place.
fn put_cell(numbers: &mut [u64], at: usize, refusal: u64, arrangement: Arrangement, cell: Cell)
    requires { at + 7 ≤ length numbers.old }
    ensures { numbers.new ≡ sets numbers.old at (seven refusal arrangement cell) }
{
    numbers[at] = refusal;
    numbers[at + 1] = arrangement.north;
    numbers[at + 2] = arrangement.south;
    numbers[at + 3] = cell.face;
    numbers[at + 4] = cell.resolution;
    numbers[at + 5] = cell.row;
    numbers[at + 6] = cell.column;
}

// Puts what a code gets to a place: six zeros behind a refusal.
fn put_code(table: &[u64; 729], code: u64, numbers: &mut [u64], at: usize)
    requires { Apart table.now × (at + 7 ≤ length numbers.old) }
    ensures { numbers.new ≡ sets numbers.old at (seven_of code) }
{
    match cell_by(table, code) {
        Ok(cell) => put_cell(numbers, at, 0, code::arrangement_of(code), cell),
        Err(refusal) => {
            let nowhere = Arrangement { north: 0, south: 0 };
            let none = Cell {
                face: 0,
                resolution: 0,
                row: 0,
                column: 0,
            };
            put_cell(numbers, at, refusal, nowhere, none)
        }
    }
}

// Puts what each code gets, one behind the other.
fn put_cells(table: &[u64; 729], codes: &[u64], numbers: &mut [u64])
    requires { Apart table.now × (7 * length codes.now ≤ length numbers.old) }
    ensures { numbers.new ≡ sets numbers.old 0 (cells_of codes.now) }
{
    let mut at: usize = 0;
    for i in 0..codes.len() {
        put_code(table, codes[i], numbers, at);
        at = at + 7;
    }
}

// The cells of codes, seven numbers each: 8 where the room is short.
pub fn code_cells(codes: &[u64], numbers: &mut [u64]) -> Result<u64, u64>
    ensures value { result ≡ batched (cells_refusal codes.now (length numbers.old)) (length codes.now) }
    ensures numbers_after { numbers.new ≡ cells_memory codes.now numbers.old }
{
    if numbers.len() / 7 < codes.len() {
        return Err(8); // seven numbers to a code
    }
    let table = ternary::apart_table();
    put_cells(&table, codes, numbers);
    Ok(codes.len() as u64)
}

// The code of any numbers, three levels at a time: 5 where they are no arrangement, 2, 1 or 3 where they are no cell.
fn coded_by(table: &[u16; 729], arrangement: Arrangement, cell: Cell) -> Result<u64, u64>
    requires { Woven table.now }
    ensures { result ≡ coded (arrangement_refusal arrangement otherwise cell_refusal cell) (code_of arrangement cell) }
{
    let unarranged = arrangement.refusal();
    if unarranged != 0 {
        return Err(unarranged);
    }
    let refusal = cell.refusal();
    if refusal != 0 {
        return Err(refusal);
    }
    let path = ternary::woven_by(table, cell.row, cell.column);
    Ok(code::code_at(arrangement, cell.face, cell.resolution, path))
}

// Puts what a cell gets to a place: the refusal, and the code or 0.
fn put_coded(codes: &mut [u64], at: usize, coded: Result<u64, u64>)
    requires { at + 2 ≤ length codes.old }
    ensures { codes.new ≡ sets codes.old at (two_in coded) }
{
    match coded {
        Ok(code) => {
            codes[at] = 0;
            codes[at + 1] = code;
        }
        Err(refusal) => {
            codes[at] = refusal;
            codes[at + 1] = 0;
        }
    }
}

// Puts what the cell whose six numbers stand at a place gets to another.
fn put_at(table: &[u16; 729], numbers: &[u64], i: usize, codes: &mut [u64], at: usize)
    requires { Woven table.now × (i + 6 ≤ length numbers.now) × (at + 2 ≤ length codes.old) }
    ensures { codes.new ≡ sets codes.old at (two_in (coded_at (drop i numbers.now))) }
{
    let arrangement = Arrangement {
        north: numbers[i],
        south: numbers[i + 1],
    };
    let cell = Cell {
        face: numbers[i + 2],
        resolution: numbers[i + 3],
        row: numbers[i + 4],
        column: numbers[i + 5],
    };
    put_coded(codes, at, coded_by(table, arrangement, cell));
}

// Puts what each cell gets, one behind the other.
fn put_codes(table: &[u16; 729], numbers: &[u64], codes: &mut [u64])
    requires { Woven table.now × (2 * cells_in numbers.now ≤ length codes.old) }
    ensures { codes.new ≡ sets codes.old 0 (codes_of numbers.now) }
{
    let mut from: usize = 0;
    let mut at: usize = 0;
    for _ in 0..numbers.len() / 6 {
        put_at(table, numbers, from, codes, at);
        from = from + 6;
        at = at + 2;
    }
}

// The codes of cells of six numbers each, two numbers each: 8 where the room is short.
pub fn cell_codes(numbers: &[u64], codes: &mut [u64]) -> Result<u64, u64>
    ensures value { result ≡ batched (codes_refusal numbers.now (length codes.old)) (cells_in numbers.now) }
    ensures codes_after { codes.new ≡ codes_memory numbers.now codes.old }
{
    let count = numbers.len() / 6;
    if codes.len() / 2 < count {
        return Err(8); // two numbers to a cell
    }
    let table = ternary::woven_table();
    put_codes(&table, numbers, codes);
    Ok(count as u64)
}
