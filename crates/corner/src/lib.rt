// The cells that meet a cell at a corner only (02, W-204): how many they are, and their codes.
#![tactic(auto)]

ghost use Rattle.std.specs.Prelude.{◌≡◌, ◌≤◌, ◌<◌, length, take};
ghost use Rattle.cell.specs.Cell.{IsCell, IsArrangement};
ghost use Rattle.track.specs.Track.{Held};
ghost use Rattle.corner.specs.Corner.{first_or_last, corner_number};
ghost use Rattle.corner.specs.List.{face_corner, across_corner, with_corner, corner_codes, codes_at, in_front, cornered, corners_refusal, corner_memory};

use cell::{Arrangement, Cell};

// The first or the last of m rows or columns.
fn first_or_last(m: u64, i: u64) -> bool
    requires { i < m }
    ensures { result ≡ first_or_last m i }
{
    if i == 0 {
        return true;
    }
    i + 1 == m
}

// "At resolution 0 the number is 0. Above that it is 3 for a cell in a corner of its face .., and 4 for every other cell."
pub fn count(cell: Cell) -> u64
    requires { IsCell cell }
    ensures { result ≡ corner_number cell }
{
    if cell.resolution == 0 {
        return 0;
    }
    let m = ternary::power(cell.resolution);
    if first_or_last(m, cell.row) {
        if first_or_last(m, cell.column) {
            return 3;
        }
        return 4;
    }
    4
}

// Whether three cells only meet at the corner between a direction and the next one.
fn face_corner(cell: Cell, direction: u64) -> bool
    requires cell { IsCell cell }
    requires direction_bound { direction < 4 }
    ensures { result ≡ face_corner cell direction }
{
    let last = ternary::power(cell.resolution) - 1;
    if cell.leaves(direction, last) {
        return cell.leaves((direction + 1) % 4, last);
    }
    false
}

// The cell across that corner, where four meet: a step inside the face, and one at a right angle to it.
fn across_corner(arrangement: Arrangement, cell: Cell, direction: u64) -> Cell
    requires arrangement { IsArrangement arrangement }
    requires cell { IsCell cell }
    requires direction_bound { direction < 4 }
    ensures { result ≡ across_corner arrangement cell direction }
{
    let last = ternary::power(cell.resolution) - 1;
    let next = (direction + 1) % 4;
    if cell.leaves(direction, last) {
        let beside = cell.neighbour(arrangement, next);
        return beside.neighbour(arrangement, direction);
    }
    let ahead = cell.neighbour(arrangement, direction);
    ahead.neighbour(arrangement, next)
}

// Takes the code of the cell across that corner, if four cells meet there, into the first `count` codes, which rise.
fn put_corner(
    arrangement: Arrangement,
    cell: Cell,
    direction: u64,
    codes: &mut [u64],
    count: usize,
) -> usize
    requires arrangement { IsArrangement arrangement }
    requires cell { IsCell cell }
    requires direction_bound { direction < 4 }
    requires held { Held codes.old count }
    requires codes_in_bounds { length (with_corner arrangement cell direction (take count codes.old)) ≤ length codes.old }
    ensures value { result ≡ length (with_corner arrangement cell direction (take count codes.old)) }
    ensures codes_after { codes.new ≡ in_front (with_corner arrangement cell direction (take count codes.old)) codes.old }
{
    if face_corner(cell, direction) {
        return count;
    }
    let across = across_corner(arrangement, cell, direction);
    let code = code::code_of(arrangement, across);
    match track::add(codes, count, code) {
        Ok(more) => more,
        Err(_) => count, // never
    }
}

// The codes of the cells that meet a cell at a corner, to the front of `codes`.
fn put_corners(arrangement: Arrangement, cell: Cell, codes: &mut [u64])
    requires arrangement { IsArrangement arrangement }
    requires cell { IsCell cell }
    requires cell_in_bounds { length (corner_codes arrangement cell) ≤ length codes.old }
    ensures { codes.new ≡ in_front (corner_codes arrangement cell) codes.old }
{
    let mut count: usize = 0;
    for direction in 0..4 {
        count = put_corner(arrangement, cell, direction, codes, count);
    }
}

// "list these cells in rising code order, under any arrangement": 4 where the code is no cell's, 8 where the room is short.
pub fn list(code: u64, codes: &mut [u64]) -> Result<u64, u64>
    ensures value { result ≡ cornered (corners_refusal code (length codes.old)) (length (codes_at code)) }
    ensures codes_after { codes.new ≡ corner_memory code codes.old }
{
    let Ok(cell) = code::cell_of(code) else {
        return Err(4);
    };
    let number = count(cell);
    if (codes.len() as u64) < number {
        return Err(8);
    }
    put_corners(code::arrangement_of(code), cell, codes);
    Ok(number)
}
