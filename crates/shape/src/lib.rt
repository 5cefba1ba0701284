// The shape of a cell.
#![tactic(auto)]

ghost use Rattle.std.specs.Prelude.{◌≡◌, ◌≤◌, ◌<◌};
ghost use Rattle.cell.specs.Cell.{IsCell};
ghost use Rattle.shape.specs.Shape.{shape_of, cap_shape, shape_number};

use cell::Cell;

#[derive(Clone, Copy)]
pub enum Shape {
    Quad,
    Cap,
    Dart,
    SkewQuad,
}

// The shape of a cell of N or S, of m rows.
fn cap_shape(m: u64, row: u64, column: u64) -> Shape
    requires { (m ≤ 14348907) × (row < m) × (column < m) }
    ensures { result ≡ cap_shape m row column }
{
    if row == column {
        if 2 * row + 1 == m {
            return Shape::Cap;
        }
        return Shape::Dart;
    }
    if row + column + 1 == m {
        return Shape::Dart;
    }
    Shape::SkewQuad
}

// The shape of a cell.
pub fn shape_of(cell: Cell) -> Shape
    requires { IsCell cell }
    ensures { result ≡ shape_of cell }
{
    let face = cell.face;
    match face {
        1..=4 => Shape::Quad,
        _ => {
            let m = ternary::power(cell.resolution);
            cap_shape(m, cell.row, cell.column)
        }
    }
}

// Quad 0, cap 1, dart 2, skew quad 3.
pub fn number(shape: Shape) -> u64
    ensures { result ≡ shape_number shape }
{
    match shape {
        Shape::Quad => 0,
        Shape::Cap => 1,
        Shape::Dart => 2,
        Shape::SkewQuad => 3,
    }
}
