// Powers of three and of nine, and a row and a column woven to digits of base nine and taken from them again. To weave, five digits at a time are
// looked up. To take apart, two digits at a time are looked up, and the row and the column stand in one number. A batch takes a table of three
// digits once and lends it on (02, W-202).
#![tactic(auto)]

ghost use Rattle.std.specs.Prelude.{◌≡◌, ◌*◌, ◌/◌, ◌%◌, ◌^◌, ◌≤◌, ◌<◌};
ghost use Rattle.ternary.specs.Threes.{Apart, Woven};
ghost use Rattle.ternary.specs.Weave.{weave, row_in, column_in, both_in};

mod apart;
mod digits;
mod spread;
mod weaving;

// 3^15, the rows of a face at the finest resolution.
pub const FINEST_ROWS: u64 = 14_348_907;

// 3^e.
pub fn power(e: u64) -> u64
    requires { e ≤ 15 }
    ensures { result ≡ 3 ^ e }
{
    match e {
        0 => 1,
        1 => 3,
        2 => 9,
        3 => 27,
        4 => 81,
        5 => 243,
        6 => 729,
        7 => 2_187,
        8 => 6_561,
        9 => 19_683,
        10 => 59_049,
        11 => 177_147,
        12 => 531_441,
        13 => 1_594_323,
        14 => 4_782_969,
        _ => FINEST_ROWS,
    }
}

// 9^e.
pub fn nine_power(e: u64) -> u64
    requires { e ≤ 15 }
    ensures { result ≡ 9 ^ e }
{
    let root = power(e);
    root * root
}

// 2^56, the whole of which a part is taken.
const WHOLE: u64 = 72_057_594_037_927_936;

// 2^56 / 3^15 rounded up: so many times that is the first part of a row or a column at the finest resolution.
pub const CELL: u64 = 5_021_817_623;

// The path of the first fifteen ternary digits of two parts of a whole, a row's and a column's. Five digits of each are found by one product, and
// looked up. The look-up stands in one place, so that the compiler puts it in here; and the six turns leave no loop.
pub fn woven(row: u64, column: u64) -> u64
    requires { (row < 2 ^ 56) × (column < 2 ^ 56) }
    ensures { result ≡ weave 15 (row * 3 ^ 15 / 2 ^ 56) (column * 3 ^ 15 / 2 ^ 56) }
{
    let mut this = row;
    let mut other = column;
    let mut by: u64 = 19_683;
    let mut then: u64 = 3;
    let mut path: u64 = 0;
    let mut turns: u64 = 6;
    while turns > 0 {
        let five = this * 243;
        path = path * by + spread::five_digits(five / WHOLE);
        this = other;
        other = five % WHOLE;
        let next = then;
        then = by;
        by = next;
        turns = turns - 1;
    }
    path
}

// A row and a column.
#[derive(Clone, Copy)]
pub struct Pair {
    pub row: u64,
    pub column: u64,
}

// The row and the column of four digits of a path, in one number, from those of two and two: 3^16 is below 2^32, so one product serves both.
fn four_digits(x: u64) -> u64
    requires { x < 6561 }
    ensures { result ≡ both_in 4 x }
{
    digits::two_digits(x / 81) * 9 + digits::two_digits(x % 81)
}

// The row and the column of eight digits of a path.
fn eight_digits(x: u64) -> u64
    requires { x < 43046721 }
    ensures { result ≡ both_in 8 x }
{
    four_digits(x / 6_561) * 81 + four_digits(x % 6_561)
}

// The row and the column of sixteen digits of a path.
fn sixteen_digits(x: u64) -> u64
    requires { x < 1853020188851841 }
    ensures { result ≡ both_in 16 x }
{
    eight_digits(x / 43_046_721) * 6_561 + eight_digits(x % 43_046_721)
}

// The row and the column of sixteen digits of a path. Where there are fewer, zeros before them change nothing.
pub fn unwoven(path: u64) -> Pair
    requires { path < 1853020188851841 }
    ensures { (result.row ≡ row_in 16 path) × (result.column ≡ column_in 16 path) }
{
    let both = sixteen_digits(path);
    Pair {
        row: both % 4_294_967_296,
        column: both / 4_294_967_296,
    }
}

// The table by which three digits of a path are taken apart.
pub fn apart_table() -> [u64; 729]
    ensures { Apart result }
{
    apart::APART
}

// The table by which three digits of a row and a column are woven.
pub fn woven_table() -> [u16; 729]
    ensures { Woven result }
{
    weaving::WOVEN
}

// The row and the column of three digits of a path, in one number.
fn three_apart(table: &[u64; 729], x: u64) -> u64
    requires { Apart table.now × (x < 729) }
    ensures { result ≡ both_in 3 x }
{
    let at = x as usize;
    table[at]
}

// The row and the column of six digits of a path.
fn six_apart(table: &[u64; 729], x: u64) -> u64
    requires { Apart table.now × (x < 531441) }
    ensures { result ≡ both_in 6 x }
{
    three_apart(table, x / 729) * 27 + three_apart(table, x % 729)
}

// The row and the column of twelve digits of a path.
fn twelve_apart(table: &[u64; 729], x: u64) -> u64
    requires { Apart table.now × (x < 282429536481) }
    ensures { result ≡ both_in 12 x }
{
    six_apart(table, x / 531_441) * 729 + six_apart(table, x % 531_441)
}

// The row and the column of fifteen digits of a path. Where there are fewer, zeros before them change nothing.
pub fn apart_by(table: &[u64; 729], path: u64) -> Pair
    requires { Apart table.now × (path < 205891132094649) }
    ensures { (result.row ≡ row_in 15 path) × (result.column ≡ column_in 15 path) }
{
    let high = three_apart(table, path / 282_429_536_481) * 531_441;
    let fifteen = high + twelve_apart(table, path % 282_429_536_481);
    Pair {
        row: fifteen % 4_294_967_296,
        column: fifteen / 4_294_967_296,
    }
}

// The three digits of a path, of a row and a column of three ternary digits.
fn three_woven(table: &[u16; 729], row: u64, column: u64) -> u64
    requires { Woven table.now × (row < 27) × (column < 27) }
    ensures { result ≡ weave 3 row column }
{
    let at = (27 * row + column) as usize;
    table[at] as u64
}

// A number below 3^15 as a part of 3^15, in units of 2^-27, rounded up: products with 27 bring its digits of base 27, the first one first.
fn part_of(x: u64) -> u64
    requires { x < 14348907 }
    ensures { (result < 134217728) × (result * 14348907 / 134217728 ≡ x) }
{
    x * 5_021_817_623 / 536_870_912 + 1
}

// The path of fifteen ternary digits of a row and a column, whose parts of 3^15 stand in one number.
pub fn woven_by(table: &[u16; 729], row: u64, column: u64) -> u64
    requires { Woven table.now × (row < 14348907) × (column < 14348907) }
    ensures { result ≡ weave 15 row column }
{
    let mut rest = part_of(row) * 4_294_967_296 + part_of(column);
    let mut path: u64 = 0;
    let mut left: u64 = 5; // times three digits
    while left > 0 {
        let next = rest * 27;
        let digits = three_woven(
            table,
            next / 576_460_752_303_423_488,
            next / 134_217_728 % 32,
        );
        path = path * 729 + digits;
        rest = next / 4_294_967_296 % 134_217_728 * 4_294_967_296 + next % 134_217_728;
        left = left - 1;
    }
    path
}
