// The public entries, for C and whatever links a C library. Each takes any numbers and any bytes: what is bad gets its refusal number,
// zeros for the other answers, and no lent byte changed.
#![tactic(auto)]

ghost use Rattle.std.specs.Prelude.{◌≡◌, cond, length, take};
ghost use Rattle.logic.specs.Refusal.{given};
ghost use Rattle.cell.specs.Cell.{IsCell};
ghost use Rattle.code.specs.Code.{code_of, cell_of, arrangement_of, Placed, found_code};
ghost use Rattle.name.specs.Name.{code_name_refusal, name_in};
ghost use Rattle.corner.specs.List.{corner_memory};
ghost use Rattle.batch.specs.Batch.{cells_memory, codes_memory};
ghost use Rattle.reader.specs.Check.{checked_of};
ghost use Rattle.listing.specs.List.{listing_refusal, listed, codes_in};
ghost use Rattle.asking.specs.Ask.{ask_refusal, asked};
ghost use Rattle.adding.specs.Add.{text_with, add_refusal, added, placed};
ghost use Rattle.comparing.specs.Compare.{lists, shared_codes, compare_refusal, compared, with_codes};
ghost use Rattle.sheet.specs.Sheet.{sheet_refusal, sheet_in, written as sheet_written};
ghost use Rattle.sheet.specs.Verdict.{judged_of};
ghost use Rattle.logic.specs.Lent.{in_front};
ghost use Rattle.proper.specs.Proper.{proper_of};
ghost use Rattle.rescue.specs.Rescue.{flat, changes_of, rescue_refusal, told};
ghost use Rattle.entries.specs.Rescue.{rescue_numbers};
ghost use Rattle.entries.specs.Texts.{check_numbers, list_numbers, ask_numbers, written_numbers, add_numbers, compare_numbers};
ghost use Rattle.writing.specs.Write.{asks_for, write_refusal, text_of, text_in, written};
ghost use Rattle.entries.specs.Entries.{arrangement, coded_answer, code_answer, code_of_cell, code_cell, name_answer, written_name, parent_code, child_code};
ghost use Rattle.entries.specs.Entries.{cell_size, cell_shape, corner_count, cell_square, cell_nucleus, cell_vertices, point_code, neighbour_code, fix_code, ground_fix};
ghost use Rattle.entries.specs.Entries.{geodetic_z, geodetic_code, corner_cells};
ghost use Rattle.entries.specs.Batches.{cells_answer, codes_answer};
ghost use Rattle.entries.specs.Sheets.{sheet_numbers, sheet_length_numbers};
ghost use Rattle.entries.specs.Plotter.{mark_numbers, frame_numbers, point_marked, code_marked, frame_begun, frame_grown};
ghost use Rattle.entries.specs.Summary.{summary_of, summary_asked};
ghost use Rattle.entries.specs.Settings.{fresh_history, changed_history, back_history, read_settings};

use asking::Asked;
use cell::{Arrangement, Cell};
use comparing::Compared;
use entries::{
    AddAnswer, AskAnswer, CellAnswer, CheckAnswer, CodeAnswer, CompareAnswer, CountAnswer,
    FixAnswer, FrameAnswer, LengthAnswer, ListAnswer, MarkAnswer, NameAnswer, PointAnswer,
    RescueAnswer, ShapeAnswer, SheetAnswer, SheetLengthAnswer, SizeAnswer, SquareAnswer,
    SummaryAnswer, SummaryAskAnswer, VerticesAnswer, ZAnswer,
};
use history::{History, HistoryAnswer, Settings, SettingsAnswer};
use plotter::{Frame, Mark};
use reader::Checked;
use reading::Refused;
use rescue::Rescued;
use sheet::Judged;

// A code, or its refusal, as numbers.
fn coded_answer(coded: Result<u64, u64>) -> CodeAnswer
    ensures { result ≡ coded_answer coded }
{
    match coded {
        Ok(code) => CodeAnswer { refusal: 0, code },
        Err(refusal) => CodeAnswer { refusal, code: 0 },
    }
}

// The code of a cell that was found in an arrangement, or the refusal, as numbers.
fn found_answer(arrangement: Arrangement, found: Result<Cell, u64>) -> CodeAnswer
    requires { Placed arrangement found }
    ensures { result ≡ coded_answer (found_code arrangement found) }
{
    coded_answer(code::found_code(arrangement, found))
}

// 5 where n or s is above 3, 2, 1 or 3 where the numbers are no cell.
#[unsafe(no_mangle)]
pub extern "C" fn jgv_cell_code(
    n: u64,
    s: u64,
    face: u64,
    resolution: u64,
    row: u64,
    column: u64,
) -> CodeAnswer
    ensures { result ≡ code_of_cell n s face resolution row column }
{
    let arrangement = Arrangement { north: n, south: s }; // `coded_cell` tests it
    let cell = Cell {
        face,
        resolution,
        row,
        column,
    };
    coded_answer(code::coded_cell(arrangement, cell))
}

// 4 where the code is no cell's.
#[unsafe(no_mangle)]
pub extern "C" fn jgv_code_cell(code: u64) -> CellAnswer
    ensures { result ≡ code_cell code }
{
    match code::cell_of(code) {
        Ok(cell) => {
            let arrangement = code::arrangement_of(code);
            CellAnswer {
                refusal: 0,
                n: arrangement.north, // read from the code
                s: arrangement.south, // read from the code
                face: cell.face,
                resolution: cell.resolution,
                row: cell.row,
                column: cell.column,
            }
        }
        Err(refusal) => CellAnswer {
            refusal,
            n: 0, // of no arrangement
            s: 0, // and no s
            face: 0,
            resolution: 0,
            row: 0,
            column: 0,
        },
    }
}

// For each code the seven numbers that `jgv_code_cell` answers: 8 where the room is short.
#[unsafe(no_mangle)]
pub extern "C" fn jgv_code_cells(codes: &[u64], numbers: &mut [u64]) -> CountAnswer
    ensures value { result ≡ cells_answer codes.now (length numbers.old) }
    ensures numbers_after { numbers.new ≡ cells_memory codes.now numbers.old }
{
    match batch::code_cells(codes, numbers) {
        Ok(count) => CountAnswer { refusal: 0, count }, // codes
        Err(refusal) => CountAnswer {
            refusal, // of the whole batch of codes
            count: 0, // none of the codes was answered
        },
    }
}

// For each six numbers the two that `jgv_cell_code` answers: 8 where the room is short.
#[unsafe(no_mangle)]
pub extern "C" fn jgv_cell_codes(numbers: &[u64], codes: &mut [u64]) -> CountAnswer
    ensures value { result ≡ codes_answer numbers.now (length codes.old) }
    ensures codes_after { codes.new ≡ codes_memory numbers.now codes.old }
{
    match batch::cell_codes(numbers, codes) {
        Ok(count) => CountAnswer { refusal: 0, count }, // cells
        Err(refusal) => CountAnswer {
            refusal, // of the whole batch of cells
            count: 0, // none of the cells was answered
        },
    }
}

// 5 where n or s is above 3, 2, 1 or 3 where the bytes are no name.
#[unsafe(no_mangle)]
pub extern "C" fn jgv_name_code(n: u64, s: u64, name: &[u8]) -> CodeAnswer
    ensures { result ≡ name_answer n s name.now }
{
    let arrangement = Arrangement { north: n, south: s }; // no name says it
    let refusal = arrangement.refusal();
    if refusal != 0 {
        return CodeAnswer { refusal, code: 0 };
    }
    coded_answer(name::name_code(arrangement, name))
}

// 4 where the code is no cell's, 8 where the room is shorter than the name.
#[unsafe(no_mangle)]
pub extern "C" fn jgv_code_name(code: u64, name: &mut [u8]) -> NameAnswer
    ensures value { result ≡ written_name code (length name.old) }
    ensures name_after { name.new ≡ given (code_name_refusal code (length name.old)) (name_in code name.old) name.old }
{
    match name::code_name(code, name) {
        Ok(length) => {
            let arrangement = code::arrangement_of(code);
            NameAnswer {
                refusal: 0,
                n: arrangement.north, // of the code
                s: arrangement.south, // of the code
                length,
            }
        }
        Err(refusal) => NameAnswer {
            refusal,
            n: 0, // of a name that is refused
            s: 0, // and no s
            length: 0,
        },
    }
}

// The code of a cell in the arrangement of another code.
fn kept(code: u64, cell: Cell) -> CodeAnswer
    requires { IsCell cell }
    ensures { result ≡ code_answer 0 (code_of (arrangement_of code) cell) }
{
    CodeAnswer {
        refusal: 0, // in the code's arrangement
        code: code::code_of(code::arrangement_of(code), cell),
    }
}

// 4 where the code is no cell's, 12 at resolution 0.
#[unsafe(no_mangle)]
pub extern "C" fn jgv_parent(code: u64) -> CodeAnswer
    ensures { result ≡ parent_code code }
{
    let Ok(cell) = code::cell_of(code) else {
        return CodeAnswer {
            refusal: 4, // comes before 12
            code: 0,
        };
    };
    if cell.resolution == 0 {
        return CodeAnswer {
            refusal: 12, // a face has no parent
            code: 0,
        };
    }
    kept(code, cell.parent_cell())
}

// 3 where the digit is above 8, 4 where the code is no cell's, 12 at resolution 15.
#[unsafe(no_mangle)]
pub extern "C" fn jgv_child(code: u64, digit: u64) -> CodeAnswer
    ensures { result ≡ child_code code digit }
{
    if digit > 8 {
        return CodeAnswer {
            refusal: 3, // comes before 4 and 12
            code: 0,
        };
    }
    let Ok(cell) = code::cell_of(code) else {
        return CodeAnswer {
            refusal: 4,
            code: 0,
        };
    };
    if cell.resolution == 15 {
        return CodeAnswer {
            refusal: 12, // a finest cell has no child
            code: 0,
        };
    }
    kept(code, cell.child_cell(digit))
}

// 4 where the code is no cell's.
#[unsafe(no_mangle)]
pub extern "C" fn jgv_size(code: u64) -> SizeAnswer
    ensures { result ≡ cell_size code }
{
    if !code::is_code(code) {
        return SizeAnswer {
            refusal: 4, // every cell has a size
            size: 0, // of no cell
        };
    }
    SizeAnswer {
        refusal: 0,
        size: code::size_in(code),
    }
}

// 4 where the code is no cell's.
#[unsafe(no_mangle)]
pub extern "C" fn jgv_shape(code: u64) -> ShapeAnswer
    ensures { result ≡ cell_shape code }
{
    let Ok(cell) = code::cell_of(code) else {
        return ShapeAnswer {
            refusal: 4, // every cell has a shape
            shape: 0,
        };
    };
    ShapeAnswer {
        refusal: 0,
        shape: shape::number(shape::shape_of(cell)),
    }
}

// 4 where the code is no cell's.
#[unsafe(no_mangle)]
pub extern "C" fn jgv_corner_count(code: u64) -> CountAnswer
    ensures { result ≡ corner_count code }
{
    let Ok(cell) = code::cell_of(code) else {
        return CountAnswer {
            refusal: 4, // every cell has corners
            count: 0, // of no cell
        };
    };
    CountAnswer {
        refusal: 0,
        count: corner::count(cell),
    }
}

// 4 where the code is no cell's, 8 where the room is shorter than the list.
#[unsafe(no_mangle)]
pub extern "C" fn jgv_corner_cells(code: u64, codes: &mut [u64]) -> CountAnswer
    ensures value { result ≡ corner_cells code (length codes.old) }
    ensures codes_after { codes.new ≡ corner_memory code codes.old }
{
    match corner::list(code, codes) {
        Ok(count) => CountAnswer { refusal: 0, count }, // corners
        Err(refusal) => CountAnswer {
            refusal,
            count: 0, // none was listed
        },
    }
}

// 5 where n or s is above 3, 2 where the resolution is above 15, 7 where the point is outside the image.
#[unsafe(no_mangle)]
pub extern "C" fn jgv_point_code(n: u64, s: u64, resolution: u64, x: i64, y: i64) -> CodeAnswer
    ensures { result ≡ point_code n s resolution x y }
{
    let arrangement = Arrangement { north: n, south: s }; // `point_cell` tests it
    found_answer(
        arrangement,
        plane::point_cell(arrangement, resolution, x, y),
    )
}

// 5 where n or s is above 3, 2 where the resolution is above 15, 6 where the longitude or z is out of range.
#[unsafe(no_mangle)]
pub extern "C" fn jgv_fix_code(
    n: u64,
    s: u64,
    resolution: u64,
    longitude: i64,
    z: i64,
) -> CodeAnswer
    ensures { result ≡ fix_code n s resolution longitude z }
{
    let arrangement = Arrangement { north: n, south: s }; // `fix_refusal` tests it
    let refusal = locate::fix_refusal(arrangement, resolution, longitude, z);
    if refusal != 0 {
        return CodeAnswer { refusal, code: 0 };
    }
    if locate::in_belt(z) {
        return CodeAnswer {
            refusal: 0,
            code: locate::belt_fix(n, s, resolution, longitude, z),
        };
    }
    CodeAnswer {
        refusal: 0,
        code: locate::cap_fix(n, s, resolution, longitude, z),
    }
}

// 6 where the sine or the squared eccentricity is out of range (02 W-203).
#[unsafe(no_mangle)]
pub extern "C" fn jgv_geodetic_z(sine: i64, eccentricity: u64) -> ZAnswer
    ensures { result ≡ geodetic_z sine eccentricity }
{
    if authalic::is_geodetic(sine, eccentricity) {
        return ZAnswer {
            refusal: 0,
            z: authalic::sine_of(sine, eccentricity),
        };
    }
    ZAnswer {
        refusal: 6,
        z: 0, // of no sine
    }
}

// 5 where n or s is above 3, 2 where the resolution is above 15, 6 where the longitude, the sine or the squared eccentricity is out of range.
#[unsafe(no_mangle)]
pub extern "C" fn jgv_geodetic_code(
    n: u64,
    s: u64,
    resolution: u64,
    longitude: i64,
    sine: i64,
    eccentricity: u64,
) -> CodeAnswer
    ensures { result ≡ geodetic_code n s resolution longitude sine eccentricity }
{
    let arrangement = Arrangement { north: n, south: s }; // `geodetic::coded_fix` tests it
    coded_answer(geodetic::coded_fix(
        arrangement,
        resolution,
        longitude,
        sine, // of which z is made
        eccentricity,
    ))
}

// 3 where the direction is above 3, 4 where the code is no cell's.
#[unsafe(no_mangle)]
pub extern "C" fn jgv_neighbour(code: u64, direction: u64) -> CodeAnswer
    ensures { result ≡ neighbour_code code direction }
{
    if direction > 3 {
        return CodeAnswer {
            refusal: 3, // comes before 4
            code: 0,
        };
    }
    let Ok(cell) = code::cell_of(code) else {
        return CodeAnswer {
            refusal: 4,
            code: 0,
        };
    };
    kept(code, cell.neighbour(code::arrangement_of(code), direction))
}

// 4 where the code is no cell's.
#[unsafe(no_mangle)]
pub extern "C" fn jgv_square(code: u64) -> SquareAnswer
    ensures { result ≡ cell_square code }
{
    match code::cell_of(code) {
        Ok(cell) => {
            let arrangement = code::arrangement_of(code);
            let square = plane::square_of(arrangement, cell);
            SquareAnswer {
                refusal: 0,
                left: square.left,
                top: square.top,
                side: square.side,
            }
        }
        Err(refusal) => SquareAnswer {
            refusal,
            left: 0,
            top: 0,
            side: 0,
        },
    }
}

// 4 where the code is no cell's.
#[unsafe(no_mangle)]
pub extern "C" fn jgv_nucleus(code: u64) -> PointAnswer
    ensures { result ≡ cell_nucleus code }
{
    match code::cell_of(code) {
        Ok(cell) => {
            let arrangement = code::arrangement_of(code);
            let point = plane::nucleus_of(arrangement, cell);
            PointAnswer {
                refusal: 0,
                x: point.x,
                y: point.y,
            }
        }
        Err(refusal) => PointAnswer {
            refusal,
            x: 0,
            y: 0,
        },
    }
}

// 4 where the code is no cell's.
#[unsafe(no_mangle)]
pub extern "C" fn jgv_vertices(code: u64) -> VerticesAnswer
    ensures { result ≡ cell_vertices code }
{
    match code::cell_of(code) {
        Ok(cell) => {
            let arrangement = code::arrangement_of(code);
            let vertices = plane::vertices_of(arrangement, cell);
            let x = vertices.x;
            let y = vertices.y;
            VerticesAnswer { refusal: 0, x, y }
        }
        Err(refusal) => VerticesAnswer {
            refusal,
            x: [0; 4],
            y: [0; 4],
        },
    }
}

// 4 where the code is no cell's.
#[unsafe(no_mangle)]
pub extern "C" fn jgv_ground_nucleus(code: u64) -> FixAnswer
    ensures { result ≡ ground_fix code }
{
    match code::cell_of(code) {
        Ok(cell) => {
            let arrangement = code::arrangement_of(code);
            let fix = nucleus::ground_nucleus(arrangement, cell);
            FixAnswer {
                refusal: 0,
                longitude: fix.longitude,
                z: fix.z,
            }
        }
        Err(refusal) => FixAnswer {
            refusal,
            longitude: 0,
            z: 0,
        },
    }
}

// 13 where the text is longer than 65,536 bytes, 10 where its version is not 1, 9 with the place where it is not of the grammar.
#[unsafe(no_mangle)]
pub extern "C" fn jgv_coverage_check(text: &[u8]) -> CheckAnswer
    ensures { result ≡ check_numbers (checked_of text.now) }
{
    match reader::check(text) {
        Ok(checked) => CheckAnswer {
            refusal: 0,
            place: 0,
            version: reading::version_of(checked.profile),
            depth: reading::depth_of(checked.profile),
            n: checked.arrangement.north,
            s: checked.arrangement.south,
            cells: checked.cells,
            size: checked.size,
        },
        Err(Refused { refusal, place }) => CheckAnswer {
            refusal,
            place,
            version: 0, // of a text that is refused
            depth: 0, // and no depth
            n: 0, // and no n
            s: 0, // and no s
            cells: 0, // and no cells
            size: 0, // and no sum of sizes
        },
    }
}

// 13, 10 and 9 as in checking, 8 where the room is shorter than the list.
#[unsafe(no_mangle)]
pub extern "C" fn jgv_coverage_list(text: &[u8], codes: &mut [u64]) -> ListAnswer
    ensures value { result ≡ list_numbers (listed (listing_refusal text.now (length codes.old)) text.now) }
    ensures codes_after { codes.new ≡ given (listing_refusal text.now (length codes.old)) (codes_in text.now codes.old) codes.old }
{
    match listing::list(text, codes) {
        Ok(count) => ListAnswer {
            refusal: 0,
            place: 0, // of a list
            count,
        },
        Err(Refused { refusal, place }) => ListAnswer {
            refusal,
            place,
            count: 0, // of a list that is refused
        },
    }
}

// 5 where n or s is above 3, 2 where the depth is above 15, 4 where a code is no cell's, 10 where the version is neither 1 nor 2, 14 where a code is of
// another arrangement, 11 where the list is not rising or nested, 15 where it is outside the profile, 13 where the text would be longer than 65,536
// bytes, 8 where the room is shorter than the text.
#[unsafe(no_mangle)]
pub extern "C" fn jgv_coverage_write(
    version: u64,
    depth: u64,
    n: u64,
    s: u64,
    codes: &[u64],
    text: &mut [u8],
) -> LengthAnswer
    ensures value { result ≡ written_numbers (written (write_refusal version depth (arrangement n s) codes.now (length text.old)) (length (text_of (asks_for version depth) (arrangement n s) codes.now))) }
    ensures text_after { text.new ≡ given (write_refusal version depth (arrangement n s) codes.now (length text.old)) (text_in (asks_for version depth) (arrangement n s) codes.now text.old) text.old }
{
    let arrangement = Arrangement { north: n, south: s }; // `write` tests it
    match writing::write(version, depth, arrangement, codes, text) {
        Ok(length) => LengthAnswer { refusal: 0, length },
        Err(refusal) => LengthAnswer {
            refusal,
            length: 0, // of a text that is refused
        },
    }
}

// 4 where the code is no cell's, 13, 10 and 9 as in checking, 14 where the heading's arrangement is not the code's.
#[unsafe(no_mangle)]
pub extern "C" fn jgv_coverage_ask(text: &[u8], code: u64) -> AskAnswer
    ensures { result ≡ ask_numbers (asked (ask_refusal text.now code) text.now code) }
{
    match asking::ask(text, code) {
        Ok(Asked { covered, settled }) => AskAnswer {
            refusal: 0,
            place: 0,
            covered: as_number(covered),
            settled,
        },
        Err(Refused { refusal, place }) => AskAnswer {
            refusal,
            place,
            covered: 0, // of a question that is refused
            settled: 0, // by nothing
        },
    }
}

// The first `length` of the lent bytes are said to be a text. 4 where the code is no cell's, 13 where that is longer than 65,536 bytes, 8 where it is
// longer than the room, 10, 9 and 14 as in asking, 15 where the text with the cell would be outside its profile, 13 and 8 where it would be too long.
#[unsafe(no_mangle)]
pub extern "C" fn jgv_coverage_add(text: &mut [u8], length: u64, code: u64) -> AddAnswer
    ensures value { result ≡ add_numbers (added (add_refusal text.old length code) (take length text.old) code) }
    ensures text_after { text.new ≡ placed (add_refusal text.old length code) (text_with (take length text.old) (cell_of code)) text.old }
{
    match adding::add(text, length as usize, code) {
        Ok(length) => AddAnswer {
            refusal: 0,
            place: 0, // of a text
            length: length as u64,
        },
        Err(Refused { refusal, place }) => AddAnswer {
            refusal,
            place,
            length: 0, // of a cell that is refused
        },
    }
}

// 1 for yes, 0 for no.
fn as_number(yes: bool) -> u64
    ensures { result ≡ cond yes 1 0 }
{
    if yes { 1 } else { 0 }
}

// A mark as numbers: kind 1 is a point, 2 a box, 0 nothing.
fn mark_answer(mark: Mark) -> MarkAnswer
    ensures { result ≡ mark_numbers mark }
{
    match mark {
        Mark::Point(x, y) => MarkAnswer {
            refusal: 0,
            kind: 1, // a point
            numbers: [x, y, 0.0, 0.0],
        },
        Mark::Box(left, bottom, right, top) => MarkAnswer {
            refusal: 0,
            kind: 2, // a box
            numbers: [left, bottom, right, top],
        },
        Mark::Nothing(refusal) => MarkAnswer {
            refusal,
            kind: 0, // nothing
            numbers: [0.0; 4],
        },
    }
}

// Four edges as numbers.
fn frame_answer(framed: Result<Frame, u64>) -> FrameAnswer
    ensures { result ≡ frame_numbers framed }
{
    match framed {
        Ok(frame) => FrameAnswer {
            refusal: 0,
            left: frame.left,
            bottom: frame.bottom,
            right: frame.right,
            top: frame.top,
        },
        Err(refusal) => FrameAnswer {
            refusal,
            left: 0.0, // of no frame
            bottom: 0.0, // and no bottom
            right: 0.0, // and no right
            top: 0.0, // and no top
        },
    }
}

// 19 where the side is not from 1 to 2^30, 5 where n or s is above 3, 7 where the point is outside the image (02 W-214).
#[unsafe(no_mangle)]
pub extern "C" fn jgv_mark_point(side: f64, n: u64, s: u64, x: i64, y: i64) -> MarkAnswer
    ensures { result ≡ point_marked side n s x y }
{
    let arrangement = Arrangement { north: n, south: s }; // `mark_point` tests it
    mark_answer(plotter::mark_point(side, arrangement, x, y))
}

// 19 where the side is not from 1 to 2^30, 4 where the code is no cell's.
#[unsafe(no_mangle)]
pub extern "C" fn jgv_mark_code(side: f64, code: u64) -> MarkAnswer
    ensures { result ≡ code_marked side code }
{
    mark_answer(plotter::mark_code(side, code))
}

// 19 where the side is not from 1 to 2^30, 4 where the code is no cell's.
#[unsafe(no_mangle)]
pub extern "C" fn jgv_frame_first(side: f64, code: u64) -> FrameAnswer
    ensures { result ≡ frame_begun side code }
{
    frame_answer(plotter::frame_first(side, code))
}

// 19 where the side is not from 1 to 2^30 or an edge of the frame is not a number, 4 where the code is no cell's.
#[unsafe(no_mangle)]
pub extern "C" fn jgv_frame_grow(side: f64, frame: Frame, code: u64) -> FrameAnswer
    ensures { result ≡ frame_grown side frame code }
{
    frame_answer(plotter::frame_grow(side, frame, code))
}

// 5 where n or s is above 3, 2 where the resolution is above 15, 6 where the squared eccentricity is out of range (02 W-209).
#[unsafe(no_mangle)]
pub extern "C" fn jgv_settings_fresh(
    n: u64,
    s: u64,
    resolution: u64,
    eccentricity: u64,
) -> HistoryAnswer
    ensures { result ≡ fresh_history n s resolution eccentricity }
{
    history::fresh(Settings {
        n, // of revision 0
        s, // of revision 0
        resolution,
        eccentricity,
    })
}

// 5, 2 and 6 as for a fresh one, 16 where the revision is not the newest, 17 where that is 65,535.
#[unsafe(no_mangle)]
pub extern "C" fn jgv_settings_change(
    history: History,
    revision: u64,
    n: u64,
    s: u64,
    resolution: u64,
    eccentricity: u64,
) -> HistoryAnswer
    ensures { result ≡ changed_history history revision n s resolution eccentricity }
{
    let settings = Settings {
        n, // of the next revision
        s, // of the next revision
        resolution,
        eccentricity,
    };
    history::change(history, revision, settings)
}

// 18 where the wanted revision is not kept, 16 where the revision is not the newest, 17 where that is 65,535.
#[unsafe(no_mangle)]
pub extern "C" fn jgv_settings_back(history: History, revision: u64, wanted: u64) -> HistoryAnswer
    ensures { result ≡ back_history history revision wanted }
{
    history::back(history, revision, wanted)
}

// 18 where the revision is not kept.
#[unsafe(no_mangle)]
pub extern "C" fn jgv_settings_read(history: History, revision: u64) -> SettingsAnswer
    ensures { result ≡ read_settings history revision }
{
    history::read(history, revision)
}

// "ground only in the first, only in the second, and in both": the first text's 13, 10 or 9, then the second's, 14 where their headings differ in n or s,
// 8 where any room is short.
#[unsafe(no_mangle)]
pub extern "C" fn jgv_coverage_compare(
    first: &[u8],
    second: &[u8],
    firsts: &mut [u64],
    seconds: &mut [u64],
    boths: &mut [u64],
) -> CompareAnswer
    ensures value { result ≡ compare_numbers (compared (compare_refusal first.now second.now (lists firsts.old seconds.old boths.old)) first.now second.now) }
    ensures boths_after { lists firsts.new seconds.new boths.new ≡ given (compare_refusal first.now second.now (lists firsts.old seconds.old boths.old)) (with_codes (shared_codes first.now second.now) (lists firsts.old seconds.old boths.old)) (lists firsts.old seconds.old boths.old) }
{
    match comparing::compare(first, second, firsts, seconds, boths) {
        Ok(compared) => CompareAnswer {
            refusal: 0,
            place: 0, // of two texts
            first_cells: compared.first.count,
            second_cells: compared.second.count,
            both_cells: compared.both.count,
            first_size: compared.first.size,
            second_size: compared.second.size,
            both_size: compared.both.size,
        },
        Err(Refused { refusal, place }) => CompareAnswer {
            refusal,
            place,
            first_cells: 0,
            second_cells: 0,
            both_cells: 0,
            first_size: 0,
            second_size: 0,
            both_size: 0,
        },
    }
}

// Whether a sheet is the one that our rules make of a text, and where not the first record that differs. 13, 10, 9 where the text is none.
#[unsafe(no_mangle)]
pub extern "C" fn jgv_sheet_check(text: &[u8], sheet: &[u8]) -> SheetAnswer
    ensures { result ≡ sheet_numbers (judged_of text.now sheet.now) }
{
    match sheet::check(text, sheet) {
        Judged::Right => SheetAnswer {
            refusal: 0,
            place: 0,
            right: 1, // yes
            record: 0,
        },
        Judged::Wrong(record) => SheetAnswer {
            refusal: 0,
            place: 0,
            right: 0, // no
            record,
        },
        Judged::Refused { refusal, place } => SheetAnswer {
            refusal,
            place,
            right: 0, // neither
            record: 0,
        },
    }
}

// The sheet that our rules make of a text. 13, 10, 9 where the text is none, 8 where the room is shorter than the sheet.
#[unsafe(no_mangle)]
pub extern "C" fn jgv_sheet_write(text: &[u8], sheet: &mut [u8]) -> SheetLengthAnswer
    ensures value { result ≡ sheet_length_numbers (sheet_written (sheet_refusal text.now (length sheet.old)) text.now) }
    ensures sheet_after { sheet.new ≡ given (sheet_refusal text.now (length sheet.old)) (sheet_in text.now sheet.old) sheet.old }
{
    match sheet::write(text, sheet) {
        Ok(length) => SheetLengthAnswer {
            refusal: 0,
            place: 0, // of a sheet
            length,
        },
        Err(Refused { refusal, place }) => SheetLengthAnswer {
            refusal,
            place,
            length: 0, // of a sheet that is refused
        },
    }
}

// The proper text of a hand-edited one, and what was changed, place and kind of each change one behind the other. 13; 10 where the version is not 1; 9
// where the body is not of the looser form; 8 where the room for the text or for the changes, counted in numbers, is short.
#[unsafe(no_mangle)]
pub extern "C" fn jgv_coverage_rescue(
    text: &[u8],
    proper: &mut [u8],
    changed: &mut [u64],
) -> RescueAnswer
    ensures value { result ≡ rescue_numbers (told (rescue_refusal text.now (length proper.old) (length changed.old)) text.now) }
    ensures proper_after { proper.new ≡ given (rescue_refusal text.now (length proper.old) (length changed.old)) (in_front (proper_of text.now) proper.old) proper.old }
    ensures changed_after { changed.new ≡ given (rescue_refusal text.now (length proper.old) (length changed.old)) (in_front (flat (changes_of text.now)) changed.old) changed.old }
{
    match rescue::rescue(text, proper, changed) {
        Ok(Rescued { length, changes }) => RescueAnswer {
            refusal: 0,
            place: 0, // of a rescue
            length,
            changes,
        },
        Err(Refused { refusal, place }) => RescueAnswer {
            refusal,
            place,
            length: 0, // of a rescue that is refused
            changes: 0,
        },
    }
}

// 13, 10 and 9 as in checking.
#[unsafe(no_mangle)]
pub extern "C" fn jgv_summary(text: &[u8]) -> SummaryAnswer
    ensures { result ≡ summary_of text.now }
{
    let mut counters = [0u64; 486];
    match summary::summarize(text, &mut counters) {
        Ok(Arrangement { north, south }) => SummaryAnswer {
            refusal: 0,
            place: 0, // of a summary
            n: north,
            s: south,
            counters,
        },
        Err(Refused { refusal, place }) => SummaryAnswer {
            refusal,
            place,
            n: 0, // of a text that is not summed up
            s: 0,
            counters,
        },
    }
}

// 5 where the kept n or s is above 3, 4 where the code is no cell's, 2 where its cell is finer than resolution 2, 14 where its arrangement is not the
// kept one.
#[unsafe(no_mangle)]
pub extern "C" fn jgv_summary_ask(
    n: u64,
    s: u64,
    counters: &[u64; 486],
    code: u64,
) -> SummaryAskAnswer
    ensures { result ≡ summary_asked n s counters.now code }
{
    let kept = Arrangement { north: n, south: s }; // `question` tests it
    match summary::question(kept, counters, code) {
        Ok(covered) => SummaryAskAnswer {
            refusal: 0,
            covered: as_number(covered),
        },
        Err(refusal) => SummaryAskAnswer {
            refusal,
            covered: 0, // by counters that are not looked at
        },
    }
}
