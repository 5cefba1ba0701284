// What the public entries answer: a struct for each shape of answer, `refusal` first. The definitions and laws of the answers are in specs/.
#![tactic(auto)]

#[repr(C)]
#[derive(Clone, Copy)]
pub struct CodeAnswer {
    pub refusal: u64,
    pub code: u64,
}

#[repr(C)]
#[derive(Clone, Copy)]
pub struct CellAnswer {
    pub refusal: u64,
    pub n: u64,
    pub s: u64,
    pub face: u64,
    pub resolution: u64,
    pub row: u64,
    pub column: u64,
}

#[repr(C)]
#[derive(Clone, Copy)]
pub struct NameAnswer {
    pub refusal: u64,
    pub n: u64,
    pub s: u64,
    pub length: u64,
}

#[repr(C)]
#[derive(Clone, Copy)]
pub struct LengthAnswer {
    pub refusal: u64,
    pub length: u64,
}

#[repr(C)]
#[derive(Clone, Copy)]
pub struct SizeAnswer {
    pub refusal: u64,
    pub size: u64,
}

#[repr(C)]
#[derive(Clone, Copy)]
pub struct ShapeAnswer {
    pub refusal: u64,
    pub shape: u64,
}

#[repr(C)]
#[derive(Clone, Copy)]
pub struct CountAnswer {
    pub refusal: u64,
    pub count: u64,
}

#[repr(C)]
#[derive(Clone, Copy)]
pub struct SquareAnswer {
    pub refusal: u64,
    pub left: i64,
    pub top: i64,
    pub side: i64,
}

#[repr(C)]
#[derive(Clone, Copy)]
pub struct PointAnswer {
    pub refusal: u64,
    pub x: i64,
    pub y: i64,
}

#[repr(C)]
#[derive(Clone, Copy)]
pub struct ZAnswer {
    pub refusal: u64,
    pub z: i64,
}

#[repr(C)]
#[derive(Clone, Copy)]
pub struct FixAnswer {
    pub refusal: u64,
    pub longitude: i64,
    pub z: i64,
}

#[repr(C)]
#[derive(Clone, Copy)]
pub struct VerticesAnswer {
    pub refusal: u64,
    pub x: [i64; 4],
    pub y: [i64; 4],
}

#[repr(C)]
#[derive(Clone, Copy)]
pub struct CheckAnswer {
    pub refusal: u64,
    pub place: u64,
    pub version: u64,
    pub depth: u64,
    pub n: u64,
    pub s: u64,
    pub cells: u64,
    pub size: u64,
}

#[repr(C)]
#[derive(Clone, Copy)]
pub struct ListAnswer {
    pub refusal: u64,
    pub place: u64,
    pub count: u64,
}

#[repr(C)]
#[derive(Clone, Copy)]
pub struct AskAnswer {
    pub refusal: u64,
    pub place: u64,
    pub covered: u64,
    pub settled: u64,
}

#[repr(C)]
#[derive(Clone, Copy)]
pub struct MarkAnswer {
    pub refusal: u64,
    pub kind: u64,
    pub numbers: [f64; 4],
}

#[repr(C)]
#[derive(Clone, Copy)]
pub struct FrameAnswer {
    pub refusal: u64,
    pub left: f64,
    pub bottom: f64,
    pub right: f64,
    pub top: f64,
}

#[repr(C)]
#[derive(Clone, Copy)]
pub struct AddAnswer {
    pub refusal: u64,
    pub place: u64,
    pub length: u64,
}

#[repr(C)]
#[derive(Clone, Copy)]
pub struct CompareAnswer {
    pub refusal: u64,
    pub place: u64,
    pub first_cells: u64,
    pub second_cells: u64,
    pub both_cells: u64,
    pub first_size: u64,
    pub second_size: u64,
    pub both_size: u64,
}

#[repr(C)]
#[derive(Clone, Copy)]
pub struct SheetAnswer {
    pub refusal: u64,
    pub place: u64,
    pub right: u64,
    pub record: u64,
}

#[repr(C)]
#[derive(Clone, Copy)]
pub struct RescueAnswer {
    pub refusal: u64,
    pub place: u64,
    pub length: u64,
    pub changes: u64,
}

#[repr(C)]
#[derive(Clone, Copy)]
pub struct SheetLengthAnswer {
    pub refusal: u64,
    pub place: u64,
    pub length: u64,
}

#[repr(C)]
#[derive(Clone, Copy)]
pub struct SummaryAnswer {
    pub refusal: u64,
    pub place: u64,
    pub n: u64,
    pub s: u64,
    pub counters: [u64; 486],
}

#[repr(C)]
#[derive(Clone, Copy)]
pub struct SummaryAskAnswer {
    pub refusal: u64,
    pub covered: u64,
}
