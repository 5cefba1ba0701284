// What the parts of a coverage text are: the letters of faces and the digits of nodes.
#![tactic(auto)]

ghost use Rattle.std.specs.Prelude.{◌≡◌, eqb, length, get_or};
ghost use Rattle.reading.specs.Heading.{lead};
ghost use Rattle.reading.specs.Reading.{first, many, room as room_of};
ghost use Rattle.reading.specs.Text.{version_of, level_of, depth_of, heading_length};

// "text longer than 65,536 bytes, read or to be written"
pub const LONGEST: usize = 65_536;

// Why a text is refused: the number of the refusal, and with 9 the place where the grammar ends.
#[derive(Clone, Copy)]
pub struct Refused {
    pub refusal: u64,
    pub place: u64,
}

// What nodes side by side are: faces of which each may hold a list, faces of which N and S stand only whole, or digits.
#[derive(Clone, Copy)]
pub enum Level {
    Faces,
    Belt,
    Digits,
}

// What a text may hold: version 1, or version 2, the handheld profile, with its greatest depth.
#[derive(Clone, Copy)]
pub enum Profile {
    Full,
    Handheld(u64),
}

// The version of its texts.
pub fn version_of(profile: Profile) -> u64
    ensures { result ≡ version_of profile }
{
    match profile {
        Profile::Full => 1,
        Profile::Handheld(_) => 2,
    }
}

// What its faces are.
pub fn level_of(profile: Profile) -> Level
    ensures { result ≡ level_of profile }
{
    match profile {
        Profile::Full => Level::Faces,
        Profile::Handheld(_) => Level::Belt,
    }
}

// How many digits may lie below a face.
pub fn depth_of(profile: Profile) -> u64
    ensures { result ≡ depth_of profile }
{
    match profile {
        Profile::Full => 15,
        Profile::Handheld(depth) => depth,
    }
}

// The number of bytes of its heading.
pub fn heading_length(profile: Profile) -> usize
    ensures { result ≡ heading_length profile }
{
    match profile {
        Profile::Full => 7,
        Profile::Handheld(_) => 8,
    }
}

// The byte of number 0.
pub fn first_byte(level: Level) -> u8
    ensures { result ≡ first level }
{
    match level {
        Level::Faces => b'N',
        Level::Belt => b'N',
        Level::Digits => b'0',
    }
}

// How many numbers there are.
pub fn how_many(level: Level) -> u8
    ensures { result ≡ many level }
{
    match level {
        Level::Faces => 6,
        Level::Belt => 6,
        Level::Digits => 9,
    }
}

// How many digits may lie below a node of this number, where `room` may lie below the level's nodes.
pub fn room_below(level: Level, number: u8, room: u64) -> u64
    ensures { result ≡ room_of level number room }
{
    match level {
        Level::Faces => room,
        Level::Belt => {
            if number == 0 {
                return 0;
            }
            if number == 5 {
                return 0;
            }
            room
        }
        Level::Digits => room,
    }
}

// How many leading bytes lie between the least and the greatest byte at their place.
pub fn lead_in(text: &[u8], least: &[u8], greatest: &[u8]) -> usize
    requires { length least.now ≡ length greatest.now }
    ensures { result ≡ lead least.now greatest.now text.now }
{
    for i in 0..least.len() {
        if i == text.len() {
            return i;
        }
        if text[i] < least[i] {
            return i;
        }
        if greatest[i] < text[i] {
            return i;
        }
    }
    least.len()
}

// Whether a `(` stands at a place.
pub fn opens_at(text: &[u8], at: usize) -> bool
    ensures { result ≡ eqb (get_or text.now at 0) 40 }
{
    if at >= text.len() {
        return false;
    }
    text[at] == b'('
}
