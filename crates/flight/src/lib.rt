// A line of a flight: the code of its fix, and the text with its cell.
#![tactic(auto)]

ghost use Rattle.std.specs.Prelude.{◌≡◌, true, [], ◌≤◌, length, take, Ok};
ghost use Rattle.cell.specs.Cell.{IsArrangement, found};
ghost use Rattle.code.specs.Code.{is_code, found_code};
ghost use Rattle.reading.specs.declared.Profile.TheVariants.{Full};
ghost use Rattle.reading.specs.Written.{written_text};
ghost use Rattle.adding.specs.InMind.{InMind};
ghost use Rattle.flight.specs.Setting.{latitude_refusal, setting_refusal};
ghost use Rattle.flight.specs.Flight.{line_refusal, line_cell, no_fix, line_code};
ghost use Rattle.flight.specs.Recording.{taken, taken_text, Records, recording_after};

use cell::Arrangement;
use reading::{Profile, Refused};

// What the second number of a line is: z, the sine of the authalic latitude; or the sine of the geodetic latitude on an ellipsoid with this squared
// eccentricity (02 W-203).
#[derive(Clone, Copy)]
pub enum Latitude {
    Authalic,
    Geodetic(u64),
}

impl Latitude {
    // 6 where the squared eccentricity is out of range, else 0.
    pub fn refusal(self) -> u64
        ensures { result ≡ latitude_refusal self }
    {
        match self {
            Latitude::Authalic => 0,
            Latitude::Geodetic(eccentricity) => authalic::eccentricity_refusal(eccentricity),
        }
    }
}

// What a flight is recorded in.
#[derive(Clone, Copy)]
pub struct Setting {
    pub arrangement: Arrangement,
    pub resolution: u64,
    pub latitude: Latitude,
}

impl Setting {
    // 5, 2 or 6, or 0 where this can be used.
    pub fn refusal(self) -> u64
        ensures { result ≡ setting_refusal self }
    {
        let refusal = self.arrangement.refusal();
        if refusal != 0 {
            return refusal;
        }
        if self.resolution > 15 {
            return 2;
        }
        let latitude = self.latitude;
        latitude.refusal()
    }
}

// The answer to a line that is no fix: the setting's refusal, otherwise 6.
fn no_fix(setting: Setting) -> Result<u64, u64>
    ensures { result ≡ no_fix setting }
{
    let refusal = setting.refusal();
    if refusal != 0 {
        return Err(refusal);
    }
    Err(6)
}

// The code of the cell in which the fix of these two numbers lies, or the refusal.
fn coded_fix(setting: Setting, longitude: i64, second: i64) -> Result<u64, u64>
    ensures { result ≡ found_code setting.arrangement (found (line_refusal setting longitude second) (line_cell setting longitude second)) }
{
    let arrangement = setting.arrangement;
    let resolution = setting.resolution;
    let latitude = setting.latitude;
    match latitude {
        Latitude::Authalic => locate::coded_fix(arrangement, resolution, longitude, second),
        Latitude::Geodetic(eccentricity) => {
            geodetic::coded_fix(arrangement, resolution, longitude, second, eccentricity)
        }
    }
}

// The code of the cell in which a line's fix lies: 5, 2 or 6, and 6 too where the line is no fix.
pub fn line_code(setting: Setting, line: &[u8]) -> Result<u64, u64>
    ensures { result ≡ line_code setting line.now }
{
    let Some((longitude, second)) = decimal::fix_in(line) else {
        return no_fix(setting);
    };
    coded_fix(setting, longitude, second) // tests the setting too
}

// A flight recorded in a text: the text's length, and the code of the fix that was taken last, or a number that is no code.
#[derive(Clone, Copy)]
pub struct Recording {
    pub length: usize,
    pub last: u64,
}

// The text of no cell, in front of the room. The three numbers keep in mind where the last fix's cell was looked for (`adding::add_near`).
pub fn begin(arrangement: Arrangement, text: &mut [u8], near: &mut [u64]) -> Recording
    requires { IsArrangement arrangement × (65536 ≤ length text.old) × (length near.old ≡ 3) }
    ensures text_after { take result.length text.new ≡ written_text Full arrangement.north arrangement.south [] }
    ensures records { Records text.new result × (length text.new ≡ length text.old) }
    ensures in_mind { InMind (take result.length text.new) near.new }
{
    let none = [0u64; 1];
    let Ok(length) = writing::write(1, 15, arrangement, &none[..0], text) else {
        return Recording {
            length: 0,
            last: u64::MAX,
        };
    };
    near[2] = 0;
    near[0] = length; // there are no faces yet
    near[1] = 0;
    Recording {
        length: length as usize,
        last: u64::MAX, // no fix yet
    }
}

// Takes the cell of a code into the text: 13 where it would be too long, or 8 for its room. The cell of the last fix is in it already.
fn take_code(
    text: &mut [u8],
    recording: Recording,
    code: u64,
    near: &mut [u64],
) -> Result<Recording, u64>
    requires { Records text.old recording × (is_code code ≡ true) × InMind (take recording.length text.old) near.old }
    ensures value { result ≡ taken (Ok code) (length text.old) (take recording.length text.old) }
    ensures text_after { text.new ≡ taken_text (Ok code) text.old (take recording.length text.old) }
    ensures records { Records text.new (recording_after result recording) }
    ensures in_mind { InMind (take (recording_after result recording).length text.new) near.new }
{
    if code == recording.last {
        return Ok(recording);
    }
    match adding::add_near(Profile::Full, text, recording.length, code, near) {
        Ok(length) => Ok(Recording { length, last: code }),
        Err(Refused { refusal, place: _ }) => Err(refusal),
    }
}

// Takes the cell of a line's fix into the text: the refusals of `line_code`, and 13 where the text would be too long, or 8 for its room. `near` is what
// `begin` or the line before left there.
pub fn take_line(
    setting: Setting,
    line: &[u8],
    text: &mut [u8],
    recording: Recording,
    near: &mut [u64],
) -> Result<Recording, u64>
    requires { Records text.old recording × InMind (take recording.length text.old) near.old }
    ensures value { result ≡ taken (line_code setting line.now) (length text.old) (take recording.length text.old) }
    ensures text_after { text.new ≡ taken_text (line_code setting line.now) text.old (take recording.length text.old) }
    ensures records { Records text.new (recording_after result recording) }
    ensures in_mind { InMind (take (recording_after result recording).length text.new) near.new }
{
    match line_code(setting, line) {
        Ok(code) => take_code(text, recording, code, near),
        Err(refusal) => Err(refusal),
    }
}
