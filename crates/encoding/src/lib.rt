// A history as bytes, for a file: the mark `JGS`, the version, the newest revision, and the 32 places, 8 bytes each.
#![tactic(auto)]

ghost use Rattle.std.specs.Prelude.{◌≡◌, ◌++◌, ◌+◌, ◌≤◌, ◌<◌, ◌^◌, length, drop};
ghost use Rattle.std.proofs.lemmas.List.Edits.{sets};
ghost use Rattle.fields.specs.Number.{number_at};
ghost use Rattle.encoding.specs.Encoding.{settings_bytes, encoding_of};
ghost use Rattle.encoding.specs.Decoding.{up_to, settings_at, newest_in, refused_at, decoded_of};

use history::{History, Settings};

// How long an encoding is.
pub const LENGTH: usize = 263;

// The mark `JGS` and the version 1 in two bytes, as one number.
const MARK: u64 = 0x4A_47_53_00_01;

// The history; or 9, with the place of the first byte that is wrong. (An enum cannot hold its array.)
#[derive(Clone, Copy)]
pub struct Decoded {
    pub refusal: u64,
    pub place: u64,
    pub history: History,
}

// A number of a place, up to the greatest that it may be: only 0 where no revision has reached the place.
fn number_up_to(
    bytes: &[u8],
    at: usize,
    width: usize,
    reached: bool,
    most: u64,
) -> Result<u64, usize>
    requires { (width ≤ 5) × (at + width < 2 ^ 64) }
    ensures { result ≡ number_at bytes.now at width 0 (up_to reached most) }
{
    if reached {
        return fields::number_at(bytes, at, width, 0, most);
    }
    fields::number_at(bytes, at, width, 0, 0)
}

// The settings of 8 bytes from `at` on.
fn settings_at(bytes: &[u8], at: usize, reached: bool) -> Result<Settings, usize>
    requires { at + 8 < 2 ^ 64 }
    ensures { result ≡ settings_at bytes.now at reached }
{
    let n = match number_up_to(bytes, at, 1, reached, 3) {
        Ok(n) => n,
        Err(place) => return Err(place),
    };
    let s = match number_up_to(bytes, at + 1, 1, reached, 3) {
        Ok(s) => s,
        Err(place) => return Err(place),
    };
    let resolution = match number_up_to(bytes, at + 2, 1, reached, 15) {
        Ok(resolution) => resolution,
        Err(place) => return Err(place),
    };
    match number_up_to(bytes, at + 3, 5, reached, 10_000_000_000) {
        Ok(eccentricity) => Ok(Settings {
            n,
            s,
            resolution,
            eccentricity,
        }),
        Err(place) => Err(place),
    }
}

// The newest revision, behind the mark and the version.
fn newest_in(bytes: &[u8]) -> Result<u64, usize>
    ensures { result ≡ newest_in bytes.now }
{
    match fields::number_at(bytes, 0, 5, MARK, MARK) {
        Ok(_) => fields::number_at(bytes, 5, 2, 0, 65_535),
        Err(place) => Err(place),
    }
}

// What is answered to bytes of which one is wrong.
fn refused_at(place: usize) -> Decoded
    ensures { result ≡ refused_at place }
{
    Decoded {
        refusal: 9,
        place: place as u64,
        history: history::no_history(),
    }
}

// The history that bytes encode, whatever they are: 9 where they are no encoding.
pub fn decode(bytes: &[u8]) -> Decoded
    ensures { result ≡ decoded_of bytes.now }
{
    let newest = match newest_in(bytes) {
        Ok(newest) => newest,
        Err(place) => return refused_at(place),
    };
    let mut kept = history::no_history().kept;
    for place in 0..32 {
        match settings_at(bytes, 7 + 8 * place, place as u64 <= newest) {
            Ok(settings) => kept[place] = settings,
            Err(at) => return refused_at(at),
        }
    }
    if bytes.len() > LENGTH {
        return refused_at(LENGTH);
    }
    Decoded {
        refusal: 0,
        place: 0,
        history: History { newest, kept },
    }
}

// Puts the 8 bytes of settings from `at` on.
fn put_settings(settings: Settings, bytes: &mut [u8], at: usize)
    requires { at + 8 ≤ length bytes.old }
    ensures { bytes.new ≡ sets bytes.old at (settings_bytes settings) }
{
    fields::put_number(settings.n, 1, bytes, at);
    fields::put_number(settings.s, 1, bytes, at + 1);
    fields::put_number(settings.resolution, 1, bytes, at + 2);
    fields::put_number(settings.eccentricity, 5, bytes, at + 3);
}

// Puts the encoding of a history in front. Of one that no run of calls hands back, the numbers are cut to their bytes.
pub fn encode(history: History, bytes: &mut [u8])
    requires { 263 ≤ length bytes.old }
    ensures { bytes.new ≡ encoding_of history ++ drop 263 bytes.old }
{
    let kept = history.kept;
    fields::put_number(MARK, 5, bytes, 0);
    fields::put_number(history.newest, 2, bytes, 5);
    for place in 0..32 {
        put_settings(kept[place], bytes, 7 + 8 * place);
    }
}
