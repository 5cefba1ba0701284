// name_fixes n s resolution [eccentricity]: reads a line `longitude z` for each fix, and writes for each the name of its cell, or the refusal number.
// With an eccentricity the lines are `longitude sine` (02 W-203). name_fixes settings FILE [REVISION]: the same with the settings of a revision, the
// newest if none is given (02 W-209).
#![tactic(auto)]

ghost use Rattle.std.specs.Prelude.{◌≤◌, length};
ghost use Rattle.name_fixes.specs.Answers.{Answered, AllAnswered, LastWaits};

use console::LineRead;
use flight::Setting;

// One line: its answer waits behind what waited before, or behind nothing where all of that was printed to make room.
fn answer_line(
    rt: &HostRuntime,
    setting: Setting,
    line: &[u8],
    out: &mut [u8],
    waiting: usize,
) -> Option<usize>
    requires { (waiting ≤ length out.old) × (21 ≤ length out.old) }
    ensures { Answered setting line.now waiting out.old out.new result }
{
    let Some(start) = console::make_room(rt, out, waiting, 21) else {
        return None;
    };
    Some(report::put_answer(setting, line, out, start))
}

// All lines of the input. Where reading fails, the lines that ended before are answered. No input has so many lines.
fn answer_all(
    rt: &HostRuntime,
    setting: Setting,
    bytes: &mut [u8],
    room: &mut [u8],
    out: &mut [u8],
) -> Option<usize>
    requires { (43 ≤ length room.old) × (21 ≤ length out.old) }
    ensures all_answered { AllAnswered setting out.new result }
    ensures last_waits { LastWaits out.old out.new result }
{
    let mut from: usize = 0;
    let mut end: usize = 0;
    let mut waiting: usize = 0;
    for _ in 0..u64::MAX {
        match console::next_line(rt, b"name_fixes", bytes, from, end, room) {
            LineRead::Line {
                length,
                from: next,
                end: stop,
            } => {
                let Some(count) = answer_line(rt, setting, &room[..length], out, waiting) else {
                    return None;
                };
                waiting = count;
                from = next;
                end = stop;
            }
            LineRead::Last { length } => {
                return answer_line(rt, setting, &room[..length], out, waiting);
            }
            LineRead::End => return Some(waiting),
            LineRead::Failed => return Some(waiting),
        }
    }
    Some(waiting)
}

fn main(rt: HostRuntime) {
    let rt = &rt;
    let Some(setting) = console::given_setting(rt, b"name_fixes") else {
        console::say(
            rt,
            b"usage: name_fixes n s resolution [eccentricity] < fixes > names\n       name_fixes settings FILE [REVISION] < fixes > names\n",
        );
        console::say(
            rt,
            b"  n and s are 0 to 3, the resolution is 0 to 15; a fix is a line `longitude z`\n",
        );
        console::say(
            rt,
            b"  with a squared eccentricity, 0 to 10000000000 in units of 10^-12, it is a line `longitude sine`; so it is with settings\n",
        );
        return;
    };
    let mut bytes = [0u8; 65536];
    let mut room = [0u8; 64];
    let mut out = [0u8; 65536];
    let Some(waiting) = answer_all(rt, setting, &mut bytes, &mut room, &mut out) else {
        return;
    };
    console::print_first(rt, &out, waiting);
}
