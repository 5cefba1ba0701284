// compare FILE FILE: what the first text covers and the second does not, what the second covers and the first does not, and what both cover.
#![tactic(auto)]

ghost use Rattle.std.specs.Prelude.{◌≡◌, ◌≤◌, length};
ghost use Rattle.comparing.specs.Compare.{lists, compare_refusal};
ghost use Rattle.compare.specs.Printed.{ListingIn, ListingPrinted, Stopped, ThreePrinted, ListingsWritten};
ghost use Rattle.compare.specs.Loaded.{bytes_of};

use comparing::Compared;
use reader::Checked;
use reading::Refused;

// Whether all was printed. How many bytes stand in each of the three rooms then; and the refusal that is to be said, 0 for none, with its place.
#[derive(Clone, Copy)]
struct Shown {
    done: bool,
    firsts: usize,
    seconds: usize,
    boths: usize,
    refusal: u64,
    place: u64,
}

fn usage(rt: &HostRuntime) {
    console::say(rt, b"usage: compare FILE FILE\n");
    console::say(
        rt,
        b"  lists the cells only in the first text, only in the second, and in both\n",
    );
}

// A listing: its names, one a line, and an empty line. What is left of it stands in front, behind what was printed.
fn put_listing(rt: &HostRuntime, codes: &[u64], out: &mut [u8]) -> Option<usize>
    requires { 18 ≤ length out.old }
    ensures { ListingIn codes.now out.new result }
{
    let last = out.len() - 1;
    let end = console::put_all_names(rt, codes, &mut out[..last])?;
    out[end] = b'\n';
    Some(end + 1)
}

// The same, and what is left of it is printed too.
fn print_listing(rt: &HostRuntime, codes: &[u64], out: &mut [u8]) -> Option<usize>
    requires { 18 ≤ length out.old }
    ensures { ListingPrinted codes.now out.new result }
{
    let end = put_listing(rt, codes, out)?;
    if console::printed_first(rt, out, end) {
        return Some(end);
    }
    None
}

// What is left where printing failed: nothing more is printed.
fn stopped() -> Shown
    ensures { Stopped result }
{
    Shown {
        done: false,
        firsts: 0,
        seconds: 0,
        boths: 0,
        refusal: 0, // the texts are not refused
        place: 0,
    }
}

// The three listings, up to the first that is not printed whole.
fn print_three(
    rt: &HostRuntime,
    firsts: &[u64],
    seconds: &[u64],
    boths: &[u64],
    one: &mut [u8],
    two: &mut [u8],
    three: &mut [u8],
) -> Shown
    requires { (18 ≤ length one.old) × (18 ≤ length two.old) × (18 ≤ length three.old) }
    ensures { ThreePrinted (lists firsts.now seconds.now boths.now) (lists one.new two.new three.new) result }
{
    let Some(first) = print_listing(rt, firsts, one) else {
        return stopped();
    };
    let Some(second) = print_listing(rt, seconds, two) else {
        return stopped();
    };
    let Some(both) = print_listing(rt, boths, three) else {
        return stopped();
    };
    Shown {
        done: true,
        firsts: first,
        seconds: second,
        boths: both,
        refusal: 0,
        place: 0,
    }
}

// The three listings, or the refusal number on its line. The program "lends 65,536 codes a listing".
fn print_compared(
    rt: &HostRuntime,
    first: &[u8],
    second: &[u8],
    firsts: &mut [u64],
    seconds: &mut [u64],
    boths: &mut [u64],
    one: &mut [u8],
    two: &mut [u8],
    three: &mut [u8],
) -> Shown
    requires { (21 ≤ length one.old) × (18 ≤ length two.old) × (18 ≤ length three.old) × (length firsts.old ≡ 65536) × (length seconds.old ≡ 65536) × (length boths.old ≡ 65536) }
    ensures { ListingsWritten (compare_refusal first.now second.now (lists firsts.old seconds.old boths.old)) first.now second.now (lists one.new two.new three.new) result }
{
    match comparing::compare(first, second, firsts, seconds, boths) {
        Ok(compared) => print_three(
            rt,
            &firsts[..compared.first.count as usize],
            &seconds[..compared.second.count as usize],
            &boths[..compared.both.count as usize],
            one,
            two,
            three,
        ),
        Err(Refused { refusal, place }) => {
            let end = report::put_line(refusal, one);
            console::print_first(rt, one, end);
            Shown {
                done: true,
                firsts: end,
                seconds: 0,
                boths: 0,
                refusal,
                place,
            }
        }
    }
}

// What a refusal means, and of which file, to standard error: 14 and 8 are of both.
fn say_refused(rt: &HostRuntime, first: &[u8], refusal: u64, place: u64) {
    if refusal == 14 {
        console::say_text(rt, b"compare", refusal, 0);
        return;
    }
    if refusal == 8 {
        console::say_text(rt, b"compare", refusal, 0);
        return;
    }
    match reader::check(first) {
        Err(Refused { .. }) => console::say_text(rt, b"compare: the first file", refusal, place),
        Ok(Checked { .. }) => console::say_text(rt, b"compare: the second file", refusal, place),
    }
}

fn compare_texts(rt: &HostRuntime, first: &[u8], second: &[u8]) {
    let mut firsts = [0u64; 65536];
    let mut seconds = [0u64; 65536];
    let mut boths = [0u64; 65536];
    let mut one = [0u8; 65536];
    let mut two = [0u8; 65536];
    let mut three = [0u8; 65536];
    let shown = print_compared(
        rt,
        first,
        second,
        &mut firsts,
        &mut seconds,
        &mut boths,
        &mut one,
        &mut two,
        &mut three,
    );
    let refusal = shown.refusal;
    if refusal != 0 {
        say_refused(rt, first, refusal, shown.place);
    }
}

// "one it can't read counts as empty"
fn bytes_of(read: Option<usize>) -> usize
    ensures { result ≡ bytes_of read }
{
    match read {
        Some(count) => count,
        None => 0, // said by load
    }
}

// How many bytes the file of an argument has, as far as there is room.
fn load_text(rt: &HostRuntime, i: usize, path: &mut [u8], text: &mut [u8]) -> usize
    ensures { result ≤ length text.new }
{
    bytes_of(console::load(rt, b"compare", i, path, text))
}

fn main(rt: HostRuntime) {
    let rt = &rt;
    if console::argument_count(rt) != 3 {
        usage(rt);
        return;
    }
    let mut path = [0u8; 4096];
    let mut first = [0u8; 65537];
    let mut second = [0u8; 65537];
    let long = load_text(rt, 1, &mut path, &mut first);
    let wide = load_text(rt, 2, &mut path, &mut second);
    compare_texts(rt, &first[..long], &second[..wide]);
}
