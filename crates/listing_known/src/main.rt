// Lists its input whole and writes the listing; then lists it again as two blocks, cut at every byte, and tells in how many ways it was cut and
// how many of the listings were the same. The catalogue is empty.

#![tactic(auto)]

ghost use Rattle.std.specs.Prelude.{◌≤◌, length};

use catalogue::Names;
use filter::front;
use listing::LONGEST_ENTRY;

// The listing of two blocks, the first of `cut` bytes: how many bytes it has.
fn list_cut(
    names: &Names,
    input: &[u8],
    cut: usize,
    line: &mut [u8; LONGEST_ENTRY],
    out: &mut [u8],
) -> usize
    requires { cut ≤ length input.now }
{
    let first = listing::list_block(names, &input[..cut], 0, line, 0, out, 0);
    let second = listing::list_block(names, &input[cut..], 0, line, first.held, out, first.used);
    listing::list_last(names, line, second.held, out, second.used).unwrap_or(0)
}

fn is_same(
    names: &Names,
    input: &[u8],
    cut: usize,
    line: &mut [u8; LONGEST_ENTRY],
    out: &mut [u8],
    expected: &[u8],
) -> bool
    requires { cut ≤ length input.now }
{
    let size = list_cut(names, input, cut, line, out);
    front(out, size) == expected
}

// How many of the ways to cut the input in two give the expected listing.
fn same_ways(
    names: &Names,
    input: &[u8],
    line: &mut [u8; LONGEST_ENTRY],
    out: &mut [u8],
    expected: &[u8],
) -> u64 {
    let mut same: u64 = 0;
    for cut in 0..input.len() {
        if is_same(names, input, cut, line, out, expected) {
            same += 1;
        }
    }
    same
}

fn write_header(rt: &HostRuntime, out: &mut [u8]) {
    let size = listing::put_header(out, 0).unwrap_or(0);
    streams::print(rt, front(out, size));
}

fn write_counts(rt: &HostRuntime, ways: u64, same: u64) {
    streams::print_decimal(rt, ways);
    streams::print(rt, b" ways to cut it in two, ");
    streams::print_decimal(rt, same);
    streams::print(rt, b" the same\n");
}

fn check_all(
    rt: &HostRuntime,
    names: &Names,
    input: &[u8],
    line: &mut [u8; LONGEST_ENTRY],
    out: &mut [u8],
    other: &mut [u8],
) {
    write_header(rt, out);
    let size = list_cut(names, input, 0, line, out);
    let expected = front(out, size);
    streams::print(rt, expected);
    let same = same_ways(names, input, line, other, expected);
    write_counts(rt, input.len() as u64, same);
}

fn main(rt: HostRuntime) {
    let mut input = [0u8; 4096];
    let mut out = [0u8; 4096];
    let mut other = [0u8; 4096];
    let mut line = [0u8; LONGEST_ENTRY];
    let names = Names::new();
    let size = streams::read_full(&mut rt.stdin(), &mut input);
    check_all(&rt, &names, &input[..size], &mut line, &mut out, &mut other);
}
