// The listing program: lists standard input on standard output, with the catalogue in the file that its first argument names. It decides nothing:
// `cataloguefile` reads the catalogue, and `listrun` says what is to be written, where, and whether to read on.

#![tactic(auto)]

ghost use Rattle.std.specs.Prelude.{◌≤◌, length};

use catalogue::Names;
use filter::{BLOCK_SIZE, State};
use listrun::LONGEST_ENTRY;

fn read_some(rt: &HostRuntime, block: &mut [u8], room: usize) -> Option<usize>
    requires { room ≤ length block.old }
{
    streams::read_some(&mut rt.stdin(), &mut block[..room])
}

fn turn(
    rt: &HostRuntime,
    names: &Names,
    state: State,
    block: &mut [u8; BLOCK_SIZE],
    line: &mut [u8; LONGEST_ENTRY],
    out: &mut [u8; BLOCK_SIZE],
) -> State {
    let written = streams::write(rt, filter::output(state), filter::front(out, state.used));
    let got = read_some(rt, block, filter::room(state, written));
    listrun::go_on(names, state, written, got, block, line, out)
}

fn main(rt: HostRuntime) {
    let mut names = Names::new();
    let mut block = [0u8; BLOCK_SIZE];
    let mut line = [0u8; LONGEST_ENTRY];
    let mut out = [0u8; BLOCK_SIZE];
    let catalogue = cataloguefile::read(&rt, &mut names, &mut block, &mut line, &mut out);
    let mut state = listrun::start(catalogue, &mut out);
    // The number of turns only bounds the loop: no input is so long.
    for _ in 0..u64::MAX {
        if !filter::goes_on(state) {
            return;
        }
        state = turn(&rt, &names, state, &mut block, &mut line, &mut out);
    }
}
