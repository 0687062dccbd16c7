// The import program: imports standard input, comma-separated text, as lines of the listing on standard output, with the catalogue in the file that its
// first argument names. It decides nothing: `cataloguefile` reads the catalogue, and `importrun` says what is to be written, where, and whether to read on.

#![tactic(auto)]

ghost use Rattle.std.specs.Prelude.{◌+◌, ◌≤◌, length};

use catalogue::Names;
use filter::BLOCK_SIZE;
use importrun::{ImportRun, LONGEST_RECORD};

fn read_after(rt: &HostRuntime, block: &mut [u8], kept: usize, room: usize) -> Option<usize>
    requires { kept + room ≤ length block.old }
{
    streams::read_some(&mut rt.stdin(), &mut block[kept..kept + room])
}

fn turn(
    rt: &HostRuntime,
    names: &Names,
    run: ImportRun,
    block: &mut [u8; BLOCK_SIZE],
    line: &mut [u8; LONGEST_RECORD],
    out: &mut [u8; BLOCK_SIZE],
) -> ImportRun {
    let state = run.state;
    let written = streams::write(rt, filter::output(state), filter::front(out, state.used));
    let got = read_after(
        rt,
        block,
        importrun::kept(run),
        importrun::room(run, written),
    );
    importrun::go_on(names, run, written, got, block, line, out)
}

fn main(rt: HostRuntime) {
    let mut names = Names::new();
    let mut block = [0u8; BLOCK_SIZE];
    let mut line = [0u8; LONGEST_RECORD];
    let mut out = [0u8; BLOCK_SIZE];
    let catalogue = cataloguefile::read(&rt, &mut names, &mut block, &mut line, &mut out);
    let mut run = importrun::start(catalogue, &mut out);
    // The number of turns only bounds the loop: no input is so long.
    for _ in 0..u64::MAX {
        if !filter::goes_on(run.state) {
            return;
        }
        run = turn(&rt, &names, run, &mut block, &mut line, &mut out);
    }
}
