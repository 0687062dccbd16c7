// The catalogue of a program, in the file that its first argument names: opened, read as `cataloguerun` says, and told on standard error where it is
// refused or could not be read. It decides nothing.
// For programs.

#![tactic(auto)]

use catalogue::Names;
pub use cataloguerun::LONGEST_READ;
use cataloguerun::{CatalogueRun, Opened};
use filter::{BLOCK_SIZE, State};
use std::env::Env;
use std::fs::File;
use std::io;
use std::io::ErrorKind;

// The longest path that can be opened.
const PATH_SIZE: usize = 4096;

// Without an argument the path is empty, and no file has that name. A path that is no text cannot be opened.
fn open_catalogue(rt: &HostRuntime) -> io::Result<File> {
    let mut path = [0u8; PATH_SIZE];
    let size = rt.arg(1, &mut path).unwrap_or(0);
    let Ok(path) = str::from_utf8(filter::front(&path, size)) else {
        return Err(io::Error::from(ErrorKind::InvalidFilename));
    };
    File::open(rt, path)
}

fn read_file(
    mut file: File,
    names: &mut Names,
    block: &mut [u8; BLOCK_SIZE],
    line: &mut [u8; LONGEST_READ],
) -> CatalogueRun {
    let mut run = cataloguerun::start(Opened::Open);
    // The number of turns only bounds the loop: no catalogue is so long.
    for _ in 0..u64::MAX {
        if !cataloguerun::reads_on(run) {
            break;
        }
        let got = streams::read_some(&mut file, block);
        run = cataloguerun::go_on(run, got, block, names, line);
    }
    run
}

fn read_catalogue(
    rt: &HostRuntime,
    names: &mut Names,
    block: &mut [u8; BLOCK_SIZE],
    line: &mut [u8; LONGEST_READ],
) -> CatalogueRun {
    match open_catalogue(rt) {
        Ok(file) => read_file(file, names, block, line),
        Err(why) if why.kind() == ErrorKind::NotFound => cataloguerun::start(Opened::Missing),
        Err(_) => cataloguerun::start(Opened::Failed),
    }
}

// What is said of it, where something is.
fn tell(rt: &HostRuntime, message: State, out: &[u8; BLOCK_SIZE]) {
    streams::write(
        rt,
        filter::output(message),
        filter::front(out, message.used),
    );
}

// What the catalogue came to. Its names stand in the memory that is lent for them; the buffers hold nothing that matters.
pub fn read(
    rt: &HostRuntime,
    names: &mut Names,
    block: &mut [u8; BLOCK_SIZE],
    line: &mut [u8; LONGEST_READ],
    out: &mut [u8; BLOCK_SIZE],
) -> CatalogueRun {
    let run = read_catalogue(rt, names, block, line);
    tell(rt, cataloguerun::complain(run, out), out);
    run
}
