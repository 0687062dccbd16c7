// The input and the output of a program: blocks read, and texts and numbers written.
// For programs.

#![tactic(auto)]

ghost use Rattle.std.specs.Prelude.{◌≤◌, length};

use filter::Stream;
use std::io::{Print, Read, Write};

// One read: how many bytes came, 0 where the input has ended; nothing where it failed.
pub fn read_some<R: Read>(from: &mut R, block: &mut [u8]) -> Option<usize> {
    from.read(block).ok()
}

// Reads until the buffer is full, the input ends or a read fails, and tells how many bytes came.
pub fn read_full<R: Read>(from: &mut R, buf: &mut [u8]) -> usize
    ensures { result ≤ length buf.new }
{
    let mut used: usize = 0;
    while used < buf.len() {
        match from.read(&mut buf[used..]) {
            Ok(0) => return used,
            Ok(count) => used += count,
            Err(_) => return used,
        }
    }
    used
}

// Whether all of a text was written.
pub fn write(rt: &HostRuntime, to: Stream, text: &[u8]) -> bool {
    match to {
        Stream::Output => rt.stdout().write_all(text).is_ok(),
        Stream::Error => rt.stderr().write_all(text).is_ok(),
    }
}

// Whether all of a text was written to standard output.
pub fn print(rt: &HostRuntime, text: &[u8]) -> bool {
    write(rt, Stream::Output, text)
}

// Whether the digits of a number were written to standard output.
pub fn print_decimal(rt: &HostRuntime, n: u64) -> bool {
    print!(rt; "{n}").is_ok()
}
