// Reads an image's sheet from standard input, and writes whether it is admitted.
#![tactic(auto)]

ghost use Rattle.std.specs.Prelude.{◌≡◌, ◌≤◌, length, take};

use std::io;
use std::io::{Read, Write};

// How many bytes are read: up to the end of the input, or as many as have room; 0 where a read fails, so that a part of a sheet is not taken for the whole.
fn read_input<R: Read>(reader: &mut R, input: &mut [u8]) -> usize
    ensures { (result ≤ length input.new) × (result ≡ length (take result input.new)) }
{
    let mut at = 0;
    while at < input.len() {
        match reader.read(&mut input[at..]) {
            Ok(0) => return at,
            Ok(n) => at += n,
            Err(_) => return 0,
        }
    }
    at
}

fn main(rt: HostRuntime) -> io::Result<()> {
    // One byte more than is taken, so that a longer input shows.
    let mut input = [0u8; 65537];
    let mut reader = rt.stdin();
    let n = read_input(&mut reader, &mut input);
    let line = admission::admit_line(&input[..n]);
    io::writer(&rt).write_all(line.as_bytes())
}
