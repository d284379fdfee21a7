// For each argument, the name of a file, a line: the name, and what `admit` writes of the file.
#![tactic(auto)]

use std::io::{Read, Write};
use std::{env, fs, io};

fn write_line<R: Read, W: Write>(file: &mut R, out: &mut W) -> io::Result<()> {
    // One byte more than is taken, so that a longer file shows.
    let mut input = [0u8; 65537];
    let n = input::read_full(file, &mut input);
    let line = admission::admit_line(&input[..n]);
    out.write_all(line.as_bytes())
}

fn admit_named<W: Write>(rt: &HostRuntime, out: &mut W, name: &str) -> io::Result<()> {
    out.write_all(name.as_bytes())?;
    match fs::open(rt, name) {
        Ok(mut file) => {
            out.write_all(b": ")?;
            write_line(&mut file, out)
        }
        Err(_) => out.write_all(b": can't be opened\n"),
    }
}

fn main(rt: HostRuntime) -> io::Result<()> {
    let mut out = io::writer(&rt);
    for name in env::args(&rt)?.skip(1) {
        admit_named(&rt, &mut out, name.as_str())?;
    }
    Ok(())
}
