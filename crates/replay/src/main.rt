// Makes the calls that a file holds, number by number as a host does, and writes a line for each: who gave the answer that it is held to, the call, its
// numbers, the lent bytes afterwards, and whether the call's sibling gives all of that at once.
#![tactic(auto)]

ghost use Rattle.std.specs.Prelude.{◌*◌, ◌<◌, ◌≤◌, length};

use std::io::{BufWriter, Write};
use std::{env, io};
use stored_calls::{Call, CallKind};

fn ask(c: Call, sheet: &[u8], lent: &mut [u8], which: u32) -> u64 {
    match c.kind {
        CallKind::Verdict => igvm::igvm_verdict(sheet, which),
        CallKind::Relocations => igvm::igvm_relocations(sheet, c.mask, lent, which),
        CallKind::RelocationBaseValid => {
            igvm::igvm_relocation_base_valid(sheet, c.mask, c.region, c.value, which)
        }
        CallKind::Contains => igvm::igvm_contains(sheet, c.mask, c.region, c.value, which),
        CallKind::RegionBaseValid => igvm::igvm_region_base_valid(sheet, c.value),
        CallKind::RegionContains => igvm::igvm_region_contains(sheet, c.value),
        CallKind::RelocationBaseRange => {
            igvm::igvm_relocation_base_range(sheet, c.mask, c.region, c.value, c.highest, which)
        }
        CallKind::StrictVerdict => igvm::igvm_strict_verdict(sheet, which),
        CallKind::Report => igvm::igvm_report(sheet, lent, which),
        CallKind::RegionOf => igvm::igvm_region_of(sheet, c.mask, c.value, which),
        CallKind::RegionIndex => igvm::igvm_region_index(sheet, c.mask, lent, which),
        CallKind::RegionIn => igvm::igvm_region_in(sheet, c.value),
    }
}

// ---- the sibling of the call, which puts all numbers of the answer into lent bytes, held to the numbers that the call gave one by one

// A call of one number has no sibling, and is not asked for it.
fn ask_all(c: Call, sheet: &[u8], words: &mut [u8], numbers: &mut [u8]) -> u64 {
    match c.kind {
        CallKind::Verdict => igvm::igvm_verdict_numbers(sheet, numbers),
        CallKind::Relocations => igvm::igvm_relocations_numbers(sheet, c.mask, words, numbers),
        CallKind::RelocationBaseValid => {
            igvm::igvm_relocation_base_valid_numbers(sheet, c.mask, c.region, c.value, numbers)
        }
        CallKind::RelocationBaseRange => igvm::igvm_relocation_base_range_numbers(
            sheet, c.mask, c.region, c.value, c.highest, numbers,
        ),
        CallKind::StrictVerdict => igvm::igvm_strict_verdict_numbers(sheet, numbers),
        CallKind::Report => igvm::igvm_report_numbers(sheet, words, numbers),
        CallKind::RegionOf => igvm::igvm_region_of_numbers(sheet, c.mask, c.value, numbers),
        CallKind::RegionIndex => igvm::igvm_region_index_numbers(sheet, c.mask, words, numbers),
        _ => igvm::igvm_contains_numbers(sheet, c.mask, c.region, c.value, numbers),
    }
}

// Makes the call, all that it lends filled anew. Whether it returns `first`, and leaves in its words what the calls by number left in `lent`.
fn returns_same(c: Call, sheet: &[u8], lent: &[u8], first: u64, numbers: &mut [u8]) -> bool
    requires { length lent.now ≤ 4224 }
{
    let n = lent.len();
    let mut space = [0u8; 4224];
    let words = &mut space[..n];
    stored_calls::fill(words);
    stored_calls::fill(numbers);
    let number = ask_all(c, sheet, words, numbers);
    number == first && check::same(words, lent)
}

// Whether the words in front are the numbers.
fn words_are(b: &[u8], numbers: &[u64]) -> bool
    requires { 8 * length numbers.now ≤ length b.now }
{
    for (k, number) in numbers.iter().enumerate() {
        if le::u64_at(b, 8 * k) != *number {
            return false;
        }
    }
    true
}

// Whether the bytes from `from` on are still what was filled in.
fn untouched(b: &[u8], from: usize) -> bool
    requires { (from ≤ length b.now) × (length b.now ≤ 91) }
{
    let end = b.len();
    let mut filled = [0u8; 91];
    stored_calls::fill(&mut filled);
    check::same(&b[from..], &filled[from..end])
}

// Whether the call, lent `numbers`, returns the first number, puts the words `put`, and changes no byte behind them.
fn puts(c: Call, sheet: &[u8], lent: &[u8], first: u64, put: &[u64], numbers: &mut [u8]) -> bool
    requires { (length lent.now ≤ 4224) × (8 * length put.now ≤ length numbers.old) × (length numbers.old ≤ 91) }
{
    let behind = 8 * put.len();
    returns_same(c, sheet, lent, first, numbers)
        && words_are(numbers, put)
        && untouched(numbers, behind)
}

// Whether the sibling gives at once what the calls by number gave, `found`, and left in `lent`: lent 11 bytes more than the numbers take it puts them all, lent
// one byte less it puts none.
fn all_same(c: Call, sheet: &[u8], lent: &[u8], found: &[u64]) -> bool
    requires { (length lent.now ≤ 4224) × (0 < length found.now) × (length found.now ≤ 10) }
{
    let first = found[0];
    let more = 8 * found.len() + 11;
    let less = 8 * found.len() - 1;
    let mut long = [0u8; 91];
    let mut short = [0u8; 79];
    puts(c, sheet, lent, first, found, &mut long[..more])
        && puts(c, sheet, lent, first, &found[..0], &mut short[..less])
}

// ---- the line

// Groups of eight bytes.
fn write_bytes<W: Write>(out: &mut W, b: &[u8]) -> io::Result<()> {
    for (i, byte) in b.iter().enumerate() {
        if i % 8 == 0 {
            out.write_all(b" ")?;
        }
        write!(out, "{byte:02x}")?;
    }
    Ok(())
}

// How a call compares with its sibling; a call of one number has none.
fn write_same<W: Write>(
    out: &mut W,
    c: Call,
    sheet: &[u8],
    lent: &[u8],
    found: &[u64],
) -> io::Result<()>
    requires { (c.numbers ≤ 11) × (c.numbers ≤ length found.now) × (length lent.now ≤ 4224) }
{
    let asked = c.numbers as usize;
    if 1 < asked {
        let n = asked - 1;
        if all_same(c, sheet, lent, &found[..n]) {
            return out.write_all(b" all same");
        }
        return out.write_all(b" all differ");
    }
    Ok(())
}

// The rest of the line, after its numbers: the lent bytes, where there are any, and of a call that has a sibling how the two compare.
fn finish<W: Write>(
    out: &mut W,
    c: Call,
    sheet: &[u8],
    lent: &[u8],
    found: &[u64],
) -> io::Result<()>
    requires { (c.numbers ≤ 11) × (c.numbers ≤ length found.now) × (length lent.now ≤ 4224) }
{
    if 0 < lent.len() {
        out.write_all(b" bytes")?;
        write_bytes(out, lent)?;
    }
    write_same(out, c, sheet, lent, found)?;
    out.write_all(b"\n")
}

fn write_answer<W: Write>(out: &mut W, c: Call, sheet: &[u8], lent: &mut [u8]) -> io::Result<()>
    requires { (c.numbers ≤ 11) × (length lent.old ≤ 4224) }
{
    let n = c.numbers;
    let mut found = [0u64; 11];
    for which in 0..n {
        let number = ask(c, sheet, lent, which);
        write!(out, " {number}")?;
        found[which as usize] = number;
    }
    finish(out, c, sheet, lent, &found)
}

fn replay_record<W: Write>(out: &mut W, one: &[u8]) -> io::Result<()>
    requires { 40 ≤ length one.now }
{
    let mut space = [0u8; 4224];
    stored_calls::write_start(out, one, space.len())?;
    let c = stored_calls::start(one, &mut space);
    let n = c.lent;
    write_answer(out, c, &one[40..], &mut space[..n])
}

fn replay<W: Write>(out: &mut W, s: &[u8]) -> io::Result<()> {
    let mut at = 0;
    while at < s.len() {
        let Some(n) = stored_calls::record_length(s, at) else {
            return out.write_all(b"a record that is not whole\n");
        };
        let end = at + n;
        replay_record(out, &s[at..end])?;
        at = end;
    }
    Ok(())
}

// The calls of the file of that name, of at most as many bytes as have room in `space`.
fn replay_file<W: Write>(
    rt: &HostRuntime,
    out: &mut W,
    name: &str,
    space: &mut [u8],
) -> io::Result<()> {
    match stored_calls::read_file(rt, name, space) {
        Ok(n) => replay(out, &space[..n]),
        Err(_) => out.write_all(b"the file can't be opened\n"),
    }
}

fn main(rt: HostRuntime) -> io::Result<()> {
    // A file has at most 524,288 bytes.
    let mut space = vec![in rt.alloc(); 0u8; 524288]?;
    let mut out = BufWriter::new(rt.alloc(), io::writer(&rt))?;
    for name in env::args(&rt)?.skip(1) {
        replay_file(&rt, &mut out, name.as_str(), &mut space)?;
    }
    out.flush()
}
