// Calls that a file stores, one record after another: a record is read, and its line written up to the numbers of the answer. A record is a head of 40 bytes and a sheet
// (codes 4 and 5: a region's bytes, code 11: those of an index).
#![tactic(auto)]

ghost use Rattle.std.specs.Prelude.{◌≡◌, ℕ, ◌+◌, ◌*◌, ◌%◌, ◌<◌, ◌≤◌, length, take, get_or, IfOk, IfSome, OnErr};

use std::io::Write;
use std::{fmt, fs, io};

// The call that a record makes, by its code in the file.
#[derive(Clone, Copy, PartialEq, Eq)]
pub enum CallKind {
    Verdict,
    Relocations,
    RelocationBaseValid,
    Contains,
    RegionBaseValid,
    RegionContains,
    RelocationBaseRange,
    StrictVerdict,
    Report,
    RegionOf,
    RegionIndex,
    RegionIn,
}

impl From<u8> for CallKind {
    // A code of no call stands for `contains`.
    fn from(code: u8) -> Self {
        match code {
            0 => CallKind::Verdict,
            1 => CallKind::Relocations,
            2 => CallKind::RelocationBaseValid,
            4 => CallKind::RegionBaseValid,
            5 => CallKind::RegionContains,
            6 => CallKind::RelocationBaseRange,
            7 => CallKind::StrictVerdict,
            8 => CallKind::Report,
            9 => CallKind::RegionOf,
            10 => CallKind::RegionIndex,
            11 => CallKind::RegionIn,
            _ => CallKind::Contains,
        }
    }
}

impl CallKind {
    // How many numbers are asked for: those of the answer, and one past them where the call takes `which`.
    fn numbers(self) -> u32
        ensures { result ≤ 11 }
    {
        match self {
            CallKind::Verdict | CallKind::StrictVerdict => 7,
            CallKind::Relocations => 11,
            CallKind::RegionBaseValid | CallKind::RegionContains | CallKind::RegionIn => 1,
            CallKind::Report => 8,
            _ => 5,
        }
    }
}

// Who gave the answer that a call is held to.
#[derive(Clone, Copy, PartialEq, Eq)]
pub enum AnsweredBy {
    Document01,
    Rust,
    RustAndDocument02,
    Document02,
}

impl From<u8> for AnsweredBy {
    fn from(code: u8) -> Self {
        match code {
            0 => AnsweredBy::Document01,
            1 => AnsweredBy::Rust,
            2 => AnsweredBy::RustAndDocument02,
            _ => AnsweredBy::Document02,
        }
    }
}

impl fmt::Display for AnsweredBy {
    fn fmt<W: fmt::Write>(&self, f: &mut fmt::Formatter<W>) -> fmt::Result {
        f.write_str(match self {
            AnsweredBy::Document01 => "01",
            AnsweredBy::Rust => "rust",
            AnsweredBy::RustAndDocument02 => "rust 02",
            AnsweredBy::Document02 => "02",
        })
    }
}

// The head of a record.
#[derive(Clone, Copy)]
pub struct Call {
    pub kind: CallKind,
    pub answered: AnsweredBy,
    pub mask: u32,
    pub region: u64,
    // base, gpa or lowest base
    pub value: u64,
    // highest base
    pub highest: u64,
    // how many bytes are lent
    pub lent: usize,
    // how many numbers are asked for
    pub numbers: u32,
}

// The call and what it is asked with.
impl fmt::Display for Call {
    fn fmt<W: fmt::Write>(&self, f: &mut fmt::Formatter<W>) -> fmt::Result {
        let mask = self.mask;
        let region = self.region;
        let value = self.value;
        let lent = self.lent;
        match self.kind {
            CallKind::Verdict => f.write_str("verdict"),
            CallKind::Relocations => write!(f, "relocations mask {mask} lent {lent}"),
            CallKind::RelocationBaseValid => write!(
                f,
                "relocation_base_valid mask {mask} region {region} base {value}"
            ),
            CallKind::Contains => write!(f, "contains mask {mask} region {region} gpa {value}"),
            CallKind::RegionBaseValid => write!(f, "region_base_valid base {value}"),
            CallKind::RegionContains => write!(f, "region_contains gpa {value}"),
            CallKind::RelocationBaseRange => write!(
                f,
                "relocation_base_range mask {mask} region {region} lowest {value} highest {}",
                self.highest
            ),
            CallKind::StrictVerdict => f.write_str("strict_verdict"),
            CallKind::Report => write!(f, "report lent {lent}"),
            CallKind::RegionOf => write!(f, "region_of mask {mask} gpa {value}"),
            CallKind::RegionIndex => write!(f, "region_index mask {mask} lent {lent}"),
            CallKind::RegionIn => write!(f, "region_in gpa {value}"),
        }
    }
}

// Asks for no number and lends no byte.
const NO_CALL: Call = Call {
    kind: CallKind::Verdict,
    answered: AnsweredBy::Document01,
    mask: 0,
    region: 0,
    value: 0,
    highest: 0,
    lent: 0,
    numbers: 0,
};

// What lent bytes hold before a call.
pub fn fill(b: &mut [u8])
    ensures { (i : ℕ) → i < length b.old → get_or b.new i 0 ≡ (37 * i + 51) % 256 }
{
    for i in 0..b.len() {
        b[i] = ((i % 256 * 37 + 51) % 256) as u8;
    }
}

fn call_of(one: &[u8]) -> Call
    requires { 40 ≤ length one.now }
    ensures { result.numbers ≤ 11 }
{
    let kind = CallKind::from(one[0]);
    Call {
        kind,
        answered: AnsweredBy::from(one[1]),
        mask: le::u32_at(one, 4),
        region: le::u64_at(one, 8),
        value: le::u64_at(one, 16),
        highest: le::u64_at(one, 24),
        lent: le::u32_at(one, 32) as usize,
        numbers: kind.numbers(),
    }
}

// The call of a record. The first bytes of `space` are what it lends; a call that lends more asks for nothing.
pub fn start(one: &[u8], space: &mut [u8]) -> Call
    requires { 40 ≤ length one.now }
    ensures prefix_len { (result.lent ≤ length space.new) × (result.lent ≡ length (take result.lent space.new)) }
    ensures numbers_bound { result.numbers ≤ 11 }
{
    fill(space);
    let c = call_of(one);
    if c.lent <= space.len() {
        return c;
    }
    NO_CALL
}

// The line of a record up to the numbers of its answer, where the call has room for so many bytes to lend.
pub fn write_start<W: Write>(out: &mut W, one: &[u8], room: usize) -> io::Result<()>
    requires { 40 ≤ length one.now }
{
    let c = call_of(one);
    let answered = c.answered;
    write!(out, "{answered} {c}:")?;
    if c.lent <= room {
        return Ok(());
    }
    out.write_all(b" lends more than 4224 bytes")
}

// The length of the record that starts at `at`, if it is whole.
pub fn record_length(s: &[u8], at: usize) -> Option<usize>
    requires { at ≤ length s.now }
    ensures { IfSome result (λ n. (40 ≤ n) × (at + n ≤ length s.now)) }
{
    let left = s.len() - at;
    if left < 40 {
        return None;
    }
    let sheet = le::u32_at(s, at + 36) as usize;
    if left - 40 < sheet {
        return None;
    }
    Some(40 + sheet)
}

// Reads the file of that name: how many bytes it has, at most those of `space`. Where it can't be opened nothing is read.
pub fn read_file(rt: &HostRuntime, name: &str, space: &mut [u8]) -> io::Result<usize>
    ensures ok { IfOk result (λ n. (n ≤ length space.new) × (n ≡ length (take n space.new))) }
    ensures unread { OnErr result (space.new ≡ space.old) }
{
    let mut file = fs::open(rt, name)?;
    Ok(input::read_full(&mut file, space))
}
