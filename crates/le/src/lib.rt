// Little-endian numbers of two, four and eight bytes in a slice.
#![tactic(auto)]

ghost use Rattle.std.specs.Prelude.{◌≡◌, ◌+◌, ◌*◌, ◌≤◌, length};
ghost use Rattle.le.specs.Le.{le_at};

fn two(a: u8, b: u8) -> u16
    ensures { result ≡ a + 256 * b }
{
    (a as u16) + 256 * (b as u16)
}

fn four(a: u8, b: u8, c: u8, d: u8) -> u32
    ensures { result ≡ a + 256 * b + 65536 * c + 16777216 * d }
{
    (a as u32) + 256 * (b as u32) + 65536 * (c as u32) + 16777216 * (d as u32)
}

fn eight(a: u8, b: u8, c: u8, d: u8, e: u8, f: u8, g: u8, h: u8) -> u64
    ensures { result ≡ a + 256 * b + 65536 * c + 16777216 * d + 4294967296 * (e + 256 * f + 65536 * g + 16777216 * h) }
{
    (four(a, b, c, d) as u64) + 4294967296 * (four(e, f, g, h) as u64)
}

// One function a width: a generic one would need a trait that says of each width what these three say.

#[tactic(auto, unfolding(crate::specs::Le::le_at, rows::specs::Below::sum_below))]
pub fn u16_at(b: &[u8], at: usize) -> u16
    requires { at + 2 ≤ length b.now }
    ensures { result ≡ le_at 2 b.now at }
{
    two(b[at], b[at + 1])
}

#[tactic(auto, unfolding(crate::specs::Le::le_at, rows::specs::Below::sum_below))]
pub fn u32_at(b: &[u8], at: usize) -> u32
    requires { at + 4 ≤ length b.now }
    ensures { result ≡ le_at 4 b.now at }
{
    four(b[at], b[at + 1], b[at + 2], b[at + 3])
}

#[tactic(auto, unfolding(crate::specs::Le::le_at, rows::specs::Below::sum_below))]
pub fn u64_at(b: &[u8], at: usize) -> u64
    requires { at + 8 ≤ length b.now }
    ensures { result ≡ le_at 8 b.now at }
{
    eight(
        b[at],
        b[at + 1],
        b[at + 2],
        b[at + 3],
        b[at + 4],
        b[at + 5],
        b[at + 6],
        b[at + 7],
    )
}
