// The checks on a region by its eight words alone, as the region list puts them. Fewer than 64 bytes are no region; bytes behind them don't count.
#![tactic(auto)]

ghost use Rattle.std.specs.Prelude.{◌≡◌};
ghost use Rattle.answers.specs.Owner.{region_in};
ghost use Rattle.rows.specs.Answered.{option_of};
ghost use Rattle.answers.specs.Region.{region_of, region_base_check_of, region_contains_of};

use rules::IgvmRelocatableRegion;

// The region that the first eight words say.
fn region(b: &[u8]) -> Option<IgvmRelocatableRegion>
    ensures { option_of result ≡ region_of b.now }
{
    if b.len() < 64 {
        return None;
    }
    Some(IgvmRelocatableRegion {
        base_gpa: le::u64_at(b, 0),
        size: le::u64_at(b, 8),
        relocation_alignment: le::u64_at(b, 16),
        minimum_relocation_gpa: le::u64_at(b, 24),
        maximum_relocation_gpa: le::u64_at(b, 32),
        flags: le::u64_at(b, 40),
        vp_index: le::u64_at(b, 48),
        vtl: le::u64_at(b, 56),
    })
}

// The number of what is said of moving the region to the base; 0 where there is no region.
pub fn base_valid(b: &[u8], base: u64) -> u64
    ensures { result ≡ region_base_check_of b.now base }
{
    let Some(r) = region(b) else {
        return 0;
    };
    let (minimum, maximum) = (r.minimum_relocation_gpa, r.maximum_relocation_gpa);
    addresses::base_check(r.relocation_alignment, r.size, minimum, maximum, base).number()
}

// Whether the address lies in the region, 1 or 0.
pub fn contains(b: &[u8], gpa: u64) -> u64
    ensures { result ≡ region_contains_of b.now gpa }
{
    match region(b) {
        Some(r) => addresses::contains(r.base_gpa, r.size, gpa) as u64,
        None => 0,
    }
}

// The row of the region that contains the address, by the words of an index, or 0. It stops at the first start above the address. Bytes short of three words don't count.
pub fn region_in(words: &[u8], gpa: u64) -> u64
    ensures { result ≡ region_in words.now gpa }
{
    for i in 0..words.len() / 24 {
        let start = le::u64_at(words, 24 * i);
        if gpa < start {
            return 0;
        }
        if addresses::contains(start, le::u64_at(words, 24 * i + 8), gpa) {
            return le::u64_at(words, 24 * i + 16);
        }
    }
    0
}
