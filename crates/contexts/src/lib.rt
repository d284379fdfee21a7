// 34 and 38 over the regions held: each has VP index 0 and shares a bit with the mask of its VTL's contexts; and that mask has each of its bits.
#![tactic(auto)]

ghost use Rattle.std.specs.Prelude.{◌≡◌, true, false, not, ◌&&◌, ◌||◌, List, ℕ, ◌+◌, ◌-◌, ◌≤◌, ◌<◌, eqb, get_or};
ghost use Rattle.masks.specs.Masks.{shares};
ghost use Rattle.rows.specs.{Below.{any_below, first_below}, Answered.{option_of}};
ghost use Rattle.contexts.specs.Contexts.{any_lacks, bit_lacking, found, lacks_bit, Absent};

use reloc_regions::RelocRegions;

fn mask_of_vtl(contexts: &[u32; 3], vtl: u8) -> u32
    ensures { result ≡ get_or contexts.now vtl 0 }
{
    if vtl < 3 {
        return contexts[vtl as usize];
    }
    0
}

// The region's VP index is not 0, or no context of its VTL shares a bit with its mask.
pub fn lacks(contexts: &[u32; 3], mask: u32, vp: u16, vtl: u8) -> bool
    ensures { result ≡ not (eqb vp 0 && shares (get_or contexts.now vtl 0) mask) }
{
    !((vp == 0) & masks::shares(mask_of_vtl(contexts, vtl), mask))
}

// Some region held has a VP index other than 0, or no context.
#[tactic(auto, using(rows::proofs::BelowLaws::any_more), unfolding(rows::specs::Below::any_below))]
pub fn any_lacks<const N: usize>(held: &RelocRegions<N>, contexts: &[u32; 3]) -> bool
    requires { held.now.count ≤ N }
    ensures { result ≡ any_lacks held.now.mask held.now.vp_index held.now.vtl held.now.count contexts.now }
{
    let mut found = false;
    for i in 0..held.count {
        found |= lacks(contexts, held.mask[i], held.vp_index[i], held.vtl[i]);
    }
    found
}

// ---- 38

// The region's mask has a bit that no context of its VTL has.
#[tactic(auto, using(crate::proofs::LackingLaws::lacks_found), unfolding(crate::specs::Contexts::bit_lacking))]
fn lacks_bit(contexts: &[u32; 3], mask: u32, vtl: u8) -> bool
    ensures { result ≡ found (bit_lacking contexts.now mask vtl) }
{
    !masks::matches(mask, mask_of_vtl(contexts, vtl))
}

// The lowest such bit, as a mask.
#[tactic(auto, unfolding(crate::specs::Contexts::bit_lacking))]
pub fn lowest_lacking(contexts: &[u32; 3], mask: u32, vtl: u8) -> Option<u32>
    ensures { option_of result ≡ bit_lacking contexts.now mask vtl }
{
    masks::lowest_without(mask, mask_of_vtl(contexts, vtl))
}

// The first region held that has such a bit, where none before `from` has.
pub fn first_lacking<const N: usize>(
    held: &RelocRegions<N>,
    from: usize,
    contexts: &[u32; 3],
) -> Option<usize>
    requires { (held.now.count ≤ N) × (from ≤ held.now.count) × (any_below from (lacks_bit held.now.mask held.now.vtl contexts.now) ≡ false) }
    ensures { option_of result ≡ first_below held.now.count (lacks_bit held.now.mask held.now.vtl contexts.now) }
{
    for i in from..held.count {
        if lacks_bit(contexts, held.mask[i], held.vtl[i]) {
            return Some(i);
        }
    }
    None
}

// ---- four regions at a time

// The bits that a mask has not.
fn absent(held: u32) -> u32
    ensures { (result ≡ 4294967295 - held) × (held ≤ 4294967295) }
{
    4294967295 - held
}

// The bits of a region's mask that are absent from the mask of its VTL.
fn bits_lacking(absent: &[u32; 3], mask: u32, vtl: u8) -> u32
    requires { vtl < 3 }
    ensures { (contexts : List ℕ) → Absent contexts absent.now → not (eqb result 0) ≡ found (bit_lacking contexts mask vtl) }
{
    mask & absent[vtl as usize]
}

// Some of four regions, the first of which is region i, has such a bit. The four are asked by one test, which is faster than a test for each.
fn four_lack<const N: usize>(held: &RelocRegions<N>, i: usize, absent: &[u32; 3]) -> bool
    requires i_in_bounds { i + 3 < N }
    requires by_index { (e : ℕ) → e < i + 4 → get_or held.now.vtl e 0 < 3 }
    ensures { (contexts : List ℕ) → Absent contexts absent.now → let lacks = lacks_bit held.now.mask held.now.vtl contexts in result ≡ (lacks i || lacks (i + 1) || lacks (i + 2) || lacks (i + 3)) }
{
    let first = bits_lacking(absent, held.mask[i], held.vtl[i]);
    let second = bits_lacking(absent, held.mask[i + 1], held.vtl[i + 1]);
    let third = bits_lacking(absent, held.mask[i + 2], held.vtl[i + 2]);
    let fourth = bits_lacking(absent, held.mask[i + 3], held.vtl[i + 3]);
    (first | second | third | fourth) != 0
}

// Behind regions that have no such bit: as many as there are in fours, up to the first four of which one has.
pub fn past_fours<const N: usize>(held: &RelocRegions<N>, contexts: &[u32; 3]) -> usize
    requires in_bounds { held.now.count ≤ N }
    requires by_index { (e : ℕ) → e < held.now.count → get_or held.now.vtl e 0 < 3 }
    ensures { (result ≤ held.now.count) × (any_below result (lacks_bit held.now.mask held.now.vtl contexts.now) ≡ false) }
{
    let absent: [u32; 3] = [
        absent(contexts[0]),
        absent(contexts[1]),
        absent(contexts[2]),
    ];
    let fours = held.count / 4;
    for four in 0..fours {
        if four_lack(held, 4 * four, &absent) {
            return 4 * four;
        }
    }
    4 * fours
}
