// The regions of a mask: how many an accepted file has, and each by its number among the initialization rows.
#![tactic(auto)]

ghost use Rattle.std.specs.Prelude.{◌≡◌, false, not, cond, ◌&&◌, ◌≤◌, ◌<◌, get_or};
ghost use Rattle.rows.specs.Below.{count_below};
ghost use Rattle.rows.specs.Answered.{option_of};
ghost use Rattle.masks.specs.Masks.{matches};
ghost use Rattle.sheet.specs.Head.{initialization_rows, limits, head_of};
ghost use Rattle.rules.specs.Relocations.{is_relocatable, relocatable_of, page_table_of, region_at};
ghost use Rattle.answers.specs.Relocations.{sheet_initializations};

use initialization_header::IgvmInitializationHeader;
use reloc_regions::RelocRegions;
use rules::{IgvmRelocatableRegion, PageTableRegion};
use sheet::ReadableSheet;

// ---- one header

pub fn is_relocatable(given: u32, h: IgvmInitializationHeader) -> bool
    ensures { result ≡ is_relocatable given h }
{
    match h {
        IgvmInitializationHeader::RelocatableRegion {
            compatibility_mask,
            ..
        } => masks::matches(given, compatibility_mask),
        _ => false,
    }
}

pub const NO_PAGE_TABLE: PageTableRegion = PageTableRegion {
    gpa: 0,
    size: 0,
    used_size: 0,
    vp_index: 0,
    vtl: 0,
};

fn one_if(test: bool, n: u64) -> u64
    requires { n ≤ 4 }
    ensures { (result ≡ cond test n 0) × (result ≤ 4) }
{
    if test {
        return n;
    }
    0
}

pub fn relocatable_of(h: IgvmInitializationHeader) -> Option<IgvmRelocatableRegion>
    ensures { option_of result ≡ relocatable_of h }
{
    match h {
        IgvmInitializationHeader::RelocatableRegion {
            compatibility_mask: _,
            relocation_alignment,
            relocation_region_gpa,
            relocation_region_size,
            minimum_relocation_gpa,
            maximum_relocation_gpa,
            is_vtl2,
            apply_rip_offset,
            apply_gdtr_offset,
            vp_index,
            vtl,
        } => Some(IgvmRelocatableRegion {
            base_gpa: relocation_region_gpa,
            size: relocation_region_size,
            relocation_alignment,
            minimum_relocation_gpa,
            maximum_relocation_gpa,
            flags: one_if(is_vtl2, 1) + one_if(apply_rip_offset, 2) + one_if(apply_gdtr_offset, 4),
            vp_index: vp_index as u64,
            vtl: vtl.code() as u64,
        }),
        _ => None,
    }
}

pub fn page_table_of(h: IgvmInitializationHeader) -> Option<PageTableRegion>
    ensures { option_of result ≡ page_table_of h }
{
    match h {
        IgvmInitializationHeader::PageTableRelocationRegion {
            compatibility_mask: _,
            gpa,
            size,
            used_size,
            vp_index,
            vtl,
        } => Some(PageTableRegion {
            gpa,
            size,
            used_size,
            vp_index: vp_index as u64,
            vtl: vtl.code() as u64,
        }),
        _ => None,
    }
}

// ---- over the regions kept of an accepted file

fn one(test: bool) -> usize
    ensures { (result ≡ cond test 1 0) × (result ≤ 1) }
{
    if test {
        return 1;
    }
    0
}

// How many of the regions are regions of the mask: no page table, and with every bit of the mask.
fn count_in<const N: usize>(kept: &RelocRegions<N>, given: u32) -> usize
    requires { (kept.now.count ≤ N) × (kept.now.count ≤ initialization_rows) }
    ensures { (result ≡ count_below kept.now.count (λ e. matches given (get_or kept.now.mask e 0) && not (get_or kept.now.page_table e false))) × (result ≤ initialization_rows) }
{
    let mut count: usize = 0;
    for i in 0..kept.count {
        count += one(masks::matches(given, kept.mask[i]) & !kept.page_table[i]);
    }
    count
}

// The same count, or that of all regions where there is room for all: at least the count, and the count itself where it is more than the room.
pub fn count_within<const N: usize>(kept: &RelocRegions<N>, given: u32, room: usize) -> usize
    requires { (kept.now.count ≤ N) × (kept.now.count ≤ initialization_rows) }
    ensures lower_bound { count_below kept.now.count (λ e. matches given (get_or kept.now.mask e 0) && not (get_or kept.now.page_table e false)) ≤ result }
    ensures value { room < result → result ≡ count_below kept.now.count (λ e. matches given (get_or kept.now.mask e 0) && not (get_or kept.now.page_table e false)) }
    ensures upper_bound { result ≤ initialization_rows }
{
    if kept.count <= room {
        return kept.count;
    }
    count_in(kept, given)
}

// ---- over the initialization rows of a readable sheet

// Region k of the mask, from 0.
pub fn region_at(s: &ReadableSheet<'_>, given: u32, k: u64) -> Option<IgvmRelocatableRegion>
    ensures { option_of result ≡ region_at (sheet_initializations s.now.bytes.now) given k }
{
    let mut c = sheet_reader::cursor_at(s, s.head.platforms as usize);
    let mut seen: u64 = 0;
    for _ in 0..s.head.initializations {
        let row = sheet_headers::header_at::<IgvmInitializationHeader>(s.bytes, c);
        let h = row.header;
        if is_relocatable(given, h) {
            if seen == k {
                return relocatable_of(h);
            }
            seen += 1;
        }
        c = row.next;
    }
    None
}
