// The relocation query and the checks on one region, from any byte string.
#![tactic(auto)]

ghost use Rattle.std.specs.Prelude.{◌≡◌, false, ◌≤◌, ◌<◌, length};
ghost use Rattle.std.proofs.Math.Option.{some};
ghost use Rattle.rows.specs.Answered.{option_of};
ghost use Rattle.igvm_defs.specs.Refusals.{is_fault, Passes};
ghost use Rattle.sheet.specs.Head.{initialization_rows, limits, head_of, start_fault};
ghost use Rattle.rules.specs.Relocations.{region_count, region_at, page_table_at};
ghost use Rattle.answers.specs.Relocations.{sheet_initializations, query_refusal, found_of, relocations_refusal, relocations_of, words_after, check_refusal, answer_for, base_number, base_check_of, contains_of};
ghost use Rattle.answers.specs.BaseRanges.{range_refusal, base_range_number, base_range_of};

use answers::{Answered, Checked, Relocations};
use by_start::KeptRegions;
use igvm_defs::Refusal;
use region_words::PutRegions;
use rules::{IgvmRelocatableRegion, PageTableRegion};
use sheet::{ReadableSheet, SheetHead};

// ---- the room for the region list

// Of an accepted sheet, where the mask is not 0, a count no less than the mask's regions, and just theirs where it is more than the room; or the verdict's refusal, or 35.
fn counted_in<const N: usize, const M: usize>(
    s: &[u8],
    head: SheetHead,
    given: u32,
    room: usize,
) -> Result<usize, Refusal>
    requires s_value { (is_fault (start_fault limits s.now) ≡ false) × (head ≡ head_of s.now) }
    requires places { (head.initializations ≤ N) × (head.initializations < M) × (N ≤ 64) × (M ≤ 65) }
    ensures { Passes result (query_refusal limits s.now given) (λ count. (count ≤ initialization_rows) × (region_count (sheet_initializations s.now) given ≤ count) × (room < count → count ≡ region_count (sheet_initializations s.now) given)) }
{
    let mut kept: KeptRegions<N, M> = KeptRegions::new();
    query::keep_for(s, head, given, &mut kept)?;
    Ok(regions::count_within(&kept.regions, given, room))
}

// Up to four initialization rows small arrays take less time to clear.
fn counted(s: &[u8], head: SheetHead, given: u32, room: usize) -> Result<usize, Refusal>
    requires { (is_fault (start_fault limits s.now) ≡ false) × (head ≡ head_of s.now) × (head.initializations ≤ initialization_rows) }
    ensures { Passes result (query_refusal limits s.now given) (λ count. (count ≤ initialization_rows) × (region_count (sheet_initializations s.now) given ≤ count) × (room < count → count ≡ region_count (sheet_initializations s.now) given)) }
{
    if head.initializations <= 4 {
        return counted_in::<4, 5>(s, head, given, room);
    }
    counted_in::<{ SheetHead::INITIALIZATION_ROWS }, { SheetHead::INITIALIZATION_PLACES }>(
        s, head, given, room,
    )
}

// An accepted sheet, where the mask is not 0 and n bytes have room for the words of its regions; or the verdict's refusal, 35 or 37.
fn relocations_query<'a>(s: &'a [u8], given: u32, n: usize) -> Result<ReadableSheet<'a>, Refusal>
    ensures { Passes result (relocations_refusal limits s.now given n) (λ sheet. sheet.bytes.now ≡ s.now) }
{
    let head = query::read_head(s)?;
    let count = counted(s, head, given, n / 64)?;
    query::refuse_if(n / 8 < 8 * count, 37)?;
    Ok(ReadableSheet { bytes: s, head })
}

// ---- the region list

// Puts the regions' words; or the verdict's refusal, 35 or 37.
fn put_list(s: &[u8], given: u32, words: &mut [u8]) -> Result<PutRegions, Refusal>
    ensures value { Passes result (relocations_refusal limits s.now given (length words.old)) (λ put. (put.count ≡ region_count (sheet_initializations s.now) given) × (option_of put.table ≡ page_table_at (sheet_initializations s.now) given)) }
    ensures words_after { words.new ≡ words_after limits s.now given words.old }
{
    let sheet = relocations_query(s, given, words.len())?;
    Ok(region_words::put_regions(&sheet, given, words))
}

// The answer of the call.
fn found(refusal: Refusal, count: u64, table: Option<PageTableRegion>) -> Relocations
    ensures { result ≡ found_of count (option_of table) refusal }
{
    match table {
        Some(page_table) => Relocations {
            refusal,
            count,
            has_page_table: true,
            page_table,
        },
        None => Relocations {
            refusal,
            count,
            has_page_table: false,
            page_table: regions::NO_PAGE_TABLE,
        },
    }
}

// The regions of a mask, in header order, each as eight little-endian words in the lent bytes; how many, and the page-table region.
pub fn relocations(s: &[u8], given: u32, words: &mut [u8]) -> Relocations
    ensures value { result ≡ relocations_of limits s.now given (length words.old) }
    ensures words_after { words.new ≡ words_after limits s.now given words.old }
{
    match put_list(s, given, words) {
        Ok(put) => found(Refusal::NONE, put.count as u64, put.table),
        Err(refusal) => found(refusal, 0, None),
    }
}

// ---- checks on one region

// Region `region` of the mask; or the verdict's refusal, 35 or 36.
fn region_at(s: &[u8], given: u32, region: u64) -> Result<IgvmRelocatableRegion, Refusal>
    ensures { Passes result (check_refusal limits s.now given region) (λ r. region_at (sheet_initializations s.now) given region ≡ some r) }
{
    let sheet = query::accepted(s, given)?;
    match regions::region_at(&sheet, given, region) {
        Some(r) => Ok(r),
        None => Err(query::refusal(36)),
    }
}

fn base_check(s: &[u8], given: u32, region: u64, base: u64) -> Result<u64, Refusal>
    ensures { Passes result (check_refusal limits s.now given region) (λ n. n ≡ answer_for (base_number base) (region_at (sheet_initializations s.now) given region)) }
{
    let r = region_at(s, given, region)?;
    let check = addresses::base_check(
        r.relocation_alignment,
        r.size,
        r.minimum_relocation_gpa,
        r.maximum_relocation_gpa,
        base,
    );
    Ok(check.number())
}

// Whether region `region` of the mask may be moved to the base, or why not.
pub fn relocation_base_valid(s: &[u8], given: u32, region: u64, base: u64) -> Answered
    ensures { result ≡ base_check_of limits s.now given region base }
{
    query::answered(base_check(s, given, region, base))
}

// After the refusals of a check, 50.
fn base_range(s: &[u8], given: u32, region: u64, lowest: u64, highest: u64) -> Result<u64, Refusal>
    ensures { Passes result (range_refusal limits s.now given region lowest highest) (λ n. n ≡ answer_for (base_range_number lowest highest) (region_at (sheet_initializations s.now) given region)) }
{
    let r = region_at(s, given, region)?;
    query::refuse_if(highest < lowest, 50)?;
    let range = base_ranges::base_range(
        r.relocation_alignment,
        r.size,
        r.minimum_relocation_gpa,
        r.maximum_relocation_gpa,
        lowest,
        highest,
    );
    Ok(range.number())
}

// Whether region `region` of the mask may be moved to every base of the range, to none, or to some.
pub fn relocation_base_range(
    s: &[u8],
    given: u32,
    region: u64,
    lowest: u64,
    highest: u64,
) -> Answered
    ensures { result ≡ base_range_of limits s.now given region lowest highest }
{
    query::answered(base_range(s, given, region, lowest, highest))
}

// Whether the address lies in region `region` of the mask.
pub fn contains(s: &[u8], given: u32, region: u64, gpa: u64) -> Checked
    ensures { result ≡ contains_of limits s.now given region gpa }
{
    match region_at(s, given, region) {
        Ok(r) => Checked {
            refusal: Refusal::NONE,
            holds: addresses::contains(r.base_gpa, r.size, gpa),
        },
        Err(refusal) => Checked {
            refusal,
            holds: false,
        },
    }
}
