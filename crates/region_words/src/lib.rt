// The words of a mask's regions in lent bytes, in header order, and its page-table region, in one walk over the initialization rows.
#![tactic(auto)]

ghost use Rattle.std.specs.Prelude.{◌≡◌, true, cond, ◌&&◌, ◌+◌, ◌*◌, ◌≤◌, ◌<◌, is_none, length, Some, MatchOption, ⊤};
ghost use Rattle.rows.specs.Answered.{option_of};
ghost use Rattle.le.specs.Le.{byte_at};
ghost use Rattle.igvm_defs.specs.Kinds.{kind_of, initialization_list};
ghost use Rattle.sheet.specs.Head.{initialization_rows, limits, head_of};
ghost use Rattle.sheet.specs.Table.{row_kind, body_of};
ghost use Rattle.sheet.specs.Read.{codes_ok};
ghost use Rattle.initialization_header.specs.Initializations.{initialization_of, relocatable_region_of};
ghost use Rattle.rules.specs.Options.{then};
ghost use Rattle.rules.specs.Relocations.{is_relocatable, is_page_table, relocatable_of, page_table_of, region_count, region_at, page_table_at};
ghost use Rattle.lent.specs.Lent.{row_put, rows_put};
ghost use Rattle.answers.specs.Relocations.{sheet_initializations, region_words};
ghost use Rattle.region_words.specs.Puts.{Puts};

use initialization_header::IgvmInitializationHeader;
use rules::PageTableRegion;
use sheet::ReadableSheet;

// ---- one row, by its kind and its body

// Whether the row is a region of the mask.
fn is_region(given: u32, kind: u32, b: &[u8]) -> bool
    requires { ((kind_of kind).list ≡ initialization_list) × ((kind_of kind).least ≤ length b.now) }
    ensures { result ≡ is_relocatable given (initialization_of kind b.now) }
{
    if kind != 18 {
        return false;
    }
    masks::matches(given, le::u32_at(b, 0))
}

// Whether the row is a page table of the mask.
fn is_table(given: u32, kind: u32, b: &[u8]) -> bool
    requires { ((kind_of kind).list ≡ initialization_list) × ((kind_of kind).least ≤ length b.now) }
    ensures { result ≡ is_page_table given (initialization_of kind b.now) }
{
    if kind != 19 {
        return false;
    }
    masks::matches(given, le::u32_at(b, 0))
}

// The words of a region, as its body has them.
fn words_of(b: &[u8]) -> [u64; 8]
    requires { (48 ≤ length b.now) × (byte_at b.now 44 ≤ 7) × (byte_at b.now 47 ≤ 2) }
    ensures { result ≡ region_words (relocatable_of (relocatable_region_of b.now)) }
{
    [
        le::u64_at(b, 12),
        le::u64_at(b, 20),
        le::u64_at(b, 4),
        le::u64_at(b, 28),
        le::u64_at(b, 36),
        b[44] as u64,
        le::u16_at(b, 45) as u64,
        b[47] as u64,
    ]
}

// Puts the row's words as row n of the lent bytes where it is a region of the mask; how many rows there are then.
fn put_region(given: u32, kind: u32, b: &[u8], n: usize, words: &mut [u8]) -> usize
    requires kind_value { ((kind_of kind).list ≡ initialization_list) × ((kind_of kind).least ≤ length b.now) × (codes_ok kind b.now ≡ true) × (n ≤ initialization_rows) }
    requires n_in_bounds { is_relocatable given (initialization_of kind b.now) ≡ true → 64 * n + 64 ≤ length words.old }
    ensures value { result ≡ n + cond (is_relocatable given (initialization_of kind b.now)) 1 0 }
    ensures words_after { words.new ≡ cond (is_relocatable given (initialization_of kind b.now)) (row_put n (region_words (relocatable_of (initialization_of kind b.now))) words.old) words.old }
{
    if is_region(given, kind, b) {
        lent::put_words(words, n, words_of(b));
        return n + 1;
    }
    n
}

// The row of the mask's page table that was found, else this row, where it is one.
fn first_table(given: u32, kind: u32, b: &[u8], row: usize, found: Option<usize>) -> Option<usize>
    requires { ((kind_of kind).list ≡ initialization_list) × ((kind_of kind).least ≤ length b.now) }
    ensures { result ≡ cond (is_none found && is_page_table given (initialization_of kind b.now)) (Some row) found }
{
    if found.is_none() & is_table(given, kind, b) {
        return Some(row);
    }
    found
}

// ---- over the initialization rows of a readable sheet

// The page table of a row that was found.
fn found_table(s: &ReadableSheet<'_>, found: Option<usize>) -> Option<PageTableRegion>
    requires { MatchOption found ⊤ (λ row. ((head_of s.now.bytes.now).platforms ≤ row) × (row < (head_of s.now.bytes.now).platforms + (head_of s.now.bytes.now).initializations)) }
    ensures { option_of result ≡ then (option_of found) (λ row. page_table_of (initialization_of (row_kind s.now.bytes.now row) (body_of s.now.bytes.now row))) }
{
    match found {
        Some(row) => {
            let c = sheet_reader::cursor_at(s, row);
            let at = sheet_headers::header_at::<IgvmInitializationHeader>(s.bytes, c);
            regions::page_table_of(at.header)
        }
        None => None,
    }
}

// How many regions were put, and the page-table region.
#[derive(Clone, Copy)]
pub struct PutRegions {
    pub table: Option<PageTableRegion>,
    pub count: usize,
}

// The words of the mask's regions, in header order, in front of `words`, which is not the caller's; counts them and finds its page-table region on the way.
fn collect(s: &ReadableSheet<'_>, given: u32, words: &mut [u8]) -> PutRegions
    requires { 64 * region_count (sheet_initializations s.now.bytes.now) given ≤ length words.old }
    ensures table_value { (option_of result.table ≡ page_table_at (sheet_initializations s.now.bytes.now) given) × (result.count ≡ region_count (sheet_initializations s.now.bytes.now) given) }
    ensures words_after { words.new ≡ rows_put (region_count (sheet_initializations s.now.bytes.now) given) (λ n. region_words (region_at (sheet_initializations s.now.bytes.now) given n)) words.old }
{
    let mut c = sheet_reader::cursor_at(s, s.head.platforms as usize);
    let mut found: Option<usize> = None;
    let mut count: usize = 0;
    for _ in 0..s.head.initializations {
        let row = sheet_reader::cursor_row(s.bytes, c);
        let b = sheet_reader::cursor_body(s.bytes, c);
        found = first_table(given, row.kind, b, c.row, found);
        count = put_region(given, row.kind, b, count, words);
        c = row.next;
    }
    PutRegions {
        table: found_table(s, found),
        count,
    }
}

// Puts the words of the mask's regions into the lent bytes, all at once, where eight words are lent for each. They are collected in BYTES bytes of its own.
fn put_through<const BYTES: usize>(
    s: &ReadableSheet<'_>,
    given: u32,
    words: &mut [u8],
) -> Option<PutRegions>
    requires { (64 * s.now.head.initializations ≤ BYTES) × (BYTES ≤ 4096) }
    ensures { Puts (sheet_initializations s.now.bytes.now) given words.old result words.new }
{
    let mut collected: [u8; BYTES] = [0; BYTES];
    let put = collect(s, given, &mut collected);
    if words.len() / 8 < 8 * put.count {
        return None;
    }
    lent::put_bytes(words, &collected, 64 * put.count);
    Some(put)
}

// By the number of initialization rows the words are collected in 4, 16 or 64 rows: fewer take less time to clear.
pub fn put_regions_if_room(
    s: &ReadableSheet<'_>,
    given: u32,
    words: &mut [u8],
) -> Option<PutRegions>
    ensures { Puts (sheet_initializations s.now.bytes.now) given words.old result words.new }
{
    match s.head.initializations {
        0..=4 => put_through::<256>(s, given, words),
        5..=16 => put_through::<1024>(s, given, words),
        _ => put_through::<4096>(s, given, words),
    }
}

// Puts the words of the mask's regions into the lent bytes, all at once. Eight words are lent for each.
pub fn put_regions(s: &ReadableSheet<'_>, given: u32, words: &mut [u8]) -> PutRegions
    requires { 64 * region_count (sheet_initializations s.now.bytes.now) given ≤ length words.old }
    ensures table_value { (option_of result.table ≡ page_table_at (sheet_initializations s.now.bytes.now) given) × (result.count ≡ region_count (sheet_initializations s.now.bytes.now) given) }
    ensures words_after { words.new ≡ rows_put (region_count (sheet_initializations s.now.bytes.now) given) (λ n. region_words (region_at (sheet_initializations s.now.bytes.now) given n)) words.old }
{
    put_regions_if_room(s, given, words).unwrap()
}
