// The report on the directive rows of a readable sheet: the word of each row, judged after the rows kept before it, and whether a kept region has no context (34).
#![tactic(auto)]

ghost use Rattle.std.specs.Prelude.{◌≡◌, cond, ℕ, ◌+◌, ◌*◌, ◌<◌, ◌≤◌, length};
ghost use Rattle.lent.specs.Lent.{words_put};
ghost use Rattle.sheet.specs.Head.{head_of, first_directive};
ghost use Rattle.sheet.specs.Walk.{cursor_at};
ghost use Rattle.sheet_headers.specs.Headers.{sheet_headers};
ghost use Rattle.rules.specs.Report.{kept_initializations, kept_directives, faulty_directives, report_word, report_no_context};
ghost use Rattle.initialization_check.specs.Record.{HoldsRegions};
ghost use Rattle.directive_check.specs.Record.{HoldsContexts, how, area_in};
ghost use Rattle.area_table.specs.States.{state_code};
ghost use Rattle.area_table.specs.Table.{Knows};
ghost use Rattle.directive_row.specs.Row.{area_state, state_of};
ghost use Rattle.directive_report.specs.Reported.{bad_in, kept_to, said, after_row, RowReported, WordsTo};

use area_table::{AreaState, AreaTable};
use directive_check::AreaName;
use igvm_defs::Arch;
use reloc_regions::RelocRegions;
use sheet::{Cursor, ReadableSheet, SheetHead};

// ---- what is known of an area

fn area_state(allocated: bool, inserted: bool) -> AreaState
    ensures { state_code result ≡ area_state allocated inserted }
{
    if inserted {
        return AreaState::Inserted;
    }
    if allocated {
        return AreaState::Allocated;
    }
    AreaState::Nothing
}

// By the rows kept among the first n directive rows, which are read again: a row is kept where its word is 0.
#[tactic(auto, using(crate::proofs::DirectiveReport::allocated_next, crate::proofs::DirectiveReport::inserted_next, crate::proofs::DirectiveReport::state_kept, sheet::proofs::Readable::readable_bounds))]
fn kept_state(s: &ReadableSheet<'_>, words: &[u8], n: usize, area: u32) -> AreaState
    requires { (n ≤ (head_of s.now.bytes.now).directives) × WordsTo s.now.bytes.now words.now n }
    ensures { state_code result ≡ state_of (kept_to s.now.bytes.now n) area }
{
    let first = (s.head.platforms as usize) + (s.head.initializations as usize);
    let mut c = sheet_reader::cursor_at(s, first);
    let mut allocated = false;
    let mut inserted = false;
    for i in 0..n {
        let row = directive_pass::named_row(s, c, i);
        let kept = le::u64_at(words, 8 * (first + i)) == 0;
        allocated = allocated | (kept & row.name.allocates(area));
        inserted = inserted | (kept & row.name.inserts(area));
        c = row.next;
    }
    area_state(allocated, inserted)
}

// By the table, or, where it can't tell, by the kept rows.
#[tactic(auto, using(area_table::proofs::StateLaws::told_code, area_table::proofs::StateLaws::code_small))]
fn state_of<const LINKS: usize, const NODES: usize>(
    s: &ReadableSheet<'_>,
    words: &[u8],
    n: usize,
    areas: &AreaTable<LINKS, NODES>,
    area: u32,
) -> AreaState
    requires readable { (n ≤ (head_of s.now.bytes.now).directives) × WordsTo s.now.bytes.now words.now n }
    requires knows { Knows areas.now (state_of (kept_to s.now.bytes.now n)) }
    ensures { state_code result ≡ state_of (kept_to s.now.bytes.now n) area }
{
    match areas.state_of(area) {
        Some(state) => state,
        None => kept_state(s, words, n, area),
    }
}

// The same of the area that a row names; where it names none, nothing is known.
fn state_named<const LINKS: usize, const NODES: usize>(
    s: &ReadableSheet<'_>,
    words: &[u8],
    n: usize,
    areas: &AreaTable<LINKS, NODES>,
    name: AreaName,
) -> AreaState
    requires readable { (n ≤ (head_of s.now.bytes.now).directives) × WordsTo s.now.bytes.now words.now n }
    requires knows { Knows areas.now (state_of (kept_to s.now.bytes.now n)) }
    ensures { state_code result ≡ said (state_of (kept_to s.now.bytes.now n)) (area_in name) }
{
    match name {
        AreaName::Allocates(area) | AreaName::Uses(area) | AreaName::Inserts(area) => {
            state_of(s, words, n, areas, area)
        }
        AreaName::NoArea => AreaState::Nothing,
    }
}

// 32: a row that names an area in this way, where this is known of the area.
#[tactic(auto, using(crate::proofs::AreaLaws::not_nothing, crate::proofs::AreaLaws::not_allocated), unfolding(crate::specs::Reported::bad_in))]
fn bad_in(name: AreaName, state: AreaState) -> bool
    ensures { result ≡ bad_in (how name) (state_code state) }
{
    match name {
        AreaName::Allocates(_) => state != AreaState::Nothing,
        AreaName::Uses(_) | AreaName::Inserts(_) => state != AreaState::Allocated,
        AreaName::NoArea => false,
    }
}

// The table after a kept row that names its area so, of which this is known.
fn keep_area<const LINKS: usize, const NODES: usize>(
    areas: &mut AreaTable<LINKS, NODES>,
    name: AreaName,
    state: AreaState,
)
    ensures { (f : ℕ → ℕ) → said f (area_in name) ≡ state_code state → Knows areas.old f → Knows areas.new (after_row name f) }
{
    match name {
        AreaName::Allocates(area) => {
            areas.change(area, state, AreaState::Allocated);
        }
        AreaName::Inserts(area) => {
            areas.change(area, state, AreaState::Inserted);
        }
        AreaName::Uses(_) | AreaName::NoArea => {}
    }
}

// ---- one row

// The word that the report writes for a row, the masks of the contexts kept with it, and the row after it.
#[derive(Clone, Copy)]
struct RowReport {
    word: u64,
    contexts: [u32; 3],
    next: Cursor,
}

// Directive row i, at the cursor, after the rows kept before it. The regions are those of the kept initialization rows.
fn report_row<const LINKS: usize, const NODES: usize>(
    s: &ReadableSheet<'_>,
    arch: Arch,
    c: Cursor,
    i: usize,
    held: &RelocRegions<{ SheetHead::INITIALIZATION_ROWS }>,
    contexts: [u32; 3],
    areas: &mut AreaTable<LINKS, NODES>,
    words: &[u8],
) -> RowReport
    requires readable { (arch ≡ (sheet_headers s.now.bytes.now).arch) × (c ≡ cursor_at s.now.bytes.now (first_directive s.now.bytes.now + i)) × (i < (head_of s.now.bytes.now).directives) × WordsTo s.now.bytes.now words.now i }
    requires regions { HoldsRegions held.now (kept_initializations (sheet_headers s.now.bytes.now)) }
    requires known { HoldsContexts contexts (kept_to s.now.bytes.now i) × Knows areas.old (state_of (kept_to s.now.bytes.now i)) }
    ensures { RowReported s.now.bytes.now i result.word result.contexts result.next areas.new }
{
    let name = directive_pass::named_row(s, c, i).name;
    let state = state_named(s, words, i, areas, name);
    let row = directive_pass::validate_row(s.bytes, c, arch, held, contexts, bad_in(name, state));
    match row.told {
        Ok(()) => {
            keep_area(areas, name, state);
            let kept = row.contexts;
            RowReport {
                word: 0,
                contexts: kept,
                next: row.next,
            }
        }
        Err(fault) => RowReport {
            word: fault.number,
            contexts,
            next: row.next,
        },
    }
}

// ---- the rows

// The masks of the contexts that are kept, and how many rows are faulty.
#[derive(Clone, Copy)]
struct RowsReport {
    contexts: [u32; 3],
    faulty: usize,
}

// 21, 22, 24 and 30 to 33 of each directive row, with a table of areas of these sizes.
fn report_rows<const LINKS: usize, const NODES: usize>(
    s: &ReadableSheet<'_>,
    held: &RelocRegions<{ SheetHead::INITIALIZATION_ROWS }>,
    words: &mut [u8],
) -> RowsReport
    requires readable { HoldsRegions held.now (kept_initializations (sheet_headers s.now.bytes.now)) × (8 * (first_directive s.now.bytes.now + (head_of s.now.bytes.now).directives) ≤ length words.old) }
    requires sizes { (LINKS ≡ 1024 + 2 * NODES) × (0 < NODES) × (NODES ≤ 65536) }
    ensures holds_contexts { HoldsContexts result.contexts (kept_directives (sheet_headers s.now.bytes.now)) × (result.faulty ≡ faulty_directives (sheet_headers s.now.bytes.now)) }
    ensures words_after { words.new ≡ words_put (first_directive s.now.bytes.now) (head_of s.now.bytes.now).directives (report_word (sheet_headers s.now.bytes.now)) words.old }
{
    let first = (s.head.platforms as usize) + (s.head.initializations as usize);
    let arch = s.head.revision().arch();
    let mut areas = AreaTable::<LINKS, NODES>::new();
    let mut c = sheet_reader::cursor_at(s, first);
    let mut contexts: [u32; 3] = [0; 3];
    let mut faulty = 0;
    for i in 0..s.head.directives as usize {
        let row = report_row(s, arch, c, i, held, contexts, &mut areas, words);
        contexts = row.contexts;
        lent::put_word(words, first + i, row.word);
        faulty += (row.word != 0) as usize;
        c = row.next;
    }
    RowsReport { contexts, faulty }
}

// Up to so many directive rows, reading the rows before a row again takes less time than clearing a large table.
const FEW_ROWS: u16 = 64;

// A table with no node: it tells of the areas that have a place of their own.
const NO_NODES: usize = 1;

const NO_LINKS: usize = 1026;

// With a table of areas as large as the rows ask for.
fn report_with_table(
    s: &ReadableSheet<'_>,
    held: &RelocRegions<{ SheetHead::INITIALIZATION_ROWS }>,
    words: &mut [u8],
) -> RowsReport
    requires { HoldsRegions held.now (kept_initializations (sheet_headers s.now.bytes.now)) × (8 * (first_directive s.now.bytes.now + (head_of s.now.bytes.now).directives) ≤ length words.old) }
    ensures holds_contexts { HoldsContexts result.contexts (kept_directives (sheet_headers s.now.bytes.now)) × (result.faulty ≡ faulty_directives (sheet_headers s.now.bytes.now)) }
    ensures words_after { words.new ≡ words_put (first_directive s.now.bytes.now) (head_of s.now.bytes.now).directives (report_word (sheet_headers s.now.bytes.now)) words.old }
{
    if s.head.directives <= FEW_ROWS {
        return report_rows::<NO_LINKS, NO_NODES>(s, held, words);
    }
    report_rows::<{ area_table::LARGE_LINKS }, { area_table::LARGE_NODES }>(s, held, words)
}

// Whether a kept region has no context, and how many rows are faulty.
#[derive(Clone, Copy)]
pub struct DirectivesReport {
    pub no_context: bool,
    pub faulty: usize,
}

// 21, 22, 24 and 30 to 33 of each directive row, then 34 over the kept rows.
#[tactic(auto, using(crate::proofs::DirectiveReport::lacks_told))]
pub fn report_directive_headers(
    s: &ReadableSheet<'_>,
    regions: &RelocRegions<{ SheetHead::INITIALIZATION_ROWS }>,
    words: &mut [u8],
) -> DirectivesReport
    requires { HoldsRegions regions.now (kept_initializations (sheet_headers s.now.bytes.now)) × (8 * (first_directive s.now.bytes.now + (head_of s.now.bytes.now).directives) ≤ length words.old) }
    ensures no_context_value { (result.no_context ≡ report_no_context (sheet_headers s.now.bytes.now)) × (result.faulty ≡ faulty_directives (sheet_headers s.now.bytes.now)) }
    ensures words_after { words.new ≡ words_put (first_directive s.now.bytes.now) (head_of s.now.bytes.now).directives (report_word (sheet_headers s.now.bytes.now)) words.old }
{
    let rows = report_with_table(s, regions, words);
    DirectivesReport {
        no_context: directive_pass::no_matching_vp_context(regions, rows.contexts),
        faulty: rows.faulty,
    }
}
