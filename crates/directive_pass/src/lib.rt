// The pass over the directive rows of a readable sheet, from the first row on that is not known to be in order: refusals 21, 22, 24 and 30 to 34.
#![tactic(auto)]

ghost use Rattle.std.specs.Prelude.{◌≡◌, false, ℕ, ◌+◌, ◌-◌, ◌<◌, ◌≤◌};
ghost use Rattle.rows.specs.Below.{any_below};
ghost use Rattle.igvm_defs.specs.Kinds.{kind_of, directive_list};
ghost use Rattle.igvm_defs.specs.Refusals.{is_fault, Passes};
ghost use Rattle.sheet.specs.Head.{head_of, first_directive, row_count};
ghost use Rattle.sheet.specs.Table.{row_kind, body_of};
ghost use Rattle.sheet.specs.Walk.{cursor_at, AtRow};
ghost use Rattle.directive_header.specs.declared.IgvmDirectiveHeader.{IgvmDirectiveHeader};
ghost use Rattle.directive_header.specs.Directives.{directive_of};
ghost use Rattle.sheet_headers.specs.Headers.{sheet_headers};
ghost use Rattle.initialization_header.specs.declared.IgvmInitializationHeader.{IgvmInitializationHeader};
ghost use Rattle.rows.specs.Rows.{Rows, any, before};
ghost use Rattle.rules.specs.Directives.{allocates, inserts, bad_area, inside_table};
ghost use Rattle.rules.specs.Verdict.{directive_faults, directives_refusal};
ghost use Rattle.initialization_check.specs.Record.{any_region, HoldsRegions};
ghost use Rattle.directive_check.specs.Record.{HoldsContexts, lacks_context, DirectiveStepped, Names};
ghost use Rattle.clashes.specs.Clashes.{HoldsTables};

use directive_check::AreaName;
use directive_header::IgvmDirectiveHeader;
use igvm_defs::{Arch, Fault, Refusal};
use reloc_regions::RelocRegions;
use sheet::{Cursor, ReadableSheet};

// ---- 32: the rows before a row are read again

// How a directive row names an area, and the row after it.
#[derive(Clone, Copy)]
pub struct NamedRow {
    pub name: AreaName,
    pub next: Cursor,
}

// Directive row i, at the cursor.
#[tactic(auto, using(sheet_headers::proofs::ListLaws::at_directive, sheet::proofs::Readable::body_least))]
pub fn named_row(s: &ReadableSheet<'_>, c: Cursor, i: usize) -> NamedRow
    requires { (i < (head_of s.now.bytes.now).directives) × (c ≡ cursor_at s.now.bytes.now (first_directive s.now.bytes.now + i)) }
    ensures named { Names result.name ((sheet_headers s.now.bytes.now).directives.row i) }
    ensures next { result.next ≡ cursor_at s.now.bytes.now (first_directive s.now.bytes.now + (i + 1)) }
{
    let row = sheet_reader::cursor_row(s.bytes, c);
    NamedRow {
        name: directive_check::naming(row.kind, sheet_reader::cursor_body(s.bytes, c)),
        next: row.next,
    }
}

// What some directive rows tell of an area.
#[derive(Clone, Copy)]
struct KnownArea {
    allocated: bool,
    inserted: bool,
}

// Whether one of the first n directive rows allocates the area, and whether one inserts it.
#[tactic(auto, using(crate::proofs::DirectivePass::allocated_more, crate::proofs::DirectivePass::inserted_more), unfolding(rows::specs::Below::any_below))]
fn known_area(s: &ReadableSheet<'_>, n: usize, area: u32) -> KnownArea
    requires { n ≤ (head_of s.now.bytes.now).directives }
    ensures { (result.allocated ≡ any (allocates area) (before n (sheet_headers s.now.bytes.now).directives)) × (result.inserted ≡ any (inserts area) (before n (sheet_headers s.now.bytes.now).directives)) }
{
    let mut c = sheet_reader::cursor_at(
        s,
        (s.head.platforms as usize) + (s.head.initializations as usize),
    );
    let mut allocated = false;
    let mut inserted = false;
    for i in 0..n {
        let row = named_row(s, c, i);
        allocated = allocated | row.name.allocates(area);
        inserted = inserted | row.name.inserts(area);
        c = row.next;
    }
    KnownArea {
        allocated,
        inserted,
    }
}

// Whether the area of directive row i, at the cursor, is bad by the rows before it.
#[tactic(auto, using(directive_check::proofs::DirectiveRecordLaws::bad_area_says))]
fn bad_area(s: &ReadableSheet<'_>, c: Cursor, i: usize) -> bool
    requires { (i < (head_of s.now.bytes.now).directives) × (c ≡ cursor_at s.now.bytes.now (first_directive s.now.bytes.now + i)) }
    ensures { result ≡ bad_area (before i (sheet_headers s.now.bytes.now).directives) ((sheet_headers s.now.bytes.now).directives.row i) }
{
    match named_row(s, c, i).name {
        AreaName::Allocates(area) => known_area(s, i, area).allocated,
        AreaName::Uses(area) | AreaName::Inserts(area) => {
            let known = known_area(s, i, area);
            !(known.allocated & !known.inserted)
        }
        AreaName::NoArea => false,
    }
}

// ---- one row

// 34: some region has a VP index other than 0, or no context.
#[tactic(auto, using(rows::proofs::BelowLaws::any_more), unfolding(rows::specs::Below::any_below))]
pub fn no_matching_vp_context<const N: usize>(regions: &RelocRegions<N>, contexts: [u32; 3]) -> bool
    requires { regions.now.count ≤ N }
    ensures { result ≡ any_region (lacks_context contexts) regions.now }
{
    for i in 0..regions.count {
        if directive_check::lacks_context(contexts, regions.at(i)) {
            return true;
        }
    }
    false
}

// 33: an insert at an address in a page table, under a shared bit.
fn inside_table<const N: usize>(held: &RelocRegions<N>, h: IgvmDirectiveHeader) -> bool
    requires { held.now.count ≤ N }
    ensures { (xs : Rows IgvmInitializationHeader) → HoldsTables held.now.mask held.now.gpa held.now.size held.now.page_table held.now.count xs → result ≡ inside_table xs h }
{
    match h {
        IgvmDirectiveHeader::ParameterInsert(p) => {
            clashes::any_table_holds(held, p.compatibility_mask, p.gpa)
        }
        _ => false,
    }
}

// One row: its fault, the contexts' masks with its context, and the row after it. The rows before it tell whether its area is bad. Verdict and report share it,
// so that what it calls has one caller.
#[derive(Clone, Copy)]
pub struct RowPass {
    pub told: Result<(), Fault>,
    pub contexts: [u32; 3],
    pub next: Cursor,
}

pub fn validate_row<const N: usize>(
    s: &[u8],
    c: Cursor,
    arch: Arch,
    held: &RelocRegions<N>,
    contexts: [u32; 3],
    bad: bool,
) -> RowPass
    requires { AtRow s.now c × ((kind_of (row_kind s.now c.row)).list ≡ directive_list) × (held.now.count ≤ N) }
    ensures next_value { result.next ≡ cursor_at s.now (c.row + 1) }
    ensures directive_stepped { (is : Rows IgvmInitializationHeader) (xs : Rows IgvmDirectiveHeader) (i : ℕ) → directive_of (row_kind s.now c.row) (body_of s.now c.row) ≡ xs.row i → bad ≡ bad_area (before i xs) (xs.row i) → HoldsTables held.now.mask held.now.gpa held.now.size held.now.page_table held.now.count is → HoldsContexts contexts (before i xs) → DirectiveStepped arch is xs i result.told result.contexts }
{
    let row = sheet_headers::header_at::<IgvmDirectiveHeader>(s, c);
    let inside = inside_table(held, row.header);
    let step = directive_check::step(contexts, arch, bad, inside, row.header);
    let masks = step.contexts;
    RowPass {
        told: step.told,
        contexts: masks,
        next: row.next,
    }
}

// ---- the pass

// 21, 22, 24 and 30 to 33 of each directive row from the cursor on, then 34. No row before the cursor has a fault, and the masks hold their contexts. The
// answer's masks hold the contexts of all rows.
pub fn validate_directive_headers<const N: usize>(
    s: &ReadableSheet<'_>,
    regions: &RelocRegions<N>,
    from: Cursor,
    mut contexts: [u32; 3],
) -> Result<[u32; 3], Refusal>
    requires readable { HoldsRegions regions.now (sheet_headers s.now.bytes.now).initializations × ((head_of s.now.bytes.now).initializations ≤ N) }
    requires from_value { (from ≡ cursor_at s.now.bytes.now from.row) × (first_directive s.now.bytes.now ≤ from.row) × (from.row ≤ row_count (head_of s.now.bytes.now)) }
    requires i_value { (any_below (from.row - first_directive s.now.bytes.now) (λ i. is_fault (directive_faults (sheet_headers s.now.bytes.now) i)) ≡ false) × HoldsContexts contexts (before (from.row - first_directive s.now.bytes.now) (sheet_headers s.now.bytes.now).directives) }
    ensures { Passes result (directives_refusal (sheet_headers s.now.bytes.now)) (λ masks. HoldsContexts masks (sheet_headers s.now.bytes.now).directives) }
{
    let first = (s.head.platforms as usize) + (s.head.initializations as usize);
    let arch = s.head.revision().arch();
    let mut c = from;
    let start = from.row - first;
    for i in start..s.head.directives as usize {
        let bad = bad_area(s, c, i);
        let row = validate_row(s.bytes, c, arch, regions, contexts, bad);
        row.told.map_err(|f| f.in_row((first + i + 1) as u64))?;
        let masks = row.contexts;
        contexts = masks;
        c = row.next;
    }
    let lacking = no_matching_vp_context(regions, contexts);
    igvm_defs::refuse_if(lacking, 34, 0).map_err(|f| f.in_row(0))?;
    Ok(contexts)
}
