// The directive rows of a sheet, from its bytes, as far as they are in order: one pass. A row that is not in order, or of which this pass can't tell, is
// where it ends; what is wrong with such a row is for the pass over directive headers to say.
#![tactic(auto)]

ghost use Rattle.std.specs.Prelude.{◌≡◌, [], ◌∷◌, ◌+◌, ◌*◌, ◌<◌, ◌≤◌, length};
ghost use Rattle.igvm_defs.specs.Revision.{is_x64};
ghost use Rattle.sheet.specs.Head.{head_of, first_directive, row_count, bodies_at};
ghost use Rattle.sheet.specs.Walk.{ReadTo};
ghost use Rattle.sheet_headers.specs.Headers.{sheet_headers};
ghost use Rattle.area_table.specs.Table.{Knows};
ghost use Rattle.clashes.specs.Clashes.{HoldsTables};
ghost use Rattle.directive_accept.specs.Accepted.{DirectivesAccepted, Onward, PlainPassed, AreasPassed, PlainAccepted, NamedAccepted, state_before};

use area_table::AreaTable;
use reloc_regions::RelocRegions;
use sheet::Cursor;

// ---- the rows

// Past the pages in order from the cursor on.
fn past_pages(s: &[u8], from: Cursor, end: usize) -> Cursor
    requires { (bodies_at (head_of s.now) ≤ length s.now) × ReadTo s.now from × (first_directive s.now ≤ from.row) × (end ≡ row_count (head_of s.now)) }
    ensures { Onward s.now from result }
{
    let mut c = from;
    while c.row < end {
        let Some(r) = sheet_reader::row_from(s, c) else {
            return c;
        };
        if r.kind != 32 {
            return c;
        }
        if !directive_body::page_data(sheet_reader::body_from(s, c, r)) {
            return c;
        }
        c = sheet_reader::after(c, r);
    }
    c
}

// Most rows are pages, and they come one behind the other: a loop of their own takes them.
fn past_like(s: &[u8], kind: u32, from: Cursor, end: usize) -> Cursor
    requires { (bodies_at (head_of s.now) ≤ length s.now) × ReadTo s.now from × (first_directive s.now ≤ from.row) × (end ≡ row_count (head_of s.now)) }
    ensures { Onward s.now from result }
{
    if kind == 32 {
        return past_pages(s, from, end);
    }
    from
}

// Past the rows in order that name no area.
fn past_plain(s: &[u8], from: Cursor, end: usize, x64: bool, contexts: &mut [u32; 3]) -> Cursor
    requires s_in_bounds { (bodies_at (head_of s.now) ≤ length s.now) × (end ≡ row_count (head_of s.now)) × (x64 ≡ is_x64 (sheet_headers s.now).arch) }
    requires directives_accepted { DirectivesAccepted s.now from contexts.old × (length contexts.old ≡ 3) }
    ensures { PlainPassed s.now from result contexts.new }
{
    let mut c = from;
    while c.row < end {
        let Some(r) = sheet_reader::row_from(s, c) else {
            return c;
        };
        if !directive_row::plain_row(r.kind, sheet_reader::body_from(s, c, r), x64, contexts) {
            return c;
        }
        c = past_like(s, r.kind, sheet_reader::after(c, r), end);
    }
    c
}

// Past the rows in order that name an area.
fn past_area_rows<const N: usize, const LINKS: usize, const NODES: usize>(
    s: &[u8],
    from: Cursor,
    end: usize,
    held: &RelocRegions<N>,
    areas: &mut AreaTable<LINKS, NODES>,
) -> Cursor
    requires s_in_bounds { (bodies_at (head_of s.now) ≤ length s.now) × ReadTo s.now from × (first_directive s.now ≤ from.row) × (end ≡ row_count (head_of s.now)) }
    requires holds_tables { (held.now.count ≤ N) × HoldsTables held.now.mask held.now.gpa held.now.size held.now.page_table held.now.count (sheet_headers s.now).initializations }
    requires knows_areas { Knows areas.old (state_before s.now from.row) }
    ensures { AreasPassed s.now from result areas.new }
{
    let mut c = from;
    while c.row < end {
        let Some(r) = sheet_reader::row_from(s, c) else {
            return c;
        };
        if !directive_row::area_row(r.kind, sheet_reader::body_from(s, c, r), held, areas) {
            return c;
        }
        c = sheet_reader::after(c, r);
    }
    c
}

// Past the rows in order, with a table of areas: those that name an area and those that name none, by turns.
fn past_named<const N: usize, const LINKS: usize, const NODES: usize>(
    s: &[u8],
    from: Cursor,
    end: usize,
    x64: bool,
    held: &RelocRegions<N>,
    contexts: &mut [u32; 3],
    areas: &mut AreaTable<LINKS, NODES>,
) -> Cursor
    requires s_in_bounds { (bodies_at (head_of s.now) ≤ length s.now) × (end ≡ row_count (head_of s.now)) × (x64 ≡ is_x64 (sheet_headers s.now).arch) }
    requires holds_tables { (held.now.count ≤ N) × HoldsTables held.now.mask held.now.gpa held.now.size held.now.page_table held.now.count (sheet_headers s.now).initializations }
    requires named_accepted { NamedAccepted s.now from contexts.old areas.old }
    ensures { DirectivesAccepted s.now result contexts.new × (length contexts.new ≡ 3) }
{
    let mut c = from;
    while c.row < end {
        let k = c.row;
        let d = past_area_rows(s, c, end, held, areas);
        c = past_plain(s, d, end, x64, contexts);
        if c.row == k {
            return c;
        }
    }
    c
}

// The rows from the first that names an area on, with a table of this size. It is made here, so that images without areas do not clear it.
fn past_with_table<const N: usize, const LINKS: usize, const NODES: usize>(
    s: &[u8],
    from: Cursor,
    end: usize,
    x64: bool,
    held: &RelocRegions<N>,
    contexts: &mut [u32; 3],
) -> Cursor
    requires s_in_bounds { (bodies_at (head_of s.now) ≤ length s.now) × (end ≡ row_count (head_of s.now)) × (x64 ≡ is_x64 (sheet_headers s.now).arch) }
    requires holds_tables { (held.now.count ≤ N) × HoldsTables held.now.mask held.now.gpa held.now.size held.now.page_table held.now.count (sheet_headers s.now).initializations }
    requires plain_accepted { PlainAccepted s.now from contexts.old }
    requires sizes { (LINKS ≡ 1024 + 2 * NODES) × (0 < NODES) × (NODES ≤ 65536) }
    ensures { DirectivesAccepted s.now result contexts.new × (length contexts.new ≡ 3) }
{
    let mut areas = AreaTable::<LINKS, NODES>::new();
    past_named(s, from, end, x64, held, contexts, &mut areas)
}

// The same with a table as small as the number of rows allows: a tiny one takes less time to clear.
fn past_areas<const N: usize>(
    s: &[u8],
    from: Cursor,
    end: usize,
    x64: bool,
    held: &RelocRegions<N>,
    contexts: &mut [u32; 3],
) -> Cursor
    requires s_in_bounds { (bodies_at (head_of s.now) ≤ length s.now) × (end ≡ row_count (head_of s.now)) × (x64 ≡ is_x64 (sheet_headers s.now).arch) }
    requires holds_tables { (held.now.count ≤ N) × HoldsTables held.now.mask held.now.gpa held.now.size held.now.page_table held.now.count (sheet_headers s.now).initializations }
    requires plain_accepted { PlainAccepted s.now from contexts.old }
    ensures { DirectivesAccepted s.now result contexts.new × (length contexts.new ≡ 3) }
{
    if end - from.row <= area_table::TINY {
        return past_with_table::<N, { area_table::TINY_LINKS }, { area_table::TINY_NODES }>(
            s, from, end, x64, held, contexts,
        );
    }
    past_with_table::<N, { area_table::SMALL_LINKS }, { area_table::SMALL_NODES }>(
        s, from, end, x64, held, contexts,
    )
}

// Past the directive rows in order, from the first on, as far as a small table can tell. The regions held are the file's; the masks become those of the contexts
// passed.
pub fn accept<const N: usize>(
    s: &[u8],
    from: Cursor,
    end: usize,
    x64: bool,
    held: &RelocRegions<N>,
    contexts: &mut [u32; 3],
) -> Cursor
    requires s_in_bounds { (bodies_at (head_of s.now) ≤ length s.now) × (end ≡ row_count (head_of s.now)) × (x64 ≡ is_x64 (sheet_headers s.now).arch) }
    requires holds_tables { (held.now.count ≤ N) × HoldsTables held.now.mask held.now.gpa held.now.size held.now.page_table held.now.count (sheet_headers s.now).initializations }
    requires read_to { ReadTo s.now from × (from.row ≡ first_directive s.now) × (contexts.old ≡ (0 ∷ 0 ∷ 0 ∷ [])) }
    ensures { DirectivesAccepted s.now result contexts.new × (length contexts.new ≡ 3) }
{
    let c = past_plain(s, from, end, x64, contexts);
    if c.row < end {
        return past_areas(s, c, end, x64, held, contexts);
    }
    c
}

// The same with a large table, which has room for an area in each row.
pub fn accept_many<const N: usize>(
    s: &[u8],
    from: Cursor,
    end: usize,
    x64: bool,
    held: &RelocRegions<N>,
    contexts: &mut [u32; 3],
) -> Cursor
    requires s_in_bounds { (bodies_at (head_of s.now) ≤ length s.now) × (end ≡ row_count (head_of s.now)) × (x64 ≡ is_x64 (sheet_headers s.now).arch) }
    requires holds_tables { (held.now.count ≤ N) × HoldsTables held.now.mask held.now.gpa held.now.size held.now.page_table held.now.count (sheet_headers s.now).initializations }
    requires read_to { ReadTo s.now from × (from.row ≡ first_directive s.now) × (contexts.old ≡ (0 ∷ 0 ∷ 0 ∷ [])) }
    ensures { DirectivesAccepted s.now result contexts.new × (length contexts.new ≡ 3) }
{
    past_with_table::<N, { area_table::LARGE_LINKS }, { area_table::LARGE_NODES }>(
        s, from, end, x64, held, contexts,
    )
}
