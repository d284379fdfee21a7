// One directive row, from its kind and body: its length, its codes and its tests, one arm for each kind, and what it tells of contexts and areas. Only a row
// that is in order is accepted; what is wrong with another is for the pass over directive headers to say.
#![tactic(auto)]

ghost use Rattle.std.specs.Prelude.{◌≡◌, true, false, ℕ, ◌≤◌, length};
ghost use Rattle.rows.specs.Rows.{Rows};
ghost use Rattle.igvm_defs.specs.declared.Arch.{Arch};
ghost use Rattle.igvm_defs.specs.Revision.{is_x64};
ghost use Rattle.initialization_header.specs.declared.IgvmInitializationHeader.{IgvmInitializationHeader};
ghost use Rattle.directive_header.specs.Directives.{directive_of};
ghost use Rattle.directive_header.specs.Fields.{is_parameter};
ghost use Rattle.rules.specs.Directives.{inside_table};
ghost use Rattle.directive_header.specs.declared.IgvmDirectiveHeader.{IgvmDirectiveHeader};
ghost use Rattle.area_table.specs.Table.{Knows};
ghost use Rattle.clashes.specs.Clashes.{HoldsTables};
ghost use Rattle.directive_row.specs.Row.{VbsContext, PlainRow, AreaRow, NamedRow, state_of};

use area_table::{AreaState, AreaTable};
use reloc_regions::RelocRegions;

// ---- a row's body

// 47 and 48, where the kind stands with the architecture: a VTL up to 2, whose mask gets the context's bits.
fn vbs_context(b: &[u8], stands: bool, contexts: &mut [u32; 3]) -> bool
    ensures stands_value { result ≡ true → (stands ≡ true) × VbsContext b.now contexts.old contexts.new }
    ensures contexts_unchanged { (result ≡ false → contexts.new ≡ contexts.old) × (length contexts.new ≡ 3) }
{
    if !stands {
        return false;
    }
    if b.len() < 5 {
        return false;
    }
    let v = b[4] as usize;
    if 2 < v {
        return false;
    }
    contexts[v] |= le::u32_at(b, 0);
    true
}

// A row that names no area: its length, its codes and its tests.
pub fn plain_row(kind: u32, b: &[u8], x64: bool, contexts: &mut [u32; 3]) -> bool
    ensures plain_row { (arch : Arch) → x64 ≡ is_x64 arch → result ≡ true → PlainRow arch kind b.now contexts.old contexts.new }
    ensures contexts_unchanged { (result ≡ false → contexts.new ≡ contexts.old) × (length contexts.new ≡ 3) }
{
    match kind {
        32 => directive_body::page_data(b),
        44 => directive_body::required_memory(b),
        45 => directive_body::snp_vp_context(b),
        46 => x64 & (6 <= b.len()),
        47 => vbs_context(b, x64, contexts),
        48 => vbs_context(b, !x64, contexts),
        49 => !x64 & (6 <= b.len()),
        51 => directive_body::error_range(b),
        52 => 4 <= b.len(),
        53 => 4 <= b.len(),
        _ => false, // 33 to 43 and 50 name an area
    }
}

// ---- rows that name an area

// 33: an area that no row named.
fn parameter_area_row<const LINKS: usize, const NODES: usize>(
    b: &[u8],
    areas: &mut AreaTable<LINKS, NODES>,
) -> bool
    ensures area_row { (arch : Arch) (earlier : Rows IgvmDirectiveHeader) → Knows areas.old (state_of earlier) → result ≡ true → AreaRow arch earlier 33 b.now areas.new }
    ensures by_index { (known : ℕ → ℕ) → result ≡ false → Knows areas.old known → Knows areas.new known }
{
    if !directive_body::parameter_area(b) {
        return false;
    }
    areas.change(le::u32_at(b, 8), AreaState::Nothing, AreaState::Allocated)
}

// 34 to 43: an area that is allocated.
fn parameter_row<const LINKS: usize, const NODES: usize>(
    b: &[u8],
    areas: &AreaTable<LINKS, NODES>,
) -> bool
    ensures { (arch : Arch) (earlier : Rows IgvmDirectiveHeader) (kind : ℕ) → is_parameter kind ≡ true → Knows areas.now (state_of earlier) → result ≡ true → AreaRow arch earlier kind b.now areas.now }
{
    if b.len() != 8 {
        return false;
    }
    areas.is(le::u32_at(b, 0), AreaState::Allocated)
}

// 50: an address on a page, an area that is allocated.
fn insert_row<const LINKS: usize, const NODES: usize>(
    b: &[u8],
    areas: &mut AreaTable<LINKS, NODES>,
) -> bool
    ensures area_row { (arch : Arch) (earlier : Rows IgvmDirectiveHeader) → Knows areas.old (state_of earlier) → result ≡ true → AreaRow arch earlier 50 b.now areas.new }
    ensures by_index { (known : ℕ → ℕ) → result ≡ false → Knows areas.old known → Knows areas.new known }
{
    if b.len() != 16 {
        return false;
    }
    if !addresses::on_page(le::u64_at(b, 0)) {
        return false;
    }
    areas.change(le::u32_at(b, 12), AreaState::Allocated, AreaState::Inserted)
}

// 50: no page table of the regions held contains the address.
fn clear_of_tables<const N: usize>(b: &[u8], held: &RelocRegions<N>) -> bool
    requires { held.now.count ≤ N }
    ensures { (is : Rows IgvmInitializationHeader) → HoldsTables held.now.mask held.now.gpa held.now.size held.now.page_table held.now.count is → result ≡ true → inside_table is (directive_of 50 b.now) ≡ false }
{
    if b.len() != 16 {
        return false;
    }
    !clashes::any_table_holds(held, le::u32_at(b, 8), le::u64_at(b, 0))
}

fn parameter_insert_row<const N: usize, const LINKS: usize, const NODES: usize>(
    b: &[u8],
    held: &RelocRegions<N>,
    areas: &mut AreaTable<LINKS, NODES>,
) -> bool
    requires { held.now.count ≤ N }
    ensures area_row { (arch : Arch) (is : Rows IgvmInitializationHeader) (earlier : Rows IgvmDirectiveHeader) → HoldsTables held.now.mask held.now.gpa held.now.size held.now.page_table held.now.count is → Knows areas.old (state_of earlier) → result ≡ true → AreaRow arch earlier 50 b.now areas.new × (inside_table is (directive_of 50 b.now) ≡ false) }
    ensures by_index { (known : ℕ → ℕ) → result ≡ false → Knows areas.old known → Knows areas.new known }
{
    if !clear_of_tables(b, held) {
        return false;
    }
    insert_row(b, areas)
}

// A row that names an area: its length, its codes and its tests. The regions held tell the page tables.
pub fn area_row<const N: usize, const LINKS: usize, const NODES: usize>(
    kind: u32,
    b: &[u8],
    held: &RelocRegions<N>,
    areas: &mut AreaTable<LINKS, NODES>,
) -> bool
    requires { held.now.count ≤ N }
    ensures named_row { (arch : Arch) (is : Rows IgvmInitializationHeader) (earlier : Rows IgvmDirectiveHeader) → HoldsTables held.now.mask held.now.gpa held.now.size held.now.page_table held.now.count is → Knows areas.old (state_of earlier) → result ≡ true → NamedRow arch is earlier kind b.now areas.new }
    ensures by_index { (known : ℕ → ℕ) → result ≡ false → Knows areas.old known → Knows areas.new known }
{
    // Parameters first: they are the most frequent of these rows.
    if directive_check::is_parameter(kind) {
        return parameter_row(b, areas);
    }
    match kind {
        33 => parameter_area_row(b, areas),
        50 => parameter_insert_row(b, held, areas),
        _ => false,
    }
}
