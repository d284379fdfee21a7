// The initialization rows of a byte string, in one pass that only accepts: it goes past a row that has no fault, of reading or by the rules, and stops
// at the first row that it does not know to be in order. What is wrong with that row, if anything, the passes that name a fault tell.
#![tactic(auto)]

ghost use Rattle.std.specs.Prelude.{◌≡◌, ◌+◌, ◌≤◌, ◌<◌, length, MatchBool, MatchOption};
ghost use Rattle.igvm_defs.specs.Revision.{is_x64};
ghost use Rattle.sheet.specs.Head.{platform_rows, initialization_rows, head_of, bodies_at};
ghost use Rattle.sheet.specs.Walk.{ReadTo};
ghost use Rattle.sheet_headers.specs.Headers.{sheet_headers};
ghost use Rattle.by_start.specs.ByStart.{Ordered};
ghost use Rattle.platform_accept.specs.Accepted.{HoldsCca};
ghost use Rattle.initialization_row.specs.Row.{region_in_row};
ghost use Rattle.initialization_accept.specs.Accepted.{InitializationsAccepted, KeptBehind, RowKept};

use by_start::{KeptRegions, Order};
use initialization_row::Row;
use rules::Region;
use sheet::Cursor;

// Where the region clashes with none of the record it comes behind them, with its row's number in the sheet, from 1, and into its place in order of start.
fn keep_region<const N: usize, const M: usize>(
    region: Region,
    number: u16,
    kept: &mut KeptRegions<N, M>,
) -> bool
    requires room { (kept.old.regions.count < N) × (kept.old.regions.count < 255) × (kept.old.regions.count + 1 < M) }
    requires ordered { Ordered kept.old.order.next kept.old.regions.gpa kept.old.regions.size kept.old.regions.count kept.old.order }
    ensures { MatchBool result (KeptBehind kept.old region number kept.new) (kept.new ≡ kept.old) }
{
    let n = kept.regions.count;
    let shares = clashes::any_tables_share(region, &kept.regions);
    let from = kept.order.begin(region.gpa, &kept.regions);
    match kept.order.search(region, &kept.regions, from) {
        Some(at) if !shares => {
            kept.regions.push(region);
            kept.rows[n] = number;
            kept.order.insert(at, from, region.size, n);
            true
        }
        _ => false,
    }
}

// Keeps the region of a row that is in order, if it has one. False where the row is not known to be in order after those before it.
fn keep_row<const N: usize, const M: usize>(
    found: Option<Row>,
    number: u16,
    kept: &mut KeptRegions<N, M>,
) -> bool
    requires room { (kept.old.regions.count < N) × (kept.old.regions.count < 255) × (kept.old.regions.count + 1 < M) }
    requires ordered { Ordered kept.old.order.next kept.old.regions.gpa kept.old.regions.size kept.old.regions.count kept.old.order }
    ensures { MatchBool result (MatchOption found ⊥ (λ row. RowKept kept.old (region_in_row row) number kept.new)) (kept.new ≡ kept.old) }
{
    match found {
        Some(Row::Region(region)) => keep_region(region, number, kept),
        Some(Row::Policy) => true,
        None => false,
    }
}

// Goes past the initialization rows that are in order, and keeps their regions and no other: to the first row not accepted, or to the place behind the
// last initialization row.
pub fn accept<const N: usize, const M: usize>(
    s: &[u8],
    from: Cursor,
    end: usize,
    x64: bool,
    cca: u32,
    kept: &mut KeptRegions<N, M>,
) -> Cursor
    requires s_in_bounds { (bodies_at (head_of s.now) ≤ length s.now) × ReadTo s.now from × (from.row ≡ (head_of s.now).platforms) × (end ≡ (head_of s.now).platforms + (head_of s.now).initializations) }
    requires s_bound { ((head_of s.now).platforms ≤ platform_rows) × ((head_of s.now).initializations ≤ initialization_rows) × (x64 ≡ is_x64 (sheet_headers s.now).arch) × HoldsCca cca (sheet_headers s.now).platforms }
    requires room { ((head_of s.now).initializations ≤ N) × ((head_of s.now).initializations < M) }
    ensures { InitializationsAccepted s.now kept.new.regions kept.new.rows kept.new.order.next result }
{
    kept.regions.count = 0;
    kept.order = Order::new();
    let mut c = from;
    while c.row < end {
        let Some(row) = sheet_reader::row_from(s, c) else {
            break;
        };
        let b = sheet_reader::body_from(s, c, row);
        let found = initialization_row::row_of(row.kind, b, x64, cca);
        if !keep_row(found, (c.row + 1) as u16, kept) {
            break;
        }
        c = sheet_reader::after(c, row);
    }
    c
}
