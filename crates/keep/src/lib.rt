// The regions of a readable sheet, each with its row, kept in a record that is lent.
#![tactic(auto)]

ghost use Rattle.std.specs.Prelude.{◌≡◌, ℕ, ◌+◌, ◌≤◌, ◌<◌};
ghost use Rattle.rows.specs.Rows.{Rows, before};
ghost use Rattle.initialization_header.specs.declared.IgvmInitializationHeader.{IgvmInitializationHeader};
ghost use Rattle.sheet.specs.Head.{head_of};
ghost use Rattle.sheet_headers.specs.Headers.{sheet_headers};
ghost use Rattle.by_start.specs.{ByStart.{ByStart}};
ghost use Rattle.initialization_check.specs.Record.{HoldsRegions, HoldsRows};
ghost use Rattle.keep.specs.Kept.{KeptOf};

use by_start::{KeptRegions, Order};
use initialization_header::IgvmInitializationHeader;
use sheet::ReadableSheet;

// A row's region, where it has one, comes behind the others, with the row's number in the sheet, from 1, and into its place in order of start.
fn keep_row<const N: usize, const M: usize>(
    h: IgvmInitializationHeader,
    number: u16,
    kept: &mut KeptRegions<N, M>,
)
    requires room { (kept.old.regions.count < N) × (kept.old.regions.count < 255) × (kept.old.regions.count + 1 < M) }
    requires by_start { ByStart kept.old.order.next kept.old.regions.gpa kept.old.regions.count }
    ensures { (first : ℕ) (xs : Rows IgvmInitializationHeader) (i : ℕ) → h ≡ xs.row i → number ≡ first + i + 1 → KeptOf first kept.old (before i xs) → KeptOf first kept.new (before (i + 1) xs) }
{
    if let Some(region) = initialization_check::region_of(h) {
        let n = kept.regions.count;
        let at = kept.order.place(region.gpa, &kept.regions);
        kept.regions.push(region);
        kept.rows[n] = number;
        kept.order.link(at, n);
    }
}

// The regions of the initialization rows, and no other.
pub fn keep_regions<const N: usize, const M: usize>(
    s: &ReadableSheet<'_>,
    kept: &mut KeptRegions<N, M>,
)
    requires { ((head_of s.now.bytes.now).initializations ≤ N) × ((head_of s.now.bytes.now).initializations < M) }
    ensures holds_regions { HoldsRegions kept.new.regions (sheet_headers s.now.bytes.now).initializations }
    ensures holds_rows { HoldsRows (head_of s.now.bytes.now).platforms kept.new.rows kept.new.regions (sheet_headers s.now.bytes.now).initializations }
    ensures by_start { ByStart kept.new.order.next kept.new.regions.gpa kept.new.regions.count }
{
    kept.regions.count = 0;
    kept.order = Order::new();
    let first = s.head.platforms as usize;
    let mut c = sheet_reader::cursor_at(s, first);
    for i in 0..s.head.initializations as usize {
        let row = sheet_headers::header_at::<IgvmInitializationHeader>(s.bytes, c);
        keep_row(row.header, (first + i + 1) as u16, kept);
        c = row.next;
    }
}
