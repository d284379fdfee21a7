// The pass over the initialization rows of a readable sheet: refusals 16 to 29, or the word of each row, and the record that the later pass needs.
#![tactic(auto)]

ghost use Rattle.std.specs.Prelude.{◌≡◌, ◌+◌, ◌*◌, ◌≤◌, ◌<◌, length, MatchResult};
ghost use Rattle.rows.specs.Rows.{Rows, more};
ghost use Rattle.igvm_defs.specs.Refusals.{Told, Passes};
ghost use Rattle.lent.specs.Lent.{words_put};
ghost use Rattle.sheet.specs.Head.{platform_rows, head_of};
ghost use Rattle.sheet_headers.specs.Headers.{sheet_headers};
ghost use Rattle.platform_header.specs.declared.IgvmPlatformHeader.{IgvmPlatformHeader};
ghost use Rattle.initialization_header.specs.declared.IgvmInitializationHeader.{IgvmInitializationHeader};
ghost use Rattle.rules.specs.Initializations.{initialization_fault};
ghost use Rattle.rules.specs.Verdict.{initializations_refusal};
ghost use Rattle.rules.specs.Report.{kept_platforms, kept_initializations, faulty_initializations, report_word};
ghost use Rattle.platform_check.specs.Record.{HoldsPlatforms};
ghost use Rattle.by_start.specs.ByStart.{Ordered};
ghost use Rattle.initialization_check.specs.Record.{HoldsRegions};

use by_start::Order;
use igvm_defs::{Arch, Fault, Refusal};
use initialization_header::IgvmInitializationHeader;
use platform_check::Platforms;
use reloc_regions::RelocRegions;
use sheet::{ReadableSheet, SheetHead};

// A row more, judged after those whose regions the record has: 16 to 29. Where it has no fault its region, if it has one, comes behind theirs, and into its place in
// order of start; else the record is as it was.
fn add_row<const N: usize, const M: usize>(
    arch: Arch,
    platforms: &Platforms,
    h: IgvmInitializationHeader,
    regions: &mut RelocRegions<N>,
    order: &mut Order<M>,
) -> Result<(), Fault>
    requires room { (regions.old.count < N) × (regions.old.count < 255) × (N < M) × (platforms.now.count ≤ platform_rows) }
    requires ordered { Ordered order.old.next regions.old.gpa regions.old.size regions.old.count order.old }
    ensures told { (ps : Rows IgvmPlatformHeader) (earlier : Rows IgvmInitializationHeader) → HoldsPlatforms platforms.now ps → HoldsRegions regions.old earlier → Told result (initialization_fault arch ps earlier h) }
    ensures held { (ps : Rows IgvmPlatformHeader) (earlier : Rows IgvmInitializationHeader) → HoldsPlatforms platforms.now ps → HoldsRegions regions.old earlier → MatchResult result (λ _. HoldsRegions regions.new (more earlier h)) (λ _. regions.new ≡ regions.old) }
    ensures ordered { Ordered order.new.next regions.new.gpa regions.new.size regions.new.count order.new }
{
    let step = initialization_check::check(arch, platforms, h, regions, order);
    step.told?;
    if let Some(new) = step.new {
        let n = regions.count;
        regions.push(new.region);
        order.insert(new.at, new.from, new.region.size, n);
    }
    Ok(())
}

// 16 to 29 of each initialization row.
pub fn validate_initialization_headers(
    s: &ReadableSheet<'_>,
    platforms: &Platforms,
) -> Result<RelocRegions<{ SheetHead::INITIALIZATION_ROWS }>, Refusal>
    requires { HoldsPlatforms platforms.now (sheet_headers s.now.bytes.now).platforms }
    ensures { Passes result (initializations_refusal (sheet_headers s.now.bytes.now)) (λ r. HoldsRegions r (sheet_headers s.now.bytes.now).initializations) }
{
    let arch = s.head.revision().arch();
    let first = s.head.platforms as usize;
    let n = s.head.initializations as usize;
    let mut regions = RelocRegions::<{ SheetHead::INITIALIZATION_ROWS }>::new();
    let mut order = Order::<{ SheetHead::INITIALIZATION_PLACES }>::new();
    let mut c = sheet_reader::cursor_at(s, first);
    for i in 0..n {
        let row = sheet_headers::header_at::<IgvmInitializationHeader>(s.bytes, c);
        let number = (first + i + 1) as u64;
        add_row(arch, platforms, row.header, &mut regions, &mut order).map_err(|fault| fault.in_row(
            number,
        ))?;
        c = row.next;
    }
    Ok(regions)
}

// The regions of the rows that are kept, and how many rows are faulty.
#[derive(Clone, Copy)]
pub struct InitializationsReport {
    pub regions: RelocRegions<{ SheetHead::INITIALIZATION_ROWS }>,
    pub faulty: usize,
}

// The word of each initialization row, judged after the rows kept before it: 16 to 29.
pub fn report_initialization_headers(
    s: &ReadableSheet<'_>,
    platforms: &Platforms,
    words: &mut [u8],
) -> InitializationsReport
    requires { HoldsPlatforms platforms.now (kept_platforms (sheet_headers s.now.bytes.now)) × (8 * ((head_of s.now.bytes.now).platforms + (head_of s.now.bytes.now).initializations) ≤ length words.old) }
    ensures holds_regions { HoldsRegions result.regions (kept_initializations (sheet_headers s.now.bytes.now)) × (result.faulty ≡ faulty_initializations (sheet_headers s.now.bytes.now)) }
    ensures words_after { words.new ≡ words_put (head_of s.now.bytes.now).platforms (head_of s.now.bytes.now).initializations (report_word (sheet_headers s.now.bytes.now)) words.old }
{
    let arch = s.head.revision().arch();
    let first = s.head.platforms as usize;
    let n = s.head.initializations as usize;
    let mut regions = RelocRegions::<{ SheetHead::INITIALIZATION_ROWS }>::new();
    let mut order = Order::<{ SheetHead::INITIALIZATION_PLACES }>::new();
    let mut faulty = 0;
    let mut c = sheet_reader::cursor_at(s, first);
    for i in 0..n {
        let row = sheet_headers::header_at::<IgvmInitializationHeader>(s.bytes, c);
        let number = match add_row(arch, platforms, row.header, &mut regions, &mut order) {
            Ok(()) => 0,
            Err(fault) => fault.number,
        };
        lent::put_word(words, first + i, number);
        faulty += (number != 0) as usize;
        c = row.next;
    }
    InitializationsReport { regions, faulty }
}
