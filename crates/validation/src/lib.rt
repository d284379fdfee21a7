// The verdict by the passes over the headers: what is wrong with a sheet, from the first row on that is not known to be in order, or what is kept of it.
#![tactic(auto)]

ghost use Rattle.std.specs.Prelude.{◌≡◌, ⊤, false, ◌-◌, ◌≤◌, ◌<◌};
ghost use Rattle.rows.specs.Below.{any_below};
ghost use Rattle.rows.specs.Rows.{before};
ghost use Rattle.igvm_defs.specs.Refusals.{no_refusal, is_fault, in_row, Passes};
ghost use Rattle.igvm_defs.specs.Revision.{is_x64};
ghost use Rattle.sheet.specs.Head.{limits, head_of, first_directive, row_count, start_fault, page_size_fault};
ghost use Rattle.sheet.specs.Walk.{cursor_at, ReadTo};
ghost use Rattle.sheet_headers.specs.Headers.{sheet_headers};
ghost use Rattle.rules.specs.Verdict.{directive_faults, headers_refusal};
ghost use Rattle.initialization_check.specs.Record.{HoldsRegions};
ghost use Rattle.directive_check.specs.Record.{HoldsContexts};
ghost use Rattle.directive_accept.specs.Accepted.{DirectivesAccepted};
ghost use Rattle.answers.specs.Verdict.{verdict_refusal};
ghost use Rattle.keep.specs.Kept.{Kept};

use answers::Verdict;
use by_start::KeptRegions;
use igvm_defs::Refusal;
use reloc_regions::RelocRegions;
use sheet::{Cursor, ReadableSheet, SheetHead};

// Where the pass over directive rows starts, and the masks of the contexts before it.
#[derive(Clone, Copy)]
struct Start {
    at: Cursor,
    contexts: [u32; 3],
}

// Behind the directive rows in order, from the first on, however many areas they name. A function of its own, so that its stack is taken only where it is called.
#[inline(never)]
fn past_in_order(
    s: &ReadableSheet<'_>,
    first: usize,
    end: usize,
    x64: bool,
    regions: &RelocRegions<{ SheetHead::INITIALIZATION_ROWS }>,
) -> Start
    requires first_row { (first ≡ first_directive s.now.bytes.now) × (end ≡ row_count (head_of s.now.bytes.now)) × (x64 ≡ is_x64 (sheet_headers s.now.bytes.now).arch) }
    requires holds_regions { HoldsRegions regions.now (sheet_headers s.now.bytes.now).initializations }
    ensures at_value { (result.at ≡ cursor_at s.now.bytes.now result.at.row) × (first_directive s.now.bytes.now ≤ result.at.row) × (result.at.row ≤ row_count (head_of s.now.bytes.now)) }
    ensures i_value { (any_below (result.at.row - first_directive s.now.bytes.now) (λ i. is_fault (directive_faults (sheet_headers s.now.bytes.now) i)) ≡ false) × HoldsContexts result.contexts (before (result.at.row - first_directive s.now.bytes.now) (sheet_headers s.now.bytes.now).directives) }
{
    let mut contexts: [u32; 3] = [0; 3];
    let from = sheet_reader::cursor_at(s, first);
    let at = directive_accept::accept_many(s.bytes, from, end, x64, regions, &mut contexts);
    Start { at, contexts }
}

// Up to so many directive rows, reading the rows before each again takes less time than a table of areas does.
const FEW_ROWS: u16 = 64;

// Whether the table of areas may have been too small for the directive rows before the cursor: it stands at an area, and there are more rows than nodes.
fn may_be_full(s: &ReadableSheet<'_>, from: Cursor) -> bool {
    if (s.head.directives as usize) < area_table::SMALL_NODES {
        return false;
    }
    from.row < s.head.rows() && sheet::kind_at(s.bytes, from.row) == 33
}

// At the cursor, with the masks, where it has reached the directive rows and the table of areas was large enough; else at the first of them, or behind
// those that are in order.
fn start_of(
    s: &ReadableSheet<'_>,
    regions: &RelocRegions<{ SheetHead::INITIALIZATION_ROWS }>,
    from: Cursor,
    contexts: [u32; 3],
) -> Start
    requires holds_regions { HoldsRegions regions.now (sheet_headers s.now.bytes.now).initializations }
    requires read_to { ReadTo s.now.bytes.now from × (first_directive s.now.bytes.now ≤ from.row → DirectivesAccepted s.now.bytes.now from contexts) }
    ensures at_value { (result.at ≡ cursor_at s.now.bytes.now result.at.row) × (first_directive s.now.bytes.now ≤ result.at.row) × (result.at.row ≤ row_count (head_of s.now.bytes.now)) }
    ensures i_value { (any_below (result.at.row - first_directive s.now.bytes.now) (λ i. is_fault (directive_faults (sheet_headers s.now.bytes.now) i)) ≡ false) × HoldsContexts result.contexts (before (result.at.row - first_directive s.now.bytes.now) (sheet_headers s.now.bytes.now).directives) }
{
    let first = (s.head.platforms as usize) + (s.head.initializations as usize);
    let x64 = s.head.revision().arch().is_x64();
    if first <= from.row {
        if may_be_full(s, from) {
            return past_in_order(s, first, s.head.rows(), x64, regions);
        }
        return Start { at: from, contexts };
    }
    if FEW_ROWS < s.head.directives {
        return past_in_order(s, first, s.head.rows(), x64, regions);
    }
    Start {
        at: sheet_reader::cursor_at(s, first),
        contexts: [0; 3],
    }
}

// 8 to 34 of a readable sheet, or the contexts' masks. No directive row before the cursor has a fault, and the masks hold their contexts.
#[tactic(auto, using(crate::proofs::VerdictLaws::headers))]
fn validate_headers(
    s: &ReadableSheet<'_>,
    from: Cursor,
    contexts: [u32; 3],
) -> Result<[u32; 3], Refusal>
    requires { ReadTo s.now.bytes.now from × (first_directive s.now.bytes.now ≤ from.row → DirectivesAccepted s.now.bytes.now from contexts) }
    ensures { Passes result (headers_refusal (sheet_headers s.now.bytes.now)) (λ found. HoldsContexts found (sheet_headers s.now.bytes.now).directives) }
{
    let platforms = platform_pass::validate_platform_headers(s)?;
    let regions = initialization_pass::validate_initialization_headers(s, &platforms)?;
    let start = start_of(s, &regions, from, contexts);
    let masks = start.contexts;
    directive_pass::validate_directive_headers(s, &regions, start.at, masks)
}

// 7.
#[tactic(auto, using(crate::proofs::VerdictLaws::rows))]
pub fn check_page_size(head: SheetHead) -> Result<(), Refusal>
    ensures { Passes result (in_row 0 (page_size_fault head)) (λ _. ⊤) }
{
    head.page_size_fault().map_err(|f| f.in_row(0))
}

// 4 to 34, or the contexts' masks, where no row before the cursor has a fault of reading, and no directive row before it any.
#[tactic(auto, using(crate::proofs::VerdictLaws::verdicts, crate::proofs::VerdictLaws::sheet_reads))]
fn validate_from(
    s: &[u8],
    head: SheetHead,
    from: Cursor,
    contexts: [u32; 3],
) -> Result<[u32; 3], Refusal>
    requires { (is_fault (start_fault limits s.now) ≡ false) × (head ≡ head_of s.now) × ReadTo s.now from × (first_directive s.now ≤ from.row → DirectivesAccepted s.now from contexts) }
    ensures { Passes result (verdict_refusal limits s.now) (λ found. HoldsContexts found (sheet_headers s.now).directives) }
{
    sheet_rows::read_from(s, head, from)?;
    check_page_size(head)?;
    validate_headers(&ReadableSheet { bytes: s, head }, from, contexts)
}

// ---- the verdict

// The answer to a file that is refused.
pub fn refused(refusal: Refusal) -> Verdict
    ensures { result ≡ record { refusal = refusal; platforms = 0; initializations = 0; directives = 0 } }
{
    Verdict {
        refusal,
        platforms: 0,
        initializations: 0,
        directives: 0,
    }
}

// The answer to a file that is accepted.
pub fn accepted(head: SheetHead) -> Verdict
    ensures { result ≡ record { refusal = no_refusal; platforms = head.platforms; initializations = head.initializations; directives = head.directives } }
{
    Verdict {
        refusal: Refusal::NONE,
        platforms: head.platforms as u64,
        initializations: head.initializations as u64,
        directives: head.directives as u64,
    }
}

// The verdict by the passes over the headers, with what was found of an accepted file kept where it is lent: the regions in `kept`, and
// the contexts in the masks. The rows before the cursor were read, and the directive rows among them are in order, with the contexts that the masks have.
#[tactic(auto, using(crate::proofs::VerdictLaws::accepted))]
pub fn judge_from<const N: usize, const M: usize>(
    s: &[u8],
    head: SheetHead,
    from: Cursor,
    kept: &mut KeptRegions<N, M>,
    contexts: &mut [u32; 3],
) -> Result<(), Refusal>
    requires s_value { (is_fault (start_fault limits s.now) ≡ false) × (head ≡ head_of s.now) × ReadTo s.now from × (first_directive s.now ≤ from.row → DirectivesAccepted s.now from contexts.old) }
    requires room { ((head_of s.now).initializations ≤ N) × ((head_of s.now).initializations < M) }
    ensures { Passes result (verdict_refusal limits s.now) (λ _. Kept s.now kept.new.regions kept.new.rows kept.new.order.next contexts.new) }
{
    *contexts = validate_from(s, head, from, *contexts)?;
    keep::keep_regions(&ReadableSheet { bytes: s, head }, kept);
    Ok(())
}
