// The report: all faulty rows of a sheet in one call. A word for each row goes into lent bytes, and 15 and 34 are told beside it.
#![tactic(auto)]

ghost use Rattle.std.specs.Prelude.{◌≡◌, true, false, ◌*◌, ◌≤◌, length};
ghost use Rattle.igvm_defs.specs.Refusals.{is_refusal};
ghost use Rattle.sheet.specs.Head.{limits, head_of, row_count};
ghost use Rattle.sheet.specs.Read.{sheet_refusal};
ghost use Rattle.answers.specs.Verdict.{verdict_refusal};
ghost use Rattle.answers.specs.Report.{report_refusal, report_of, report_after};

use answers::Report;
use igvm_defs::Refusal;
use sheet::{ReadableSheet, SheetHead};

// The answer to a call that is refused.
pub fn refused(refusal: Refusal) -> Report
    ensures { result ≡ record { refusal = refusal; no_platform = false; no_context = false; rows = 0; faulty = 0 } }
{
    Report {
        refusal,
        no_platform: false,
        no_context: false,
        rows: 0,
        faulty: 0,
    }
}

// 37: fewer words lent than rows.
const WORDS: Refusal = Refusal {
    number: 37,
    row: 0,
    detail: 0,
};

// The rows' words, list after list. Nothing of what refuses the call applies.
fn report_rows(s: &ReadableSheet<'_>, words: &mut [u8]) -> Report
    requires { (8 * row_count (head_of s.now.bytes.now) ≤ length words.old) × (is_refusal (report_refusal limits s.now.bytes.now (length words.old)) ≡ false) }
    ensures value { result ≡ report_of limits s.now.bytes.now (length words.old) }
    ensures words_after { words.new ≡ report_after limits s.now.bytes.now words.old }
{
    let platforms = platform_pass::report_platform_headers(s, words);
    let kept = &platforms.platforms;
    let initializations = initialization_pass::report_initialization_headers(s, kept, words);
    let regions = &initializations.regions;
    let directives = directive_report::report_directive_headers(s, regions, words);
    Report {
        refusal: Refusal::NONE,
        no_platform: kept.count == 0,
        no_context: directives.no_context,
        rows: s.head.rows() as u64,
        faulty: (platforms.faulty + initializations.faulty + directives.faulty) as u64,
    }
}

// A sheet that can be read, whatever the rules say of its rows.
fn report_each(s: &[u8], words: &mut [u8]) -> Report
    requires { is_refusal (sheet_refusal limits s.now) ≡ false }
    ensures value { result ≡ report_of limits s.now (length words.old) }
    ensures words_after { words.new ≡ report_after limits s.now words.old }
{
    let head = SheetHead::new(s);
    if words.len() / 8 < head.rows() {
        return refused(WORDS);
    }
    report_rows(&ReadableSheet { bytes: s, head }, words)
}

// An accepted sheet of n rows: no row is faulty. Where too few words are lent, `report_each` says so: a function that is called from two places keeps its
// stack to itself.
fn report_accepted(s: &[u8], n: usize, words: &mut [u8]) -> Report
    requires { (is_refusal (sheet_refusal limits s.now) ≡ false) × (is_refusal (verdict_refusal limits s.now) ≡ false) × (n ≡ row_count (head_of s.now)) }
    ensures value { result ≡ report_of limits s.now (length words.old) }
    ensures words_after { words.new ≡ report_after limits s.now words.old }
{
    if words.len() / 8 < n {
        return report_each(s, words);
    }
    lent::clear_words(words, n);
    Report {
        refusal: Refusal::NONE,
        no_platform: false,
        no_context: false,
        rows: n as u64,
        faulty: 0,
    }
}

// Each row's word: the refusal that it meets when every earlier faulty row is skipped, else 0. None of 1 to 7 applies. Who has the verdict says whether it
// accepts: it does so in far less time than faults are named in.
pub fn report(s: &[u8], accepted: bool, words: &mut [u8]) -> Report
    requires { (is_refusal (sheet_refusal limits s.now) ≡ false) × (accepted ≡ true → is_refusal (verdict_refusal limits s.now) ≡ false) }
    ensures value { result ≡ report_of limits s.now (length words.old) }
    ensures words_after { words.new ≡ report_after limits s.now words.old }
{
    if !accepted {
        return report_each(s, words);
    }
    report_accepted(s, SheetHead::new(s).rows(), words)
}
