// The pass over the platform rows of a readable sheet: refusals 8 to 15, or the word of each row, and the record that the later pass needs.
#![tactic(auto)]

ghost use Rattle.std.specs.Prelude.{◌≡◌, ◌+◌, ◌*◌, ◌≤◌, length};
ghost use Rattle.igvm_defs.specs.Refusals.{first_fault, Passes};
ghost use Rattle.lent.specs.Lent.{words_put};
ghost use Rattle.sheet.specs.Head.{head_of};
ghost use Rattle.sheet_headers.specs.Headers.{sheet_headers};
ghost use Rattle.rules.specs.Verdict.{platform_faults, platforms_refusal};
ghost use Rattle.rules.specs.Report.{kept_platforms, faulty_platforms, report_word};
ghost use Rattle.platform_check.specs.Record.{HoldsPlatforms};

use igvm_defs::Refusal;
use platform_check::Platforms;
use platform_header::IgvmPlatformHeader;
use sheet::{Cursor, ReadableSheet};

// 8 to 14 of each platform row.
pub fn platform_rows(s: &ReadableSheet<'_>) -> Result<Platforms, Refusal>
    ensures { Passes result (first_fault 0 (head_of s.now.bytes.now).platforms (platform_faults (sheet_headers s.now.bytes.now))) (λ r. HoldsPlatforms r (sheet_headers s.now.bytes.now).platforms) }
{
    let arch = s.head.revision().arch();
    let n = s.head.platforms as usize;
    let mut platforms = Platforms::new();
    let mut c = Cursor::new(s.head.rows());
    for i in 0..n {
        let row = sheet_headers::header_at::<IgvmPlatformHeader>(s.bytes, c);
        let number = (i + 1) as u64;
        platforms
            .add(arch, row.header)
            .map_err(|fault| fault.in_row(number))?;
        c = row.next;
    }
    Ok(platforms)
}

// 8 to 14 of each platform row, then 15.
pub fn validate_platform_headers(s: &ReadableSheet<'_>) -> Result<Platforms, Refusal>
    ensures { Passes result (platforms_refusal (sheet_headers s.now.bytes.now)) (λ r. HoldsPlatforms r (sheet_headers s.now.bytes.now).platforms) }
{
    let platforms = platform_rows(s)?;
    let n = s.head.platforms;
    igvm_defs::refuse_if(n == 0, 15, 0).map_err(|fault| fault.in_row(0))?;
    Ok(platforms)
}

// The platforms that are kept, and how many rows are faulty.
#[derive(Clone, Copy)]
pub struct PlatformsReport {
    pub platforms: Platforms,
    pub faulty: usize,
}

// The word of each platform row, judged after the rows kept before it: 8 to 14.
pub fn report_platform_headers(s: &ReadableSheet<'_>, words: &mut [u8]) -> PlatformsReport
    requires { 8 * (head_of s.now.bytes.now).platforms ≤ length words.old }
    ensures holds_platforms { HoldsPlatforms result.platforms (kept_platforms (sheet_headers s.now.bytes.now)) × (result.faulty ≡ faulty_platforms (sheet_headers s.now.bytes.now)) }
    ensures words_after { words.new ≡ words_put 0 (head_of s.now.bytes.now).platforms (report_word (sheet_headers s.now.bytes.now)) words.old }
{
    let arch = s.head.revision().arch();
    let n = s.head.platforms as usize;
    let mut platforms = Platforms::new();
    let mut faulty = 0;
    let mut c = Cursor::new(s.head.rows());
    for i in 0..n {
        let row = sheet_headers::header_at::<IgvmPlatformHeader>(s.bytes, c);
        let number = match platforms.add(arch, row.header) {
            Ok(()) => 0,
            Err(fault) => fault.number,
        };
        lent::put_word(words, i, number);
        faulty += (number != 0) as usize;
        c = row.next;
    }
    PlatformsReport { platforms, faulty }
}
