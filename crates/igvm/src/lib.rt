// The calls of a host; crate igvm_c gives them C linkage. A call takes the sheet's bytes and returns number `which` of its answer, 0 where the answer has no such number; its
// sibling puts all numbers of the answer as words into lent bytes, where they have room, and returns number 0.
#![tactic(auto)]

ghost use Rattle.std.specs.Prelude.{◌≡◌, length};
ghost use Rattle.lent.specs.Lent.{numbers_put};
ghost use Rattle.sheet.specs.Head.{limits};
ghost use Rattle.answers.specs.Verdict.{verdict_refusal, verdict_of};
ghost use Rattle.answers.specs.Strict.{strict_verdict_of};
ghost use Rattle.answers.specs.Report.{report_of, report_after};
ghost use Rattle.answers.specs.Relocations.{relocations_of, words_after, base_check_of, contains_of};
ghost use Rattle.answers.specs.BaseRanges.{base_range_of};
ghost use Rattle.answers.specs.Owner.{region_owner_of, region_index_of, index_after, region_in};
ghost use Rattle.answers.specs.Region.{region_base_check_of, region_contains_of};
ghost use Rattle.answers.specs.Numbers.{number_of, verdict_numbers, report_numbers, relocation_numbers, answer_numbers, check_numbers};

use answers::Report;
use igvm_defs::Refusal;

// ---- the verdict: 0 number, 1 row, 2 detail, 3 platform rows, 4 initialization rows, 5 directive rows

// The whole slice is taken again: so both of its numbers are read at once, and are passed in registers.
fn verdict(sheet: &[u8], which: u32, lent: &mut [u8]) -> u64
    ensures value { result ≡ number_of which (verdict_numbers (verdict_of limits sheet.now)) }
    ensures lent_after { lent.new ≡ numbers_put (verdict_numbers (verdict_of limits sheet.now)) lent.old }
{
    numbers::tell_verdict(igvm_file::IgvmFile::new(&sheet[..]).verdict, which, lent)
}

pub fn igvm_verdict(sheet: &[u8], which: u32) -> u64
    ensures { result ≡ number_of which (verdict_numbers (verdict_of limits sheet.now)) }
{
    let mut none: [u8; 0] = [];
    verdict(sheet, which, &mut none)
}

pub fn igvm_verdict_numbers(sheet: &[u8], numbers: &mut [u8]) -> u64
    ensures value { result ≡ number_of 0 (verdict_numbers (verdict_of limits sheet.now)) }
    ensures numbers_after { numbers.new ≡ numbers_put (verdict_numbers (verdict_of limits sheet.now)) numbers.old }
{
    verdict(sheet, 0, numbers)
}

// ---- the strict verdict: its numbers are those of the verdict

fn strict_verdict(sheet: &[u8], which: u32, lent: &mut [u8]) -> u64
    ensures value { result ≡ number_of which (verdict_numbers (strict_verdict_of limits sheet.now)) }
    ensures lent_after { lent.new ≡ numbers_put (verdict_numbers (strict_verdict_of limits sheet.now)) lent.old }
{
    numbers::tell_verdict(strict::strict_verdict(&sheet[..]), which, lent)
}

pub fn igvm_strict_verdict(sheet: &[u8], which: u32) -> u64
    ensures { result ≡ number_of which (verdict_numbers (strict_verdict_of limits sheet.now)) }
{
    let mut none: [u8; 0] = [];
    strict_verdict(sheet, which, &mut none)
}

pub fn igvm_strict_verdict_numbers(sheet: &[u8], numbers: &mut [u8]) -> u64
    ensures value { result ≡ number_of 0 (verdict_numbers (strict_verdict_of limits sheet.now)) }
    ensures numbers_after { numbers.new ≡ numbers_put (verdict_numbers (strict_verdict_of limits sheet.now)) numbers.old }
{
    strict_verdict(sheet, 0, numbers)
}

// ---- the report: 0 number, 1 row, 2 detail, 3 15 applies (1 or 0), 4 34 applies (1 or 0), 5 rows, 6 faulty rows. `words` takes a word for each row

// The verdict's refusal, number by number.
fn refusal(sheet: &[u8]) -> Refusal
    ensures { result ≡ verdict_refusal limits sheet.now }
{
    let mut none: [u8; 0] = [];
    let number = verdict(sheet, 0, &mut none);
    let row = verdict(sheet, 1, &mut none);
    let detail = verdict(sheet, 2, &mut none);
    Refusal {
        number,
        row,
        detail,
    }
}

// The answer, where the verdict's number is this one.
fn reported(sheet: &[u8], number: u64, words: &mut [u8]) -> Report
    requires { number ≡ (verdict_refusal limits sheet.now).number }
    ensures value { result ≡ report_of limits sheet.now (length words.old) }
    ensures words_after { words.new ≡ report_after limits sheet.now words.old }
{
    if (0 < number) & (number < 8) {
        return report::refused(refusal(sheet));
    }
    report::report(sheet, number == 0, words)
}

fn report(sheet: &[u8], words: &mut [u8], which: u32, lent: &mut [u8]) -> u64
    ensures value { result ≡ number_of which (report_numbers (report_of limits sheet.now (length words.old))) }
    ensures words_after { words.new ≡ report_after limits sheet.now words.old }
    ensures lent_after { lent.new ≡ numbers_put (report_numbers (report_of limits sheet.now (length words.old))) lent.old }
{
    let mut none: [u8; 0] = [];
    let number = verdict(sheet, 0, &mut none);
    let found = numbers::report_numbers(reported(sheet, number, words));
    numbers::tell(&found, which, lent)
}

pub fn igvm_report(sheet: &[u8], words: &mut [u8], which: u32) -> u64
    ensures value { result ≡ number_of which (report_numbers (report_of limits sheet.now (length words.old))) }
    ensures words_after { words.new ≡ report_after limits sheet.now words.old }
{
    let mut none: [u8; 0] = [];
    report(sheet, words, which, &mut none)
}

pub fn igvm_report_numbers(sheet: &[u8], words: &mut [u8], numbers: &mut [u8]) -> u64
    ensures value { result ≡ number_of 0 (report_numbers (report_of limits sheet.now (length words.old))) }
    ensures words_after { words.new ≡ report_after limits sheet.now words.old }
    ensures numbers_after { numbers.new ≡ numbers_put (report_numbers (report_of limits sheet.now (length words.old))) numbers.old }
{
    report(sheet, words, 0, numbers)
}

// ---- the region list: 0 number, 1 row, 2 detail, 3 count, 4 page table (1 or 0), 5 gpa, 6 size, 7 used size, 8 VP index, 9 VTL. `words` takes the regions' words

fn region_list(sheet: &[u8], mask: u32, words: &mut [u8], which: u32, lent: &mut [u8]) -> u64
    ensures value { result ≡ number_of which (relocation_numbers (relocations_of limits sheet.now mask (length words.old))) }
    ensures words_after { words.new ≡ words_after limits sheet.now mask words.old }
    ensures lent_after { lent.new ≡ numbers_put (relocation_numbers (relocations_of limits sheet.now mask (length words.old))) lent.old }
{
    let found = numbers::relocation_numbers(relocations::relocations(sheet, mask, words));
    numbers::tell(&found, which, lent)
}

pub fn igvm_relocations(sheet: &[u8], mask: u32, words: &mut [u8], which: u32) -> u64
    ensures value { result ≡ number_of which (relocation_numbers (relocations_of limits sheet.now mask (length words.old))) }
    ensures words_after { words.new ≡ words_after limits sheet.now mask words.old }
{
    let mut none: [u8; 0] = [];
    region_list(sheet, mask, words, which, &mut none)
}

pub fn igvm_relocations_numbers(
    sheet: &[u8],
    mask: u32,
    words: &mut [u8],
    numbers: &mut [u8],
) -> u64
    ensures value { result ≡ number_of 0 (relocation_numbers (relocations_of limits sheet.now mask (length words.old))) }
    ensures words_after { words.new ≡ words_after limits sheet.now mask words.old }
    ensures numbers_after { numbers.new ≡ numbers_put (relocation_numbers (relocations_of limits sheet.now mask (length words.old))) numbers.old }
{
    region_list(sheet, mask, words, 0, numbers)
}

// ---- the base check: 0 number, 1 row, 2 detail, 3 the answer: 1 valid, 2 unaligned, 3 below the minimum, 4 above the maximum

fn base_check(sheet: &[u8], mask: u32, region: u64, base: u64, which: u32, lent: &mut [u8]) -> u64
    ensures value { result ≡ number_of which (answer_numbers (base_check_of limits sheet.now mask region base)) }
    ensures lent_after { lent.new ≡ numbers_put (answer_numbers (base_check_of limits sheet.now mask region base)) lent.old }
{
    let found = numbers::answer_numbers(relocations::relocation_base_valid(
        sheet, mask, region, base,
    ));
    numbers::tell(&found, which, lent)
}

pub fn igvm_relocation_base_valid(
    sheet: &[u8],
    mask: u32,
    region: u64,
    base: u64,
    which: u32,
) -> u64
    ensures { result ≡ number_of which (answer_numbers (base_check_of limits sheet.now mask region base)) }
{
    let mut none: [u8; 0] = [];
    base_check(sheet, mask, region, base, which, &mut none)
}

pub fn igvm_relocation_base_valid_numbers(
    sheet: &[u8],
    mask: u32,
    region: u64,
    base: u64,
    numbers: &mut [u8],
) -> u64
    ensures value { result ≡ number_of 0 (answer_numbers (base_check_of limits sheet.now mask region base)) }
    ensures numbers_after { numbers.new ≡ numbers_put (answer_numbers (base_check_of limits sheet.now mask region base)) numbers.old }
{
    base_check(sheet, mask, region, base, 0, numbers)
}

// ---- a base known only as a range: 0 number, 1 row, 2 detail, 3 the answer: 1 always, 2 never, 3 sometimes

fn base_range(
    sheet: &[u8],
    mask: u32,
    region: u64,
    lowest: u64,
    highest: u64,
    which: u32,
    lent: &mut [u8],
) -> u64
    ensures value { result ≡ number_of which (answer_numbers (base_range_of limits sheet.now mask region lowest highest)) }
    ensures lent_after { lent.new ≡ numbers_put (answer_numbers (base_range_of limits sheet.now mask region lowest highest)) lent.old }
{
    let found = numbers::answer_numbers(relocations::relocation_base_range(
        sheet, mask, region, lowest, highest,
    ));
    numbers::tell(&found, which, lent)
}

pub fn igvm_relocation_base_range(
    sheet: &[u8],
    mask: u32,
    region: u64,
    lowest: u64,
    highest: u64,
    which: u32,
) -> u64
    ensures { result ≡ number_of which (answer_numbers (base_range_of limits sheet.now mask region lowest highest)) }
{
    let mut none: [u8; 0] = [];
    base_range(sheet, mask, region, lowest, highest, which, &mut none)
}

pub fn igvm_relocation_base_range_numbers(
    sheet: &[u8],
    mask: u32,
    region: u64,
    lowest: u64,
    highest: u64,
    numbers: &mut [u8],
) -> u64
    ensures value { result ≡ number_of 0 (answer_numbers (base_range_of limits sheet.now mask region lowest highest)) }
    ensures numbers_after { numbers.new ≡ numbers_put (answer_numbers (base_range_of limits sheet.now mask region lowest highest)) numbers.old }
{
    base_range(sheet, mask, region, lowest, highest, 0, numbers)
}

// ---- the address check: 0 number, 1 row, 2 detail, 3 contained (1 or 0)

fn address_check(sheet: &[u8], mask: u32, region: u64, gpa: u64, which: u32, lent: &mut [u8]) -> u64
    ensures value { result ≡ number_of which (check_numbers (contains_of limits sheet.now mask region gpa)) }
    ensures lent_after { lent.new ≡ numbers_put (check_numbers (contains_of limits sheet.now mask region gpa)) lent.old }
{
    let found = numbers::check_numbers(relocations::contains(sheet, mask, region, gpa));
    numbers::tell(&found, which, lent)
}

pub fn igvm_contains(sheet: &[u8], mask: u32, region: u64, gpa: u64, which: u32) -> u64
    ensures { result ≡ number_of which (check_numbers (contains_of limits sheet.now mask region gpa)) }
{
    let mut none: [u8; 0] = [];
    address_check(sheet, mask, region, gpa, which, &mut none)
}

pub fn igvm_contains_numbers(
    sheet: &[u8],
    mask: u32,
    region: u64,
    gpa: u64,
    numbers: &mut [u8],
) -> u64
    ensures value { result ≡ number_of 0 (check_numbers (contains_of limits sheet.now mask region gpa)) }
    ensures numbers_after { numbers.new ≡ numbers_put (check_numbers (contains_of limits sheet.now mask region gpa)) numbers.old }
{
    address_check(sheet, mask, region, gpa, 0, numbers)
}

// ---- the same checks on a region's eight words, as the region list puts them, without the sheet: number 3 alone

pub fn igvm_region_base_valid(region: &[u8], base: u64) -> u64
    ensures { result ≡ region_base_check_of region.now base }
{
    region_check::base_valid(region, base)
}

pub fn igvm_region_contains(region: &[u8], gpa: u64) -> u64
    ensures { result ≡ region_contains_of region.now gpa }
{
    region_check::contains(region, gpa)
}

// ---- the owner of an address: 0 number, 1 row, 2 detail, 3 the row of the region that contains the address, or 0

fn region_owner(sheet: &[u8], mask: u32, gpa: u64, which: u32, lent: &mut [u8]) -> u64
    ensures value { result ≡ number_of which (answer_numbers (region_owner_of limits sheet.now mask gpa)) }
    ensures lent_after { lent.new ≡ numbers_put (answer_numbers (region_owner_of limits sheet.now mask gpa)) lent.old }
{
    let found = numbers::answer_numbers(owner::region_of(sheet, mask, gpa));
    numbers::tell(&found, which, lent)
}

pub fn igvm_region_of(sheet: &[u8], mask: u32, gpa: u64, which: u32) -> u64
    ensures { result ≡ number_of which (answer_numbers (region_owner_of limits sheet.now mask gpa)) }
{
    let mut none: [u8; 0] = [];
    region_owner(sheet, mask, gpa, which, &mut none)
}

pub fn igvm_region_of_numbers(sheet: &[u8], mask: u32, gpa: u64, numbers: &mut [u8]) -> u64
    ensures value { result ≡ number_of 0 (answer_numbers (region_owner_of limits sheet.now mask gpa)) }
    ensures numbers_after { numbers.new ≡ numbers_put (answer_numbers (region_owner_of limits sheet.now mask gpa)) numbers.old }
{
    region_owner(sheet, mask, gpa, 0, numbers)
}

// ---- the index of a mask's regions: 0 number, 1 row, 2 detail, 3 count. `words` takes start, size and row of each region, in order of start

fn region_index(sheet: &[u8], mask: u32, words: &mut [u8], which: u32, lent: &mut [u8]) -> u64
    ensures value { result ≡ number_of which (answer_numbers (region_index_of limits sheet.now mask (length words.old))) }
    ensures words_after { words.new ≡ index_after limits sheet.now mask words.old }
    ensures lent_after { lent.new ≡ numbers_put (answer_numbers (region_index_of limits sheet.now mask (length words.old))) lent.old }
{
    let found = numbers::answer_numbers(owner::region_index(sheet, mask, words));
    numbers::tell(&found, which, lent)
}

pub fn igvm_region_index(sheet: &[u8], mask: u32, words: &mut [u8], which: u32) -> u64
    ensures value { result ≡ number_of which (answer_numbers (region_index_of limits sheet.now mask (length words.old))) }
    ensures words_after { words.new ≡ index_after limits sheet.now mask words.old }
{
    let mut none: [u8; 0] = [];
    region_index(sheet, mask, words, which, &mut none)
}

pub fn igvm_region_index_numbers(
    sheet: &[u8],
    mask: u32,
    words: &mut [u8],
    numbers: &mut [u8],
) -> u64
    ensures value { result ≡ number_of 0 (answer_numbers (region_index_of limits sheet.now mask (length words.old))) }
    ensures words_after { words.new ≡ index_after limits sheet.now mask words.old }
    ensures numbers_after { numbers.new ≡ numbers_put (answer_numbers (region_index_of limits sheet.now mask (length words.old))) numbers.old }
{
    region_index(sheet, mask, words, 0, numbers)
}

// ---- the owner of an address by the words of an index, without the sheet: number 3 alone

pub fn igvm_region_in(words: &[u8], gpa: u64) -> u64
    ensures { result ≡ region_in words.now gpa }
{
    region_check::region_in(words, gpa)
}
