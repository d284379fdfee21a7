// The calls of a host, by their C names: each is the call of that name in crate igvm, and promises what that promises.
#![tactic(auto)]

ghost use Rattle.std.specs.Prelude.{◌≡◌, length};
ghost use Rattle.lent.specs.Lent.{numbers_put};
ghost use Rattle.sheet.specs.Head.{limits};
ghost use Rattle.answers.specs.Verdict.{verdict_refusal, verdict_of};
ghost use Rattle.answers.specs.Strict.{strict_verdict_of};
ghost use Rattle.answers.specs.Report.{report_of, report_after};
ghost use Rattle.answers.specs.Relocations.{relocations_of, words_after, base_check_of, contains_of};
ghost use Rattle.answers.specs.BaseRanges.{base_range_of};
ghost use Rattle.answers.specs.Owner.{region_owner_of, region_index_of, index_after, region_in};
ghost use Rattle.answers.specs.Region.{region_base_check_of, region_contains_of};
ghost use Rattle.answers.specs.Numbers.{number_of, verdict_numbers, report_numbers, relocation_numbers, answer_numbers, check_numbers};

#[unsafe(no_mangle)]
pub extern "C" fn igvm_verdict(sheet: &[u8], which: u32) -> u64
    ensures { result ≡ number_of which (verdict_numbers (verdict_of limits sheet.now)) }
{
    igvm::igvm_verdict(sheet, which)
}

#[unsafe(no_mangle)]
pub extern "C" fn igvm_verdict_numbers(sheet: &[u8], numbers: &mut [u8]) -> u64
    ensures value { result ≡ number_of 0 (verdict_numbers (verdict_of limits sheet.now)) }
    ensures numbers_after { numbers.new ≡ numbers_put (verdict_numbers (verdict_of limits sheet.now)) numbers.old }
{
    igvm::igvm_verdict_numbers(sheet, numbers)
}

#[unsafe(no_mangle)]
pub extern "C" fn igvm_strict_verdict(sheet: &[u8], which: u32) -> u64
    ensures { result ≡ number_of which (verdict_numbers (strict_verdict_of limits sheet.now)) }
{
    igvm::igvm_strict_verdict(sheet, which)
}

#[unsafe(no_mangle)]
pub extern "C" fn igvm_strict_verdict_numbers(sheet: &[u8], numbers: &mut [u8]) -> u64
    ensures value { result ≡ number_of 0 (verdict_numbers (strict_verdict_of limits sheet.now)) }
    ensures numbers_after { numbers.new ≡ numbers_put (verdict_numbers (strict_verdict_of limits sheet.now)) numbers.old }
{
    igvm::igvm_strict_verdict_numbers(sheet, numbers)
}

#[unsafe(no_mangle)]
pub extern "C" fn igvm_report(sheet: &[u8], words: &mut [u8], which: u32) -> u64
    ensures value { result ≡ number_of which (report_numbers (report_of limits sheet.now (length words.old))) }
    ensures words_after { words.new ≡ report_after limits sheet.now words.old }
{
    igvm::igvm_report(sheet, words, which)
}

#[unsafe(no_mangle)]
pub extern "C" fn igvm_report_numbers(sheet: &[u8], words: &mut [u8], numbers: &mut [u8]) -> u64
    ensures value { result ≡ number_of 0 (report_numbers (report_of limits sheet.now (length words.old))) }
    ensures words_after { words.new ≡ report_after limits sheet.now words.old }
    ensures numbers_after { numbers.new ≡ numbers_put (report_numbers (report_of limits sheet.now (length words.old))) numbers.old }
{
    igvm::igvm_report_numbers(sheet, words, numbers)
}

#[unsafe(no_mangle)]
pub extern "C" fn igvm_relocations(sheet: &[u8], mask: u32, words: &mut [u8], which: u32) -> u64
    ensures value { result ≡ number_of which (relocation_numbers (relocations_of limits sheet.now mask (length words.old))) }
    ensures words_after { words.new ≡ words_after limits sheet.now mask words.old }
{
    igvm::igvm_relocations(sheet, mask, words, which)
}

#[unsafe(no_mangle)]
pub extern "C" fn igvm_relocations_numbers(
    sheet: &[u8],
    mask: u32,
    words: &mut [u8],
    numbers: &mut [u8],
) -> u64
    ensures value { result ≡ number_of 0 (relocation_numbers (relocations_of limits sheet.now mask (length words.old))) }
    ensures words_after { words.new ≡ words_after limits sheet.now mask words.old }
    ensures numbers_after { numbers.new ≡ numbers_put (relocation_numbers (relocations_of limits sheet.now mask (length words.old))) numbers.old }
{
    igvm::igvm_relocations_numbers(sheet, mask, words, numbers)
}

#[unsafe(no_mangle)]
pub extern "C" fn igvm_relocation_base_valid(
    sheet: &[u8],
    mask: u32,
    region: u64,
    base: u64,
    which: u32,
) -> u64
    ensures { result ≡ number_of which (answer_numbers (base_check_of limits sheet.now mask region base)) }
{
    igvm::igvm_relocation_base_valid(sheet, mask, region, base, which)
}

#[unsafe(no_mangle)]
pub extern "C" fn igvm_relocation_base_valid_numbers(
    sheet: &[u8],
    mask: u32,
    region: u64,
    base: u64,
    numbers: &mut [u8],
) -> u64
    ensures value { result ≡ number_of 0 (answer_numbers (base_check_of limits sheet.now mask region base)) }
    ensures numbers_after { numbers.new ≡ numbers_put (answer_numbers (base_check_of limits sheet.now mask region base)) numbers.old }
{
    igvm::igvm_relocation_base_valid_numbers(sheet, mask, region, base, numbers)
}

#[unsafe(no_mangle)]
pub extern "C" fn igvm_relocation_base_range(
    sheet: &[u8],
    mask: u32,
    region: u64,
    lowest: u64,
    highest: u64,
    which: u32,
) -> u64
    ensures { result ≡ number_of which (answer_numbers (base_range_of limits sheet.now mask region lowest highest)) }
{
    igvm::igvm_relocation_base_range(sheet, mask, region, lowest, highest, which)
}

#[unsafe(no_mangle)]
pub extern "C" fn igvm_relocation_base_range_numbers(
    sheet: &[u8],
    mask: u32,
    region: u64,
    lowest: u64,
    highest: u64,
    numbers: &mut [u8],
) -> u64
    ensures value { result ≡ number_of 0 (answer_numbers (base_range_of limits sheet.now mask region lowest highest)) }
    ensures numbers_after { numbers.new ≡ numbers_put (answer_numbers (base_range_of limits sheet.now mask region lowest highest)) numbers.old }
{
    igvm::igvm_relocation_base_range_numbers(sheet, mask, region, lowest, highest, numbers)
}

#[unsafe(no_mangle)]
pub extern "C" fn igvm_contains(sheet: &[u8], mask: u32, region: u64, gpa: u64, which: u32) -> u64
    ensures { result ≡ number_of which (check_numbers (contains_of limits sheet.now mask region gpa)) }
{
    igvm::igvm_contains(sheet, mask, region, gpa, which)
}

#[unsafe(no_mangle)]
pub extern "C" fn igvm_contains_numbers(
    sheet: &[u8],
    mask: u32,
    region: u64,
    gpa: u64,
    numbers: &mut [u8],
) -> u64
    ensures value { result ≡ number_of 0 (check_numbers (contains_of limits sheet.now mask region gpa)) }
    ensures numbers_after { numbers.new ≡ numbers_put (check_numbers (contains_of limits sheet.now mask region gpa)) numbers.old }
{
    igvm::igvm_contains_numbers(sheet, mask, region, gpa, numbers)
}

#[unsafe(no_mangle)]
pub extern "C" fn igvm_region_base_valid(region: &[u8], base: u64) -> u64
    ensures { result ≡ region_base_check_of region.now base }
{
    igvm::igvm_region_base_valid(region, base)
}

#[unsafe(no_mangle)]
pub extern "C" fn igvm_region_contains(region: &[u8], gpa: u64) -> u64
    ensures { result ≡ region_contains_of region.now gpa }
{
    igvm::igvm_region_contains(region, gpa)
}

#[unsafe(no_mangle)]
pub extern "C" fn igvm_region_of(sheet: &[u8], mask: u32, gpa: u64, which: u32) -> u64
    ensures { result ≡ number_of which (answer_numbers (region_owner_of limits sheet.now mask gpa)) }
{
    igvm::igvm_region_of(sheet, mask, gpa, which)
}

#[unsafe(no_mangle)]
pub extern "C" fn igvm_region_of_numbers(
    sheet: &[u8],
    mask: u32,
    gpa: u64,
    numbers: &mut [u8],
) -> u64
    ensures value { result ≡ number_of 0 (answer_numbers (region_owner_of limits sheet.now mask gpa)) }
    ensures numbers_after { numbers.new ≡ numbers_put (answer_numbers (region_owner_of limits sheet.now mask gpa)) numbers.old }
{
    igvm::igvm_region_of_numbers(sheet, mask, gpa, numbers)
}

#[unsafe(no_mangle)]
pub extern "C" fn igvm_region_index(sheet: &[u8], mask: u32, words: &mut [u8], which: u32) -> u64
    ensures value { result ≡ number_of which (answer_numbers (region_index_of limits sheet.now mask (length words.old))) }
    ensures words_after { words.new ≡ index_after limits sheet.now mask words.old }
{
    igvm::igvm_region_index(sheet, mask, words, which)
}

#[unsafe(no_mangle)]
pub extern "C" fn igvm_region_index_numbers(
    sheet: &[u8],
    mask: u32,
    words: &mut [u8],
    numbers: &mut [u8],
) -> u64
    ensures value { result ≡ number_of 0 (answer_numbers (region_index_of limits sheet.now mask (length words.old))) }
    ensures words_after { words.new ≡ index_after limits sheet.now mask words.old }
    ensures numbers_after { numbers.new ≡ numbers_put (answer_numbers (region_index_of limits sheet.now mask (length words.old))) numbers.old }
{
    igvm::igvm_region_index_numbers(sheet, mask, words, numbers)
}

#[unsafe(no_mangle)]
pub extern "C" fn igvm_region_in(words: &[u8], gpa: u64) -> u64
    ensures { result ≡ region_in words.now gpa }
{
    igvm::igvm_region_in(words, gpa)
}
