// The numbers of an answer, in the order in which a call across the C linkage names them.
#![tactic(auto)]

ghost use Rattle.std.specs.Prelude.{◌≡◌, cond};
ghost use Rattle.lent.specs.Lent.{numbers_put};
ghost use Rattle.answers.specs.Numbers.{number_of, verdict_numbers, report_numbers, relocation_numbers, answer_numbers, check_numbers};

use answers::{Answered, Checked, Relocations, Report, Verdict};

// Number `which`; 0 where there is no such number.
fn number_of(numbers: &[u64], which: u32) -> u64
    ensures { result ≡ number_of which numbers.now }
{
    match numbers.get(which as usize) {
        Some(number) => *number,
        None => 0,
    }
}

// Number `which`; and all of them as words in front of the lent bytes, where they have room.
pub fn tell(numbers: &[u64], which: u32, lent: &mut [u8]) -> u64
    ensures value { result ≡ number_of which numbers.now }
    ensures lent_after { lent.new ≡ numbers_put numbers.now lent.old }
{
    lent::put_numbers(lent, numbers);
    number_of(numbers, which)
}

fn number_if(test: bool) -> u64
    ensures { result ≡ cond test 1 0 }
{
    if test {
        return 1;
    }
    0
}

// By a `match`: an array would be filled and then read, where no number is put.
fn verdict_number(v: Verdict, which: u32) -> u64
    ensures { result ≡ number_of which (verdict_numbers v) }
{
    let refusal = v.refusal;
    match which {
        0 => refusal.number,
        1 => refusal.row,
        2 => refusal.detail,
        3 => v.platforms,
        4 => v.initializations,
        5 => v.directives,
        _ => 0,
    }
}

fn verdict_numbers(v: Verdict) -> [u64; 6]
    ensures { result ≡ verdict_numbers v }
{
    let refusal = v.refusal;
    [
        refusal.number,
        refusal.row,
        refusal.detail,
        v.platforms,
        v.initializations,
        v.directives,
    ]
}

// `tell` of a verdict's numbers.
pub fn tell_verdict(v: Verdict, which: u32, lent: &mut [u8]) -> u64
    ensures value { result ≡ number_of which (verdict_numbers v) }
    ensures lent_after { lent.new ≡ numbers_put (verdict_numbers v) lent.old }
{
    let numbers = verdict_numbers(v);
    lent::put_numbers(lent, &numbers);
    verdict_number(v, which)
}

pub fn report_numbers(a: Report) -> [u64; 7]
    ensures { result ≡ report_numbers a }
{
    let refusal = a.refusal;
    [
        refusal.number,
        refusal.row,
        refusal.detail,
        number_if(a.no_platform),
        number_if(a.no_context),
        a.rows,
        a.faulty,
    ]
}

pub fn relocation_numbers(a: Relocations) -> [u64; 10]
    ensures { result ≡ relocation_numbers a }
{
    let refusal = a.refusal;
    let t = a.page_table;
    [
        refusal.number,
        refusal.row,
        refusal.detail,
        a.count,
        number_if(a.has_page_table),
        t.gpa,
        t.size,
        t.used_size,
        t.vp_index,
        t.vtl,
    ]
}

pub fn answer_numbers(a: Answered) -> [u64; 4]
    ensures { result ≡ answer_numbers a }
{
    let refusal = a.refusal;
    [refusal.number, refusal.row, refusal.detail, a.answer]
}

pub fn check_numbers(a: Checked) -> [u64; 4]
    ensures { result ≡ check_numbers a }
{
    let refusal = a.refusal;
    [
        refusal.number,
        refusal.row,
        refusal.detail,
        number_if(a.holds),
    ]
}
