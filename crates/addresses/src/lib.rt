// Alignments and ranges of guest physical addresses. No test overflows.
#![tactic(auto)]

ghost use Rattle.std.specs.Prelude.{◌≡◌, cond, ◌+◌, leb, ltb};
ghost use Rattle.addresses.specs.Addresses.{is_multiple, on_page, contains, meets, ends_beyond};
ghost use Rattle.addresses.specs.BaseChecks.{base_check, check_number};
ghost use Rattle.addresses.specs.Powers.{is_power_of_two};

// a is a power of two: the number below it has none of its bits. 0 is none.
pub fn is_power_of_two(a: u64) -> bool
    ensures { result ≡ is_power_of_two a }
{
    if a == 0 {
        return false;
    }
    a & (a - 1) == 0
}

// x is a multiple of a; of 0 only 0 is. Of a power of two the low bits tell, with no division.
pub fn is_multiple(x: u64, a: u64) -> bool
    ensures { result ≡ is_multiple x a }
{
    if a == 0 {
        return x == 0;
    }
    if is_power_of_two(a) {
        return x & (a - 1) == 0;
    }
    x % a == 0
}

// On a page boundary. The remainder by this constant is compiled to a test of its low bits.
#[tactic(auto, unfolding(crate::specs::Addresses::is_multiple))]
pub fn on_page(x: u64) -> bool
    ensures { result ≡ on_page x }
{
    x % igvm_defs::PAGE_SIZE_4K == 0
}

// a < b + n, with no sum that could wrap.
fn before_end(a: u64, b: u64, n: u64) -> bool
    ensures { result ≡ ltb a (b + n) }
{
    if a < b {
        return true;
    }
    a - b < n
}

// b + n <= m, with no sum that could wrap.
pub fn ends_by(b: u64, n: u64, m: u64) -> bool
    ensures { result ≡ leb (b + n) m }
{
    if m < b {
        return false;
    }
    n <= m - b
}

#[tactic(auto, unfolding(crate::specs::Addresses::contains))]
pub fn contains(base: u64, size: u64, gpa: u64) -> bool
    ensures { result ≡ contains base size gpa }
{
    (base <= gpa) & before_end(gpa, base, size)
}

#[tactic(auto, unfolding(crate::specs::Addresses::meets))]
pub fn meets(base: u64, size: u64, base2: u64, size2: u64) -> bool
    ensures { result ≡ meets base size base2 size2 }
{
    if base2 < base {
        return base - base2 < size2;
    }
    before_end(base, base2, size2) & (base2 - base < size)
}

#[tactic(auto, unfolding(crate::specs::Addresses::ends_beyond))]
pub fn ends_beyond(base: u64, size: u64) -> bool
    ensures { result ≡ ends_beyond base size }
{
    18446744073709551615 - base < size
}

// ---- the check of a proposed base

#[derive(Clone, Copy)]
pub enum BaseCheck {
    Valid,
    Unaligned,
    BelowMinimum,
    AboveMaximum,
}

impl BaseCheck {
    pub fn number(self) -> u64
        ensures { result ≡ check_number self }
    {
        match self {
            BaseCheck::Valid => 1,
            BaseCheck::Unaligned => 2,
            BaseCheck::BelowMinimum => 3,
            BaseCheck::AboveMaximum => 4,
        }
    }
}

// The answer where the test holds, else the other.
fn answer_if(test: bool, answer: BaseCheck, other: BaseCheck) -> BaseCheck
    ensures { result ≡ cond test answer other }
{
    if test {
        return answer;
    }
    other
}

// The first that applies. All three tests are made: so bases of all sorts take the same time, with no branch to guess. The size comes before the base in the sum:
// so nothing is subtracted that waits for the base.
pub fn base_check(alignment: u64, size: u64, minimum: u64, maximum: u64, base: u64) -> BaseCheck
    ensures { result ≡ base_check alignment size minimum maximum base }
{
    let above = before_end(maximum, size, base);
    answer_if(
        !is_multiple(base, alignment),
        BaseCheck::Unaligned,
        answer_if(
            base < minimum,
            BaseCheck::BelowMinimum,
            answer_if(above, BaseCheck::AboveMaximum, BaseCheck::Valid),
        ),
    )
}
