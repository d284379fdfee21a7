// A base that is known only as a range: whether the multiples of the alignment in it are valid always, never or sometimes. No sum wraps, and nothing is rounded up.
#![tactic(auto)]

ghost use Rattle.std.specs.Prelude.{◌≡◌, ltb};
ghost use Rattle.addresses.specs.BaseChecks.{base_check, is_valid};
ghost use Rattle.base_ranges.specs.BaseRanges.{any_multiple, has_multiple, base_range, range_number};
ghost use Rattle.base_ranges.specs.Nearest.{multiple_to};

#[derive(Clone, Copy)]
pub enum BaseRange {
    Always,
    Never,
    Sometimes,
}

impl BaseRange {
    pub fn number(self) -> u64
        ensures { result ≡ range_number self }
    {
        match self {
            BaseRange::Always => 1,
            BaseRange::Never => 2,
            BaseRange::Sometimes => 3,
        }
    }
}

// The highest multiple of a at or below x; of 0 it is 0. Of a power of two the low bits tell, with no division.
fn multiple_to(x: u64, a: u64) -> u64
    ensures { result ≡ multiple_to x a }
{
    if a == 0 {
        return 0;
    }
    if addresses::is_power_of_two(a) {
        return x - (x & (a - 1));
    }
    x - x % a
}

// There is a multiple of the alignment from one address to another, ends included.
fn has_multiple(alignment: u64, lowest: u64, highest: u64) -> bool
    ensures { result ≡ has_multiple alignment lowest highest }
{
    lowest <= multiple_to(highest, alignment)
}

// One is below the minimum.
fn any_below(alignment: u64, minimum: u64, lowest: u64, highest: u64) -> bool
    ensures { result ≡ any_multiple alignment lowest highest (λ base. ltb base minimum) }
{
    if lowest < minimum {
        return has_multiple(alignment, lowest, highest.min(minimum - 1));
    }
    false
}

// One is valid: neither below the minimum nor with an end above the maximum.
fn any_valid(
    alignment: u64,
    size: u64,
    minimum: u64,
    maximum: u64,
    lowest: u64,
    highest: u64,
) -> bool
    ensures { result ≡ any_multiple alignment lowest highest (λ base. is_valid (base_check alignment size minimum maximum base)) }
{
    if maximum < size {
        return false;
    }
    has_multiple(alignment, lowest.max(minimum), highest.min(maximum - size))
}

// Where there is no multiple, the last at or below the highest base is below the lowest. All are valid where none is below the minimum and the last ends by the maximum.
pub fn base_range(
    alignment: u64,
    size: u64,
    minimum: u64,
    maximum: u64,
    lowest: u64,
    highest: u64,
) -> BaseRange
    ensures { result ≡ base_range alignment size minimum maximum lowest highest }
{
    let last = multiple_to(highest, alignment);
    if last < lowest {
        return BaseRange::Never;
    }
    if !any_below(alignment, minimum, lowest, highest) & addresses::ends_by(last, size, maximum) {
        return BaseRange::Always;
    }
    if any_valid(alignment, size, minimum, maximum, lowest, highest) {
        return BaseRange::Sometimes;
    }
    BaseRange::Never
}
