// A directive row's body by itself, for the kinds that have a test of their own: its length, its codes, and what the rules ask of the header alone.
#![tactic(auto)]

ghost use Rattle.std.specs.Prelude.{◌≡◌, true, ◌≤◌, length};
ghost use Rattle.igvm_defs.specs.declared.Arch.{Arch};
ghost use Rattle.directive_body.specs.Body.{BodyInOrder};

// 32: an address on a page, a type up to 3, at most 4,096 bytes of data.
pub fn page_data(b: &[u8]) -> bool
    ensures { (arch : Arch) → result ≡ true → BodyInOrder arch 32 b.now }
{
    let n = b.len();
    if n < 18 {
        return false;
    }
    if 4114 < n {
        return false;
    }
    le::u64_at(b, 0) % igvm_defs::PAGE_SIZE_4K + ((le::u16_at(b, 16) / 4) as u64) == 0
}

// 33: its bytes on a page, and no more initial data than that.
pub fn parameter_area(b: &[u8]) -> bool
    ensures { ((arch : Arch) → result ≡ true → BodyInOrder arch 33 b.now) × (result ≡ true → 12 ≤ length b.now) }
{
    let n = b.len();
    if n < 12 {
        return false;
    }
    let bytes = le::u64_at(b, 0);
    addresses::on_page(bytes) & ((n - 12) as u64 <= bytes)
}

// 44: protectable 0 or 1, address and bytes on a page.
pub fn required_memory(b: &[u8]) -> bool
    ensures { (arch : Arch) → result ≡ true → BodyInOrder arch 44 b.now }
{
    if b.len() != 17 {
        return false;
    }
    (b[16] <= 1)
        & addresses::on_page(le::u64_at(b, 0))
        & addresses::on_page(le::u32_at(b, 12) as u64)
}

// 45: an address on a page.
pub fn snp_vp_context(b: &[u8]) -> bool
    ensures { (arch : Arch) → result ≡ true → BodyInOrder arch 45 b.now }
{
    if b.len() < 14 {
        return false;
    }
    addresses::on_page(le::u64_at(b, 0))
}

// 51: an address on a page.
pub fn error_range(b: &[u8]) -> bool
    ensures { (arch : Arch) → result ≡ true → BodyInOrder arch 51 b.now }
{
    if b.len() != 16 {
        return false;
    }
    addresses::on_page(le::u64_at(b, 0))
}
