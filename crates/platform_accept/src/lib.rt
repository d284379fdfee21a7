// The platform rows of a sheet, from its bytes, as far as they are in order. A row that passes the tests here has no fault; one that does not pass is
// left to the passes over the headers, which name its fault or find none.
#![tactic(auto)]

ghost use Rattle.std.specs.Prelude.{◌≡◌, true, false, cond, ◌^◌, ◌≤◌, ◌<◌, length, eqb, MatchOption, ⊤};
ghost use Rattle.std.specs.Int.Bits.{bit_or};
ghost use Rattle.igvm_defs.specs.declared.Arch.{Arch};
ghost use Rattle.igvm_defs.specs.Refusals.{is_fault};
ghost use Rattle.igvm_defs.specs.Revision.{is_x64};
ghost use Rattle.sheet.specs.Head.{head_of, bodies_at};
ghost use Rattle.sheet.specs.Walk.{ReadTo};
ghost use Rattle.rules.specs.Platforms.{own_platform_fault};
ghost use Rattle.sheet_headers.specs.Headers.{sheet_headers};
ghost use Rattle.platform_accept.specs.Accepted.{InOrder, PlatformsAccepted};

use header::Header;
use igvm_defs::PlatformType;
use platform_header::IgvmPlatformHeader;
use sheet::Cursor;

// The first row that was not passed, and bits of which each is the mask of a platform before it, the last such one being CCA.
#[derive(Clone, Copy)]
pub struct PlatformsReached {
    pub at: Cursor,
    pub cca: u32,
}

// True only where the platform has no fault by itself: 8 to 13. The numbers are those of the table of platform types: version 1, boundary 0 for types 0
// and 1; types 0 to 5 stand with X64, 1 and 6 with AArch64.
fn is_in_order(h: IgvmPlatformHeader, x64: bool) -> bool
    ensures { (a : Arch) → x64 ≡ is_x64 a → result ≡ true → is_fault (own_platform_fault a h) ≡ false }
{
    let vtl = h.highest_vtl;
    let kind = h.platform_type;
    masks::is_one_bit(h.compatibility_mask)
        & ((vtl == 0) | (vtl == 2))
        & (kind <= 6)
        & (h.platform_version == 1)
        & ((1 < kind) | (h.shared_gpa_boundary == 0))
        & ((kind == PlatformType::VSM_ISOLATION) | (x64 == (kind != PlatformType::CCA)))
}

// The platform that a row's kind and body say, where it is known to have no fault by itself.
fn platform_of(kind: u32, b: &[u8], x64: bool) -> Option<IgvmPlatformHeader>
    ensures { (a : Arch) → x64 ≡ is_x64 a → MatchOption result ⊤ (λ h. InOrder a kind b.now h) }
{
    if (kind != 1) | (b.len() != 16) {
        return None;
    }
    let h = IgvmPlatformHeader::decode(kind, b);
    if is_in_order(h, x64) {
        return Some(h);
    }
    None
}

// The bit that stands for a type.
fn type_bit(kind: u8) -> u32
    requires { kind < 7 }
    ensures { result ≡ 2 ^ kind }
{
    1 << kind
}

// The bits after a platform of this mask and type.
fn cca_with(cca: u32, mask: u32, kind: u8) -> u32
    ensures { result ≡ cond (eqb kind 6) (bit_or cca mask) cca }
{
    if kind == PlatformType::CCA {
        return cca | mask;
    }
    cca
}

// Goes over the platform rows as long as each is sound by itself and its type is new. A platform of another type whose mask is a bit of CCA's is not
// passed, though it may be in order: `cca` would lose that bit.
pub fn accept(s: &[u8], from: Cursor, end: usize, x64: bool) -> PlatformsReached
    requires s_in_bounds { (bodies_at (head_of s.now) ≤ length s.now) × ReadTo s.now from × (from.row ≡ 0) × (end ≡ (head_of s.now).platforms) }
    requires x64_value { x64 ≡ is_x64 (sheet_headers s.now).arch }
    ensures { PlatformsAccepted s.now result.at result.cca }
{
    let mut c = from;
    let mut seen: u32 = 0;
    let mut cca: u32 = 0;
    while c.row < end {
        let Some(r) = sheet_reader::row_from(s, c) else {
            break;
        };
        let Some(h) = platform_of(r.kind, sheet_reader::body_from(s, c, r), x64) else {
            break;
        };
        let kind = h.platform_type;
        let mask = h.compatibility_mask;
        let bit = type_bit(kind);
        if masks::shares(seen, bit) | ((kind != PlatformType::CCA) & masks::shares(cca, mask)) {
            break;
        }
        seen |= bit;
        cca = cca_with(cca, mask, kind);
        c = sheet_reader::after(c, r);
    }
    PlatformsReached { at: c, cca }
}
