// One initialization row by its kind and its body, whatever initialization rows stand before it: whether it is in order, and its region.
#![tactic(auto)]

ghost use Rattle.std.specs.Prelude.{◌≡◌, ⊤, true, false, not, ◌&&◌, eqb, MatchOption};
ghost use Rattle.rows.specs.Rows.{Rows};
ghost use Rattle.igvm_defs.specs.declared.Arch.{Arch};
ghost use Rattle.igvm_defs.specs.Refusals.{is_fault};
ghost use Rattle.igvm_defs.specs.Revision.{is_x64};
ghost use Rattle.addresses.specs.Addresses.{ends_beyond};
ghost use Rattle.platform_header.specs.declared.IgvmPlatformHeader.{IgvmPlatformHeader};
ghost use Rattle.rules.specs.Initializations.{validate_region, validate_table};
ghost use Rattle.platform_accept.specs.Accepted.{HoldsCca};
ghost use Rattle.initialization_row.specs.declared.Row.{Row};
ghost use Rattle.initialization_row.specs.declared.Row.TheVariants.{Policy};
ghost use Rattle.initialization_row.specs.Row.{InOrder};

use rules::Region;

// A row that is in order but for the rows before it: a policy, or a region of either kind.
#[derive(Clone, Copy)]
pub enum Row {
    Policy,
    Region(Region),
}

// Neither 27 nor 28.
fn has_room(r: Region) -> bool
    ensures { result ≡ (not (eqb r.size 0) && not (ends_beyond r.gpa r.size)) }
{
    (r.size != 0) & !addresses::ends_beyond(r.gpa, r.size)
}

// A CcaPolicy, where of every bit of `cca` the last platform is CCA.
fn policy_row(b: &[u8], x64: bool, cca: u32) -> bool
    ensures { (arch : Arch) (ps : Rows IgvmPlatformHeader) → x64 ≡ is_x64 arch → HoldsCca cca ps → result ≡ true → InOrder arch ps 17 b.now Policy }
{
    if b.len() != 22 {
        return false;
    }
    !masks::shares_u64(le::u64_at(b, 4), le::u64_at(b, 12))
        & !x64
        & masks::matches(le::u32_at(b, 0), cca)
}

// None of 17 to 20.
#[tactic(auto, unfolding(rules::specs::Initializations::validate_region, igvm_defs::specs::Refusals::is_fault))]
fn region_ok(alignment: u64, gpa: u64, size: u64, minimum: u64, maximum: u64) -> bool
    ensures { result ≡ not (is_fault (validate_region alignment gpa size minimum maximum)) }
{
    addresses::on_page(size)
        & addresses::on_page(alignment)
        & (alignment != 0)
        & addresses::is_multiple(gpa, alignment)
        & addresses::is_multiple(minimum, alignment)
        & addresses::is_multiple(maximum, alignment)
}

// A relocatable region.
fn region_row(b: &[u8]) -> Option<Row>
    ensures { (arch : Arch) (ps : Rows IgvmPlatformHeader) → MatchOption result ⊤ (λ row. InOrder arch ps 18 b.now row) }
{
    if b.len() != 48 {
        return None;
    }
    let region = Region {
        mask: le::u32_at(b, 0),
        gpa: le::u64_at(b, 12),
        size: le::u64_at(b, 20),
        vp_index: le::u16_at(b, 45),
        vtl: b[47],
        page_table: false,
    };
    let own = region_ok(
        le::u64_at(b, 4),
        region.gpa,
        region.size,
        le::u64_at(b, 28),
        le::u64_at(b, 36),
    );
    if (b[47] <= 2) & (b[44] <= 7) & own & has_room(region) {
        return Some(Row::Region(region));
    }
    None
}

// None of 21 to 23.
#[tactic(auto, unfolding(rules::specs::Initializations::validate_table, igvm_defs::specs::Refusals::is_fault))]
fn table_ok(gpa: u64, size: u64, used: u64) -> bool
    ensures { result ≡ not (is_fault (validate_table gpa size used)) }
{
    addresses::on_page(gpa) & addresses::on_page(size) & addresses::on_page(used) & !(size < used)
}

// A page table region.
fn table_row(b: &[u8]) -> Option<Row>
    ensures { (arch : Arch) (ps : Rows IgvmPlatformHeader) → MatchOption result ⊤ (λ row. InOrder arch ps 19 b.now row) }
{
    if b.len() != 31 {
        return None;
    }
    let region = Region {
        mask: le::u32_at(b, 0),
        gpa: le::u64_at(b, 4),
        size: le::u64_at(b, 12),
        vp_index: le::u16_at(b, 28),
        vtl: b[30],
        page_table: true,
    };
    let own = table_ok(region.gpa, region.size, le::u64_at(b, 20));
    if (b[30] <= 2) & own & has_room(region) {
        return Some(Row::Region(region));
    }
    None
}

// The row, where it is known to be in order whatever initialization rows stand before it. Put into its caller, of which there is one for few rows and one for many: so the
// row is handed over in registers.
#[inline(always)]
pub fn row_of(kind: u32, b: &[u8], x64: bool, cca: u32) -> Option<Row>
    ensures { (arch : Arch) (ps : Rows IgvmPlatformHeader) → x64 ≡ is_x64 arch → HoldsCca cca ps → MatchOption result ⊤ (λ row. InOrder arch ps kind b.now row) }
{
    match kind {
        16 if b.len() == 12 => Some(Row::Policy),
        17 if policy_row(b, x64, cca) => Some(Row::Policy),
        18 => region_row(b),
        19 => table_row(b),
        _ => None,
    }
}
