// Platform headers: refusals 8 to 14, header by header and as a pass over the platform rows.
#![tactic(auto)]

ghost use Rattle.std.specs.Prelude.{◌≡◌, ◌<◌, ◌≤◌, ℕ, eqb, get_or, MatchResult};
ghost use Rattle.rows.specs.Below.{any_below};
ghost use Rattle.rows.specs.Rows.{Rows, before, more};
ghost use Rattle.igvm_defs.specs.Refusals.{Told};
ghost use Rattle.sheet.specs.Head.{platform_rows};
ghost use Rattle.platform_header.specs.declared.IgvmPlatformHeader.{IgvmPlatformHeader};
ghost use Rattle.rules.specs.Platforms.{validate_platform, platform_fault, stands_with};
ghost use Rattle.platform_check.specs.Record.{HoldsPlatforms, last_type_is_cca, PlatformStepped};

use igvm_defs::{Arch, Fault, PlatformType};
use platform_header::IgvmPlatformHeader;
use sheet::SheetHead;

// 8, 9, 12, 10 and 11: the header alone.
#[tactic(auto, unfolding(rules::specs::Platforms::validate_platform, igvm_defs::specs::Refusals::is_fault))]
pub fn validate(h: IgvmPlatformHeader) -> Result<(), Fault>
    ensures { Told result (validate_platform h) }
{
    let vtl = h.highest_vtl;
    let t = igvm_defs::platform_type_of(h.platform_type);
    igvm_defs::refuse_if(!masks::is_one_bit(h.compatibility_mask), 8, 0)?;
    igvm_defs::refuse_if(!((vtl == 0) | (vtl == 2)), 9, 0)?;
    igvm_defs::refuse_if(!igvm_defs::is_platform_type(h.platform_type), 12, 0)?;
    igvm_defs::refuse_if(h.platform_version != t.version, 10, 0)?;
    igvm_defs::refuse_if(t.unshared & (h.shared_gpa_boundary != 0), 11, 0)
}

fn stands_with(arch: Arch, t: PlatformType) -> bool
    ensures { result ≡ stands_with arch t }
{
    match arch {
        Arch::X64 => t.x64,
        Arch::AArch64 => t.aarch64,
    }
}

// The masks and the types of the platform rows read so far.
#[derive(Clone, Copy)]
pub struct Platforms {
    pub mask: [u32; SheetHead::PLATFORM_ROWS],
    pub types: [u8; SheetHead::PLATFORM_ROWS],
    pub count: usize,
}

// What is wrong with a row, and the record with the row.
#[derive(Clone, Copy)]
pub struct PlatformStep {
    pub platforms: Platforms,
    pub told: Result<(), Fault>,
}

impl Platforms {
    pub fn new() -> Platforms
        ensures { (xs : Rows IgvmPlatformHeader) → HoldsPlatforms result (before 0 xs) }
    {
        Platforms {
            mask: [0; SheetHead::PLATFORM_ROWS],
            types: [0; SheetHead::PLATFORM_ROWS],
            count: 0,
        }
    }

    // Some row has this type.
    #[tactic(auto, unfolding(rows::specs::Below::any_below), using(rows::proofs::BelowLaws::any_more))]
    fn has_type(&self, kind: u8) -> bool
        requires { self.now.count ≤ platform_rows }
        ensures { result ≡ any_below self.now.count (λ i. eqb kind (get_or self.now.types i 0)) }
    {
        for i in 0..self.count {
            if kind == self.types[i] {
                return true;
            }
        }
        false
    }

    // The last row with this mask is CCA.
    #[tactic(auto, unfolding(crate::specs::Record::last_type_is_cca, rows::specs::Below::last_below))]
    pub fn last_is_cca(&self, mask: u32) -> bool
        requires { self.now.count ≤ platform_rows }
        ensures { result ≡ last_type_is_cca self.now mask }
    {
        for i in (0..self.count).rev() {
            if self.mask[i] == mask {
                return self.types[i] == PlatformType::CCA;
            }
        }
        false
    }

    // 8 to 14: a row behind those that the record holds.
    #[tactic(auto, unfolding(rules::specs::Platforms::platform_fault, rules::specs::Platforms::own_platform_fault, igvm_defs::specs::Refusals::is_fault))]
    pub fn check(&self, arch: Arch, h: IgvmPlatformHeader) -> Result<(), Fault>
        requires { self.now.count ≤ platform_rows }
        ensures { (xs : Rows IgvmPlatformHeader) → HoldsPlatforms self.now xs → Told result (platform_fault arch xs h) }
    {
        let kind = h.platform_type;
        let t = igvm_defs::platform_type_of(kind);
        validate(h)?;
        igvm_defs::refuse_if(!stands_with(arch, t), 13, kind as u64)?;
        igvm_defs::refuse_if(self.has_type(kind), 14, 0)
    }

    // One row more, behind those that the record holds, whatever its fault.
    pub fn push(&mut self, h: IgvmPlatformHeader)
        requires { self.old.count < platform_rows }
        ensures { (xs : Rows IgvmPlatformHeader) → HoldsPlatforms self.old xs → HoldsPlatforms self.new (more xs h) }
    {
        let n = self.count;
        self.mask[n] = h.compatibility_mask;
        self.types[n] = h.platform_type;
        self.count = n + 1;
    }

    // One row more: what is wrong with it, and the record with it, whatever its fault.
    pub fn step(self, arch: Arch, h: IgvmPlatformHeader) -> PlatformStep
        requires { self.count < platform_rows }
        ensures { (xs : Rows IgvmPlatformHeader) (i : ℕ) → h ≡ xs.row i → HoldsPlatforms self (before i xs) → PlatformStepped arch xs i result.told result.platforms }
    {
        let told = self.check(arch, h);
        let mut platforms = self;
        platforms.push(h);
        PlatformStep { platforms, told }
    }

    // One row more, behind those that the record holds. Where it has no fault the record holds it too; else its fault is the answer, and the record is as it was.
    pub fn add(&mut self, arch: Arch, h: IgvmPlatformHeader) -> Result<(), Fault>
        requires { self.old.count < platform_rows }
        ensures told { (xs : Rows IgvmPlatformHeader) → HoldsPlatforms self.old xs → Told result (platform_fault arch xs h) }
        ensures held { (xs : Rows IgvmPlatformHeader) → HoldsPlatforms self.old xs → MatchResult result (λ _. HoldsPlatforms self.new (more xs h)) (λ _. self.new ≡ self.old) }
    {
        self.check(arch, h)?;
        self.push(h);
        Ok(())
    }
}
