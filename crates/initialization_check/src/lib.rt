// Initialization headers: refusals 16 to 29, header by header, and the region that a header adds to those before it.
#![tactic(auto)]

ghost use Rattle.std.specs.Prelude.{◌≡◌, ⊤, true, false, not, ◌≤◌, ◌<◌, MatchResult, MatchOption};
ghost use Rattle.sheet.specs.Head.{platform_rows};
ghost use Rattle.rows.specs.Rows.{Rows};
ghost use Rattle.rows.specs.Answered.{option_of};
ghost use Rattle.platform_header.specs.declared.IgvmPlatformHeader.{IgvmPlatformHeader};
ghost use Rattle.initialization_header.specs.declared.IgvmInitializationHeader.{IgvmInitializationHeader};
ghost use Rattle.igvm_defs.specs.Refusals.{no_fault, Told};
ghost use Rattle.igvm_defs.specs.Vtls.{vtl_number};
ghost use Rattle.masks.specs.Masks.{individual_masks, first_mask};
ghost use Rattle.platform_check.specs.Record.{HoldsPlatforms, last_type_is_cca};
ghost use Rattle.rules.specs.Regions.{region_of};
ghost use Rattle.rules.specs.Initializations.{validate_region, validate_table, validate_initialization, initialization_fault, refuse_bit};
ghost use Rattle.by_start.specs.ByStart.{Ordered, Searched};
ghost use Rattle.initialization_check.specs.Record.{policy_fault, clash_fault, Clashes, HoldsClashes, AllSearched, InitializationStepped, AllPlaced};

use by_start::Order;
use igvm_defs::{Arch, Fault, Vtl};
use initialization_header::IgvmInitializationHeader;
use platform_check::Platforms;
use reloc_regions::RelocRegions;
use rules::Region;

// 17, 18, 19 and 20 (gpa, minimum, maximum): a relocatable region alone. A function of its own in the compiled code too, so that an alignment stays in a register from its
// test to the divisions behind it, and `tools/divisions.py` can tell.
#[inline(never)]
#[tactic(auto, unfolding(rules::specs::Initializations::validate_region, igvm_defs::specs::Refusals::is_fault))]
fn validate_region(
    alignment: u64,
    gpa: u64,
    size: u64,
    minimum: u64,
    maximum: u64,
) -> Result<(), Fault>
    ensures { Told result (validate_region alignment gpa size minimum maximum) }
{
    igvm_defs::refuse_if(!addresses::on_page(size), 17, 0)?;
    igvm_defs::refuse_if(!addresses::on_page(alignment), 18, 0)?;
    igvm_defs::refuse_if(alignment == 0, 19, 0)?;
    igvm_defs::refuse_if(!addresses::is_multiple(gpa, alignment), 20, gpa)?;
    igvm_defs::refuse_if(!addresses::is_multiple(minimum, alignment), 20, minimum)?;
    igvm_defs::refuse_if(!addresses::is_multiple(maximum, alignment), 20, maximum)
}

// 21, 22 (size, used size) and 23: a page table region alone.
#[tactic(auto, unfolding(rules::specs::Initializations::validate_table, igvm_defs::specs::Refusals::is_fault))]
fn validate_table(gpa: u64, size: u64, used: u64) -> Result<(), Fault>
    ensures { Told result (validate_table gpa size used) }
{
    igvm_defs::refuse_if(!addresses::on_page(gpa), 21, gpa)?;
    igvm_defs::refuse_if(!addresses::on_page(size), 22, size)?;
    igvm_defs::refuse_if(!addresses::on_page(used), 22, used)?;
    igvm_defs::refuse_if(size < used, 23, 0)
}

// The header alone.
#[tactic(auto, unfolding(igvm_defs::specs::Refusals::is_fault))]
pub fn validate(h: IgvmInitializationHeader) -> Result<(), Fault>
    ensures { Told result (validate_initialization h) }
{
    match h {
        IgvmInitializationHeader::GuestPolicy { .. } => Ok(()),
        IgvmInitializationHeader::CcaPolicy {
            compatibility_mask: _,
            attributes_required_zeroes,
            attributes_required_ones,
        } => igvm_defs::refuse_if(
            masks::shares_u64(attributes_required_zeroes, attributes_required_ones),
            16,
            0,
        ),
        IgvmInitializationHeader::RelocatableRegion {
            relocation_alignment,
            relocation_region_gpa,
            relocation_region_size,
            minimum_relocation_gpa,
            maximum_relocation_gpa,
            ..
        } => validate_region(
            relocation_alignment,
            relocation_region_gpa,
            relocation_region_size,
            minimum_relocation_gpa,
            maximum_relocation_gpa,
        ),
        IgvmInitializationHeader::PageTableRelocationRegion {
            gpa,
            size,
            used_size,
            ..
        } => validate_table(gpa, size, used_size),
    }
}

// ---- regions

// The region of these numbers, and of this level's code.
fn header_region(
    mask: u32,
    gpa: u64,
    size: u64,
    vp_index: u16,
    vtl: Vtl,
    page_table: bool,
) -> Region
    ensures { result ≡ record { mask = mask; gpa = gpa; size = size; vp_index = vp_index; vtl = vtl_number vtl; page_table = page_table } }
{
    Region {
        mask,
        gpa,
        size,
        vp_index,
        vtl: vtl.code(),
        page_table,
    }
}

// The region of a header of either kind, where it has one.
pub fn region_of(h: IgvmInitializationHeader) -> Option<Region>
    ensures { option_of result ≡ region_of h }
{
    match h {
        IgvmInitializationHeader::RelocatableRegion {
            compatibility_mask,
            relocation_region_gpa,
            relocation_region_size,
            vp_index,
            vtl,
            ..
        } => Some(header_region(
            compatibility_mask,
            relocation_region_gpa,
            relocation_region_size,
            vp_index,
            vtl,
            false,
        )),
        IgvmInitializationHeader::PageTableRelocationRegion {
            compatibility_mask,
            gpa,
            size,
            vp_index,
            vtl,
            ..
        } => Some(header_region(compatibility_mask, gpa, size, vp_index, vtl, true)),
        _ => None,
    }
}

// ---- a row after those before it

// 26 to 29, where it is known whether a page table before the region shares a bit with it, and whether a region before it overlaps it.
#[tactic(auto, unfolding(crate::specs::Record::clash_fault, igvm_defs::specs::Refusals::is_fault))]
fn clash_fault(region: Region, shares: bool, overlaps: bool) -> Result<(), Fault>
    ensures told { Told result (clash_fault region shares overlaps) }
    ensures apart { MatchResult result (λ _. overlaps ≡ false) (λ _. ⊤) }
{
    igvm_defs::refuse_if(shares, 26, 0)?;
    igvm_defs::refuse_if(region.size == 0, 27, 0)?;
    igvm_defs::refuse_if(addresses::ends_beyond(region.gpa, region.size), 28, 0)?;
    igvm_defs::refuse_if(overlaps, 29, 0)
}

// The fault of a row whose region, if it has one, is `new`, where it is known whether a page table before it shares a bit with that, and whether a region before it
// overlaps it. Put into its callers: so the header is not copied.
#[inline(always)]
pub fn row_fault(
    arch: Arch,
    platforms: &Platforms,
    h: IgvmInitializationHeader,
    new: Option<Region>,
    shares: bool,
    overlaps: bool,
) -> Result<(), Fault>
    requires { platforms.now.count ≤ platform_rows }
    ensures told { (ps : Rows IgvmPlatformHeader) (earlier : Rows IgvmInitializationHeader) → HoldsPlatforms platforms.now ps → region_of h ≡ option_of new → Clashes (option_of new) shares overlaps earlier → Told result (initialization_fault arch ps earlier h) }
    ensures apart { MatchResult result (λ _. MatchOption new ⊤ (λ _. overlaps ≡ false)) (λ _. ⊤) }
{
    validate(h)?;
    policy_fault(arch, platforms, h)?;
    match new {
        Some(region) => clash_fault(region, shares, overlaps),
        None => Ok(()),
    }
}

// A region, where the search for its place in order of start began, and the region behind which it comes: one more than there are where it overlaps any of them.
#[derive(Clone, Copy)]
pub struct NewRegion {
    pub region: Region,
    pub from: usize,
    pub at: usize,
}

// The place of a region in order of start among those before it.
fn search<const N: usize, const M: usize>(
    region: Region,
    regions: &RelocRegions<N>,
    order: &Order<M>,
) -> NewRegion
    requires { (regions.now.count ≤ N) × (regions.now.count < M) × Ordered order.now.next regions.now.gpa regions.now.size regions.now.count order.now }
    ensures { (result.region ≡ region) × Searched region regions.now.mask regions.now.gpa regions.now.size order.now.next regions.now.count result.at × (result.from ≤ regions.now.count) }
{
    let from = order.begin(region.gpa, regions);
    let at = match order.search(region, regions, from) {
        Some(at) => at,
        None => regions.count + 1,
    };
    NewRegion { region, from, at }
}

// What is wrong with a row, and its region where it has one, with its place in order of start among the regions before it, whatever its fault.
#[derive(Clone, Copy)]
pub struct InitializationStep {
    pub told: Result<(), Fault>,
    pub new: Option<NewRegion>,
}

// A row after those whose regions the record has: who keeps them stores the region in place.
pub fn check<const N: usize, const M: usize>(
    arch: Arch,
    platforms: &Platforms,
    h: IgvmInitializationHeader,
    regions: &RelocRegions<N>,
    order: &Order<M>,
) -> InitializationStep
    requires { (regions.now.count ≤ N) × (regions.now.count < M) × (platforms.now.count ≤ platform_rows) × Ordered order.now.next regions.now.gpa regions.now.size regions.now.count order.now }
    ensures stepped { (ps : Rows IgvmPlatformHeader) (earlier : Rows IgvmInitializationHeader) → HoldsPlatforms platforms.now ps → HoldsClashes regions.now earlier → InitializationStepped arch ps earlier h result.told result.new }
    ensures searched { AllSearched order.now regions.now result.new }
    ensures placed { MatchResult result.told (λ _. AllPlaced order.now regions.now result.new) (λ _. ⊤) }
{
    match region_of(h) {
        Some(region) => {
            let new = search(region, regions, order);
            let shares = clashes::any_tables_share(region, regions);
            let overlaps = regions.count < new.at;
            let told = row_fault(arch, platforms, h, Some(region), shares, overlaps);
            InitializationStep {
                told,
                new: Some(new),
            }
        }
        None => InitializationStep {
            told: row_fault(arch, platforms, h, None, false, false),
            new: None,
        },
    }
}

// 25, with the lowest bit of the mask whose last platform is not CCA.
fn without_cca(platforms: &Platforms, mask: u32) -> Result<(), Fault>
    requires { platforms.now.count ≤ platform_rows }
    ensures { Told result (refuse_bit (first_mask (λ bit. not (last_type_is_cca platforms.now bit)) (individual_masks mask)) no_fault) }
{
    let bits = masks::extract_individual_masks(mask);
    for i in 0..bits.count {
        let bit = bits.masks[i];
        if !platforms.last_is_cca(bit) {
            return Err(Fault {
                number: 25,
                detail: bit as u64,
            });
        }
    }
    Ok(())
}

// 24 and 25: a CcaPolicy by the architecture and the platforms.
fn policy_fault(arch: Arch, platforms: &Platforms, h: IgvmInitializationHeader) -> Result<(), Fault>
    requires { platforms.now.count ≤ platform_rows }
    ensures { (ps : Rows IgvmPlatformHeader) → HoldsPlatforms platforms.now ps → Told result (policy_fault arch ps h) }
{
    match h {
        IgvmInitializationHeader::CcaPolicy {
            compatibility_mask,
            ..
        } => {
            igvm_defs::refuse_if(!arch.is_aarch64(), 24, 17)?;
            without_cca(platforms, compatibility_mask)
        }
        _ => Ok(()),
    }
}
