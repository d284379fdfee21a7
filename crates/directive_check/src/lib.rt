// Directive headers: refusals 21, 22, 24 and 30 to 33 header by header, and the contexts' masks.
#![tactic(auto)]

ghost use Rattle.std.specs.Prelude.{◌≡◌, ◌&&◌, ◌||◌, eqb, get_or, length, ℕ, ◌+◌, ◌≤◌};
ghost use Rattle.rows.specs.Rows.{Rows, before};
ghost use Rattle.initialization_header.specs.declared.IgvmInitializationHeader.{IgvmInitializationHeader};
ghost use Rattle.directive_header.specs.declared.IgvmDirectiveHeader.{IgvmDirectiveHeader};
ghost use Rattle.igvm_defs.specs.Refusals.{fault, no_fault, refuse, Told};
ghost use Rattle.igvm_defs.specs.Vtls.{vtl_number};
ghost use Rattle.igvm_defs.specs.Kinds.{kind_of};
ghost use Rattle.masks.specs.Masks.{shares};
ghost use Rattle.directive_header.specs.Fields.{kind_number, is_parameter, area_named};
ghost use Rattle.rules.specs.Directives.{validate_directive, wrong_context_arch, bad_area, inside_table, directive_fault};
ghost use Rattle.directive_check.specs.Record.{HoldsContexts, lacks_context, how_named, how, area_in, area_number, DirectiveStepped};

use directive_header::IgvmDirectiveHeader;
use igvm_defs::{Arch, Fault, Vtl};
use rules::Region;

// The header alone: 21, 30, 22, 31.
#[tactic(auto, using(igvm_defs::proofs::AnswerLaws::told_if), unfolding(igvm_defs::specs::Refusals::is_fault))]
pub fn validate(h: IgvmDirectiveHeader) -> Result<(), Fault>
    ensures { Told result (validate_directive h) }
{
    match h {
        IgvmDirectiveHeader::PageData {
            gpa,
            data_type,
            data,
            ..
        } => {
            igvm_defs::refuse_if(!addresses::on_page(gpa), 21, gpa)?;
            igvm_defs::refuse_if(3 < data_type, 30, 0)?;
            igvm_defs::refuse_if((igvm_defs::PAGE_SIZE_4K as usize) < data, 31, 0)
        }
        IgvmDirectiveHeader::ParameterArea {
            number_of_bytes,
            initial_data,
            ..
        } => {
            igvm_defs::refuse_if(!addresses::on_page(number_of_bytes), 22, number_of_bytes)?;
            igvm_defs::refuse_if(number_of_bytes < initial_data as u64, 31, 0)
        }
        IgvmDirectiveHeader::RequiredMemory {
            gpa,
            number_of_bytes,
            ..
        } => {
            let bytes = number_of_bytes as u64;
            igvm_defs::refuse_if(!addresses::on_page(gpa), 21, gpa)?;
            igvm_defs::refuse_if(!addresses::on_page(bytes), 22, bytes)
        }
        IgvmDirectiveHeader::SnpVpContext { gpa, .. }
        | IgvmDirectiveHeader::ErrorRange { gpa, .. } => {
            igvm_defs::refuse_if(!addresses::on_page(gpa), 21, gpa)
        }
        IgvmDirectiveHeader::ParameterInsert(p) => {
            igvm_defs::refuse_if(!addresses::on_page(p.gpa), 21, p.gpa)
        }
        _ => Ok(()),
    }
}

// 24: a VP context against the architecture, with its kind.
#[tactic(auto, using(crate::proofs::DirectiveRecordLaws::right_arch), unfolding(rules::specs::Directives::wrong_context_arch, igvm_defs::specs::Refusals::is_fault))]
fn arch_check(arch: Arch, h: IgvmDirectiveHeader) -> Result<(), Fault>
    ensures { Told result (refuse (wrong_context_arch arch (kind_number h)) (fault 24 (kind_number h)) no_fault) }
{
    match h {
        IgvmDirectiveHeader::X64NativeVpContext { .. } => {
            igvm_defs::refuse_if(!arch.is_x64(), 24, 46)
        }
        IgvmDirectiveHeader::X64VbsVpContext { .. } => {
            igvm_defs::refuse_if(!arch.is_x64(), 24, 47)
        }
        IgvmDirectiveHeader::AArch64VbsVpContext { .. } => {
            igvm_defs::refuse_if(!arch.is_aarch64(), 24, 48)
        }
        IgvmDirectiveHeader::AArch64CcaVpContext { .. } => {
            igvm_defs::refuse_if(!arch.is_aarch64(), 24, 49)
        }
        _ => Ok(()),
    }
}

// ---- contexts: a mask for each VTL, of the VBS contexts read so far

// The masks with a context of this VTL and mask.
#[tactic(auto, using(crate::proofs::DirectiveRecordLaws::context_items))]
fn with_context(contexts: [u32; 3], vtl: Vtl, mask: u32) -> [u32; 3]
    ensures { (level bits : ℕ) → shares (get_or result level 0) bits ≡ (shares (get_or contexts level 0) bits || (eqb (vtl_number vtl) level && shares mask bits)) }
{
    match vtl {
        Vtl::Vtl0 => [contexts[0] | mask, contexts[1], contexts[2]],
        Vtl::Vtl1 => [contexts[0], contexts[1] | mask, contexts[2]],
        Vtl::Vtl2 => [contexts[0], contexts[1], contexts[2] | mask],
    }
}

fn contexts_after(contexts: [u32; 3], h: IgvmDirectiveHeader) -> [u32; 3]
    ensures { (xs : Rows IgvmDirectiveHeader) (i : ℕ) → h ≡ xs.row i → HoldsContexts contexts (before i xs) → HoldsContexts result (before (i + 1) xs) }
{
    match h {
        IgvmDirectiveHeader::X64VbsVpContext {
            vtl,
            compatibility_mask,
            ..
        }
        | IgvmDirectiveHeader::AArch64VbsVpContext {
            vtl,
            compatibility_mask,
            ..
        } => with_context(contexts, vtl, compatibility_mask),
        _ => contexts,
    }
}

#[tactic(auto, unfolding(crate::specs::Record::lacks_context))]
pub fn lacks_context(contexts: [u32; 3], r: Region) -> bool
    ensures { result ≡ lacks_context contexts r }
{
    contexts::lacks(&contexts, r.mask, r.vp_index, r.vtl)
}

// ---- areas

pub fn is_parameter(kind: u32) -> bool
    ensures { result ≡ is_parameter kind }
{
    (34 <= kind) & (kind <= 43)
}

// How a row names an area, and which.
#[derive(Clone, Copy)]
pub enum AreaName {
    Allocates(u32),
    Uses(u32),
    Inserts(u32),
    NoArea,
}

impl AreaName {
    // A row that names an area so allocates this one.
    pub fn allocates(self, area: u32) -> bool
        ensures { result ≡ (eqb (how self) 0 && eqb area (area_number (area_in self))) }
    {
        match self {
            AreaName::Allocates(named) => area == named,
            _ => false,
        }
    }

    // A row that names an area so inserts this one.
    pub fn inserts(self, area: u32) -> bool
        ensures { result ≡ (eqb (how self) 2 && eqb area (area_number (area_in self))) }
    {
        match self {
            AreaName::Inserts(named) => area == named,
            _ => false,
        }
    }
}

#[tactic(auto, using(crate::proofs::DirectiveRecordLaws::parameter_least), unfolding(crate::specs::Record::how_named, directive_header::specs::Fields::area_named, igvm_defs::specs::Kinds::kind_of, igvm_defs::specs::Kinds::spans))]
pub fn naming(kind: u32, body: &[u8]) -> AreaName
    requires { (kind_of kind).least ≤ length body.now }
    ensures { (how result ≡ how_named kind) × (area_in result ≡ area_named kind body.now) }
{
    match kind {
        33 => AreaName::Allocates(le::u32_at(body, 8)),
        34..=43 => AreaName::Uses(le::u32_at(body, 0)),
        50 => AreaName::Inserts(le::u32_at(body, 12)),
        _ => AreaName::NoArea,
    }
}

// ---- one row more

// What is wrong with a row. The rows before it tell whether its area is bad; the regions, whether it inserts into a page table.
#[tactic(auto, unfolding(rules::specs::Directives::directive_fault, rules::specs::Directives::own_directive_fault, igvm_defs::specs::Refusals::is_fault))]
fn row_fault(arch: Arch, bad: bool, inside: bool, h: IgvmDirectiveHeader) -> Result<(), Fault>
    ensures { (is : Rows IgvmInitializationHeader) (earlier : Rows IgvmDirectiveHeader) → bad ≡ bad_area earlier h → inside ≡ inside_table is h → Told result (directive_fault arch is earlier h) }
{
    validate(h)?;
    arch_check(arch, h)?;
    igvm_defs::refuse_if(bad, 32, 0)?;
    igvm_defs::refuse_if(inside, 33, 0)
}

// What is wrong with a row, and the contexts' masks with the row's, whatever its fault.
#[derive(Clone, Copy)]
pub struct DirectiveStep {
    pub contexts: [u32; 3],
    pub told: Result<(), Fault>,
}

// The row behind those whose contexts the masks hold.
pub fn step(
    contexts: [u32; 3],
    arch: Arch,
    bad: bool,
    inside: bool,
    h: IgvmDirectiveHeader,
) -> DirectiveStep
    ensures { (is : Rows IgvmInitializationHeader) (xs : Rows IgvmDirectiveHeader) (i : ℕ) → h ≡ xs.row i → bad ≡ bad_area (before i xs) h → inside ≡ inside_table is h → HoldsContexts contexts (before i xs) → DirectiveStepped arch is xs i result.told result.contexts }
{
    DirectiveStep {
        contexts: contexts_after(contexts, h),
        told: row_fault(arch, bad, inside, h),
    }
}
