// Directive headers.
#![tactic(auto)]

ghost use Rattle.std.specs.Prelude.{◌≡◌, ◌≤◌, length};
ghost use Rattle.igvm_defs.specs.Kinds.{directive_list};
ghost use Rattle.directive_header.specs.Directives.{directive_of, page_data_of, parameter_area_of, parameter_of, required_memory_of, snp_vp_context_of, x64_native_vp_context_of, x64_vbs_vp_context_of, aarch64_vbs_vp_context_of, aarch64_cca_vp_context_of, parameter_insert_of, error_range_of, snp_id_block_of, vbs_measurement_of};

use header::Header;
use igvm_defs::Vtl;

#[derive(Clone, Copy)]
pub struct IGVM_VHS_PARAMETER {
    pub parameter_area_index: u32,
    pub byte_offset: u32,
}

#[derive(Clone, Copy)]
pub struct IGVM_VHS_PARAMETER_INSERT {
    pub gpa: u64,
    pub compatibility_mask: u32,
    pub parameter_area_index: u32,
}

// Data and opaque bytes are no part of a header; how many there are is: data, initial_data, vmsa, context, registers, opaque.
#[derive(Clone, Copy)]
pub enum IgvmDirectiveHeader {
    PageData {
        gpa: u64,
        compatibility_mask: u32,
        flags: u32,
        data_type: u16,
        data: usize,
    },
    ParameterArea {
        number_of_bytes: u64,
        parameter_area_index: u32,
        initial_data: usize,
    },
    VpCount(IGVM_VHS_PARAMETER),
    EnvironmentInfo(IGVM_VHS_PARAMETER),
    Srat(IGVM_VHS_PARAMETER),
    Madt(IGVM_VHS_PARAMETER),
    Slit(IGVM_VHS_PARAMETER),
    Pptt(IGVM_VHS_PARAMETER),
    MmioRanges(IGVM_VHS_PARAMETER),
    MemoryMap(IGVM_VHS_PARAMETER),
    CommandLine(IGVM_VHS_PARAMETER),
    DeviceTree(IGVM_VHS_PARAMETER),
    RequiredMemory {
        gpa: u64,
        compatibility_mask: u32,
        number_of_bytes: u32,
        vtl2_protectable: bool,
    },
    SnpVpContext {
        gpa: u64,
        compatibility_mask: u32,
        vp_index: u16,
        vmsa: usize,
    },
    X64NativeVpContext {
        compatibility_mask: u32,
        vp_index: u16,
        context: usize,
    },
    X64VbsVpContext {
        vtl: Vtl,
        registers: usize,
        compatibility_mask: u32,
    },
    AArch64VbsVpContext {
        vtl: Vtl,
        registers: usize,
        compatibility_mask: u32,
    },
    AArch64CcaVpContext {
        compatibility_mask: u32,
        vp_index: u16,
        context: usize,
    },
    ParameterInsert(IGVM_VHS_PARAMETER_INSERT),
    ErrorRange {
        gpa: u64,
        compatibility_mask: u32,
        size_bytes: u32,
    },
    SnpIdBlock {
        compatibility_mask: u32,
        opaque: usize,
    },
    VbsMeasurement {
        compatibility_mask: u32,
        opaque: usize,
    },
}

fn parameter(b: &[u8]) -> IGVM_VHS_PARAMETER
    requires { 8 ≤ length b.now }
    ensures { result ≡ parameter_of b.now }
{
    IGVM_VHS_PARAMETER {
        parameter_area_index: le::u32_at(b, 0),
        byte_offset: le::u32_at(b, 4),
    }
}

fn page_data(b: &[u8]) -> IgvmDirectiveHeader
    requires { 18 ≤ length b.now }
    ensures { result ≡ page_data_of b.now }
{
    IgvmDirectiveHeader::PageData {
        gpa: le::u64_at(b, 0),
        compatibility_mask: le::u32_at(b, 8),
        flags: le::u32_at(b, 12),
        data_type: le::u16_at(b, 16),
        data: b.len() - 18,
    }
}

fn parameter_area(b: &[u8]) -> IgvmDirectiveHeader
    requires { 12 ≤ length b.now }
    ensures { result ≡ parameter_area_of b.now }
{
    IgvmDirectiveHeader::ParameterArea {
        number_of_bytes: le::u64_at(b, 0),
        parameter_area_index: le::u32_at(b, 8),
        initial_data: b.len() - 12,
    }
}

fn required_memory(b: &[u8]) -> IgvmDirectiveHeader
    requires { 17 ≤ length b.now }
    ensures { result ≡ required_memory_of b.now }
{
    IgvmDirectiveHeader::RequiredMemory {
        gpa: le::u64_at(b, 0),
        compatibility_mask: le::u32_at(b, 8),
        number_of_bytes: le::u32_at(b, 12),
        vtl2_protectable: b[16] == 1,
    }
}

fn snp_vp_context(b: &[u8]) -> IgvmDirectiveHeader
    requires { 14 ≤ length b.now }
    ensures { result ≡ snp_vp_context_of b.now }
{
    IgvmDirectiveHeader::SnpVpContext {
        gpa: le::u64_at(b, 0),
        compatibility_mask: le::u32_at(b, 8),
        vp_index: le::u16_at(b, 12),
        vmsa: b.len() - 14,
    }
}

fn x64_native_vp_context(b: &[u8]) -> IgvmDirectiveHeader
    requires { 6 ≤ length b.now }
    ensures { result ≡ x64_native_vp_context_of b.now }
{
    IgvmDirectiveHeader::X64NativeVpContext {
        compatibility_mask: le::u32_at(b, 0),
        vp_index: le::u16_at(b, 4),
        context: b.len() - 6,
    }
}

fn x64_vbs_vp_context(b: &[u8]) -> IgvmDirectiveHeader
    requires { 5 ≤ length b.now }
    ensures { result ≡ x64_vbs_vp_context_of b.now }
{
    IgvmDirectiveHeader::X64VbsVpContext {
        vtl: Vtl::new(b[4]),
        registers: b.len() - 5,
        compatibility_mask: le::u32_at(b, 0),
    }
}

fn aarch64_vbs_vp_context(b: &[u8]) -> IgvmDirectiveHeader
    requires { 5 ≤ length b.now }
    ensures { result ≡ aarch64_vbs_vp_context_of b.now }
{
    IgvmDirectiveHeader::AArch64VbsVpContext {
        vtl: Vtl::new(b[4]),
        registers: b.len() - 5,
        compatibility_mask: le::u32_at(b, 0),
    }
}

fn aarch64_cca_vp_context(b: &[u8]) -> IgvmDirectiveHeader
    requires { 6 ≤ length b.now }
    ensures { result ≡ aarch64_cca_vp_context_of b.now }
{
    IgvmDirectiveHeader::AArch64CcaVpContext {
        compatibility_mask: le::u32_at(b, 0),
        vp_index: le::u16_at(b, 4),
        context: b.len() - 6,
    }
}

fn parameter_insert(b: &[u8]) -> IgvmDirectiveHeader
    requires { 16 ≤ length b.now }
    ensures { result ≡ parameter_insert_of b.now }
{
    IgvmDirectiveHeader::ParameterInsert(IGVM_VHS_PARAMETER_INSERT {
        gpa: le::u64_at(b, 0),
        compatibility_mask: le::u32_at(b, 8),
        parameter_area_index: le::u32_at(b, 12),
    })
}

fn error_range(b: &[u8]) -> IgvmDirectiveHeader
    requires { 16 ≤ length b.now }
    ensures { result ≡ error_range_of b.now }
{
    IgvmDirectiveHeader::ErrorRange {
        gpa: le::u64_at(b, 0),
        compatibility_mask: le::u32_at(b, 8),
        size_bytes: le::u32_at(b, 12),
    }
}

fn snp_id_block(b: &[u8]) -> IgvmDirectiveHeader
    requires { 4 ≤ length b.now }
    ensures { result ≡ snp_id_block_of b.now }
{
    IgvmDirectiveHeader::SnpIdBlock {
        compatibility_mask: le::u32_at(b, 0),
        opaque: b.len() - 4,
    }
}

fn vbs_measurement(b: &[u8]) -> IgvmDirectiveHeader
    requires { 4 ≤ length b.now }
    ensures { result ≡ vbs_measurement_of b.now }
{
    IgvmDirectiveHeader::VbsMeasurement {
        compatibility_mask: le::u32_at(b, 0),
        opaque: b.len() - 4,
    }
}

impl Header for IgvmDirectiveHeader {
    ghost list = { directive_list };

    ghost header_of = { directive_of };

    #[tactic(auto, unfolding(igvm_defs::specs::Kinds::kind_of, igvm_defs::specs::Kinds::spans, crate::specs::Directives::directive_of))]
    fn decode(kind: u32, body: &[u8]) -> IgvmDirectiveHeader {
        match kind {
            32 => page_data(body),
            33 => parameter_area(body),
            34 => IgvmDirectiveHeader::VpCount(parameter(body)),
            35 => IgvmDirectiveHeader::EnvironmentInfo(parameter(body)),
            36 => IgvmDirectiveHeader::Srat(parameter(body)),
            37 => IgvmDirectiveHeader::Madt(parameter(body)),
            38 => IgvmDirectiveHeader::Slit(parameter(body)),
            39 => IgvmDirectiveHeader::Pptt(parameter(body)),
            40 => IgvmDirectiveHeader::MmioRanges(parameter(body)),
            41 => IgvmDirectiveHeader::MemoryMap(parameter(body)),
            42 => IgvmDirectiveHeader::CommandLine(parameter(body)),
            43 => IgvmDirectiveHeader::DeviceTree(parameter(body)),
            44 => required_memory(body),
            45 => snp_vp_context(body),
            46 => x64_native_vp_context(body),
            47 => x64_vbs_vp_context(body),
            48 => aarch64_vbs_vp_context(body),
            49 => aarch64_cca_vp_context(body),
            50 => parameter_insert(body),
            51 => error_range(body),
            52 => snp_id_block(body),
            _ => vbs_measurement(body),
        }
    }
}
