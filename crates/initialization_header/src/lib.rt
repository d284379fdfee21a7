// Initialization headers.
#![tactic(auto)]

ghost use Rattle.std.specs.Prelude.{◌≡◌, ◌≤◌, length};
ghost use Rattle.igvm_defs.specs.Kinds.{initialization_list};
ghost use Rattle.initialization_header.specs.Initializations.{initialization_of, guest_policy_of, cca_policy_of, relocatable_region_of, page_table_relocation_region_of};

use header::Header;
use igvm_defs::Vtl;

// The two opaque bytes of a CcaPolicy, hash_algorithm and lfa_policy, are no part of a header.
#[derive(Clone, Copy)]
pub enum IgvmInitializationHeader {
    GuestPolicy {
        policy: u64,
        compatibility_mask: u32,
    },
    CcaPolicy {
        compatibility_mask: u32,
        attributes_required_zeroes: u64,
        attributes_required_ones: u64,
    },
    RelocatableRegion {
        compatibility_mask: u32,
        relocation_alignment: u64,
        relocation_region_gpa: u64,
        relocation_region_size: u64,
        minimum_relocation_gpa: u64,
        maximum_relocation_gpa: u64,
        is_vtl2: bool,
        apply_rip_offset: bool,
        apply_gdtr_offset: bool,
        vp_index: u16,
        vtl: Vtl,
    },
    PageTableRelocationRegion {
        compatibility_mask: u32,
        gpa: u64,
        size: u64,
        used_size: u64,
        vp_index: u16,
        vtl: Vtl,
    },
}

fn guest_policy(b: &[u8]) -> IgvmInitializationHeader
    requires { 12 ≤ length b.now }
    ensures { result ≡ guest_policy_of b.now }
{
    IgvmInitializationHeader::GuestPolicy {
        policy: le::u64_at(b, 0),
        compatibility_mask: le::u32_at(b, 8),
    }
}

fn cca_policy(b: &[u8]) -> IgvmInitializationHeader
    requires { 22 ≤ length b.now }
    ensures { result ≡ cca_policy_of b.now }
{
    IgvmInitializationHeader::CcaPolicy {
        compatibility_mask: le::u32_at(b, 0),
        attributes_required_zeroes: le::u64_at(b, 4),
        attributes_required_ones: le::u64_at(b, 12),
    }
}

fn relocatable_region(b: &[u8]) -> IgvmInitializationHeader
    requires { 48 ≤ length b.now }
    ensures { result ≡ relocatable_region_of b.now }
{
    let flags = b[44];
    IgvmInitializationHeader::RelocatableRegion {
        compatibility_mask: le::u32_at(b, 0),
        relocation_alignment: le::u64_at(b, 4),
        relocation_region_gpa: le::u64_at(b, 12),
        relocation_region_size: le::u64_at(b, 20),
        minimum_relocation_gpa: le::u64_at(b, 28),
        maximum_relocation_gpa: le::u64_at(b, 36),
        is_vtl2: flags % 2 == 1,
        apply_rip_offset: flags / 2 % 2 == 1,
        apply_gdtr_offset: flags / 4 % 2 == 1,
        vp_index: le::u16_at(b, 45),
        vtl: Vtl::new(b[47]),
    }
}

fn page_table_relocation_region(b: &[u8]) -> IgvmInitializationHeader
    requires { 31 ≤ length b.now }
    ensures { result ≡ page_table_relocation_region_of b.now }
{
    IgvmInitializationHeader::PageTableRelocationRegion {
        compatibility_mask: le::u32_at(b, 0),
        gpa: le::u64_at(b, 4),
        size: le::u64_at(b, 12),
        used_size: le::u64_at(b, 20),
        vp_index: le::u16_at(b, 28),
        vtl: Vtl::new(b[30]),
    }
}

impl Header for IgvmInitializationHeader {
    ghost list = { initialization_list };

    ghost header_of = { initialization_of };

    #[tactic(auto, unfolding(igvm_defs::specs::Kinds::kind_of, igvm_defs::specs::Kinds::spans, crate::specs::Initializations::initialization_of))]
    fn decode(kind: u32, body: &[u8]) -> IgvmInitializationHeader {
        match kind {
            16 => guest_policy(body),
            17 => cca_policy(body),
            18 => relocatable_region(body),
            _ => page_table_relocation_region(body),
        }
    }
}
