// Platform headers.
#![tactic(auto)]

ghost use Rattle.std.specs.Prelude.{◌≡◌, ◌≤◌, length};
ghost use Rattle.igvm_defs.specs.Kinds.{platform_list};
ghost use Rattle.platform_header.specs.Platforms.{platform_of, supported_platform_of};

use header::Header;

// The Rust's enum has one variant, SupportedPlatform, which holds these fields. An enum of one variant can't be taken apart in covered
// code, so a struct stands for it.
#[derive(Clone, Copy)]
pub struct IgvmPlatformHeader {
    pub compatibility_mask: u32,
    pub highest_vtl: u8,
    pub platform_type: u8,
    pub platform_version: u16,
    pub shared_gpa_boundary: u64,
}

fn supported_platform(b: &[u8]) -> IgvmPlatformHeader
    requires { 16 ≤ length b.now }
    ensures { result ≡ supported_platform_of b.now }
{
    IgvmPlatformHeader {
        compatibility_mask: le::u32_at(b, 0),
        highest_vtl: b[4],
        platform_type: b[5],
        platform_version: le::u16_at(b, 6),
        shared_gpa_boundary: le::u64_at(b, 8),
    }
}

impl Header for IgvmPlatformHeader {
    ghost list = { platform_list };

    ghost header_of = { platform_of };

    #[tactic(auto, unfolding(igvm_defs::specs::Kinds::kind_of, igvm_defs::specs::Kinds::spans, crate::specs::Platforms::platform_of))]
    fn decode(_kind: u32, body: &[u8]) -> IgvmPlatformHeader {
        supported_platform(body)
    }
}
