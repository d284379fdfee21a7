// What every other crate speaks of: refusals, the tables of kinds and of platform types, architectures, revisions and VTLs.
#![tactic(auto)]

ghost use Rattle.std.specs.Prelude.{◌≡◌, ℕ, ◌<◌, true, false, get_or, MatchResult};
ghost use Rattle.igvm_defs.specs.Refusals.{fault, is_refusal, in_row};
ghost use Rattle.igvm_defs.specs.Kinds.{kind_of, kind_says, no_entry, length_ok};
ghost use Rattle.igvm_defs.specs.Platforms.{platform_type_of, is_platform_type};
ghost use Rattle.igvm_defs.specs.Revision.{arch_of, page_size_of, is_x64, is_aarch64};
ghost use Rattle.igvm_defs.specs.Vtls.{vtl_of, vtl_number};

// The one page size that files have.
pub const PAGE_SIZE_4K: u64 = 4096;

// ---- refusals

// A refusal's number, the row that it names (from 1; 0 for the sheet as a whole) and its detail. All 0 where nothing is refused.
#[repr(C)]
#[derive(Clone, Copy)]
pub struct Refusal {
    pub number: u64,
    pub row: u64,
    pub detail: u64,
}

// What is wrong with one row, or with the sheet as a whole: the refusal's number and detail.
#[derive(Clone, Copy)]
pub struct Fault {
    pub number: u64,
    pub detail: u64,
}

impl Refusal {
    pub const NONE: Refusal = Refusal {
        number: 0,
        row: 0,
        detail: 0,
    };
}

// Err of the number and the detail where the test holds.
pub fn refuse_if(test: bool, number: u64, detail: u64) -> Result<(), Fault>
    ensures { MatchResult result (λ _. test ≡ false) (λ e. (test ≡ true) × (e ≡ fault number detail)) }
{
    if test {
        return Err(Fault { number, detail });
    }
    Ok(())
}

impl Fault {
    // The refusal that a fault of this row is.
    #[tactic(auto, unfolding(crate::specs::Refusals::in_row, crate::specs::Refusals::is_fault))]
    pub fn in_row(self, row: u64) -> Refusal
        ensures { result ≡ in_row row self }
    {
        if self.number != 0 {
            return Refusal {
                number: self.number,
                row,
                detail: self.detail,
            };
        }
        Refusal::NONE
    }
}

impl Refusal {
    #[tactic(auto, unfolding(crate::specs::Refusals::is_refusal))]
    pub fn is_refusal(self) -> bool
        ensures { result ≡ is_refusal self }
    {
        self.number != 0
    }
}

// ---- kinds

// The lists of a sheet's rows. `NoList`: a kind that none of them has.
#[derive(Clone, Copy, PartialEq, Eq)]
pub enum RowList {
    NoList,
    Platform,
    Initialization,
    Directive,
}

// What the table says of a kind: its list, the least length of its body, and whether that length is exact.
#[derive(Clone, Copy)]
pub struct Kind {
    pub list: RowList,
    pub least: u8,
    pub exact: bool,
}

// A kind of no list.
const NONE: Kind = Kind {
    list: RowList::NoList,
    least: 0,
    exact: false,
};

// A parameter: kinds 34 to 43.
const PARAMETER: Kind = Kind {
    list: RowList::Directive,
    least: 8,
    exact: true,
};

// By number, written out, since a constant calls no function.
const KINDS: [Kind; 54] = [
    NONE,
    Kind {
        list: RowList::Platform,
        least: 16,
        exact: true,
    }, // 1 SupportedPlatform
    NONE,
    NONE,
    NONE,
    NONE,
    NONE,
    NONE,
    NONE,
    NONE,
    NONE,
    NONE,
    NONE,
    NONE,
    NONE,
    NONE,
    Kind {
        list: RowList::Initialization,
        least: 12,
        exact: true,
    }, // 16 GuestPolicy
    Kind {
        list: RowList::Initialization,
        least: 22,
        exact: true,
    }, // 17 CcaPolicy
    Kind {
        list: RowList::Initialization,
        least: 48,
        exact: true,
    }, // 18 RelocatableRegion
    Kind {
        list: RowList::Initialization,
        least: 31,
        exact: true,
    }, // 19 PageTableRelocationRegion
    NONE,
    NONE,
    NONE,
    NONE,
    NONE,
    NONE,
    NONE,
    NONE,
    NONE,
    NONE,
    NONE,
    NONE,
    Kind {
        list: RowList::Directive,
        least: 18,
        exact: false,
    }, // 32 PageData
    Kind {
        list: RowList::Directive,
        least: 12,
        exact: false,
    }, // 33 ParameterArea
    PARAMETER, // 34 VpCount
    PARAMETER, // 35 EnvironmentInfo
    PARAMETER, // 36 Srat
    PARAMETER, // 37 Madt
    PARAMETER, // 38 Slit
    PARAMETER, // 39 Pptt
    PARAMETER, // 40 MmioRanges
    PARAMETER, // 41 MemoryMap
    PARAMETER, // 42 CommandLine
    PARAMETER, // 43 DeviceTree
    Kind {
        list: RowList::Directive,
        least: 17,
        exact: true,
    }, // 44 RequiredMemory
    Kind {
        list: RowList::Directive,
        least: 14,
        exact: false,
    }, // 45 SnpVpContext
    Kind {
        list: RowList::Directive,
        least: 6,
        exact: false,
    }, // 46 X64NativeVpContext
    Kind {
        list: RowList::Directive,
        least: 5,
        exact: false,
    }, // 47 X64VbsVpContext
    Kind {
        list: RowList::Directive,
        least: 5,
        exact: false,
    }, // 48 AArch64VbsVpContext
    Kind {
        list: RowList::Directive,
        least: 6,
        exact: false,
    }, // 49 AArch64CcaVpContext
    Kind {
        list: RowList::Directive,
        least: 16,
        exact: true,
    }, // 50 ParameterInsert
    Kind {
        list: RowList::Directive,
        least: 16,
        exact: true,
    }, // 51 ErrorRange
    Kind {
        list: RowList::Directive,
        least: 4,
        exact: false,
    }, // 52 SnpIdBlock
    Kind {
        list: RowList::Directive,
        least: 4,
        exact: false,
    }, // 53 VbsMeasurement
];

// The table of kinds. A constant array is built anew wherever it is indexed, so a loop over rows takes the table once, before it.
pub fn kinds() -> [Kind; 54]
    ensures { (k : ℕ) → k < 54 → kind_says (get_or result k no_entry) ≡ kind_of k }
{
    KINDS
}

// The place of a kind in the table; past its end, that of a kind of no list.
#[tactic(auto, unfolding(crate::specs::Kinds::kind_of, crate::specs::Kinds::spans))]
pub fn kind_index(k: u32) -> usize
    ensures { (result < 54) × (kind_of result ≡ kind_of k) }
{
    if k < 54 {
        return k as usize;
    }
    0
}

impl Kind {
    // A body length that the kind allows.
    #[tactic(auto, unfolding(crate::specs::Kinds::kind_says, crate::specs::Kinds::length_ok))]
    pub fn length_ok(self, n: usize) -> bool
        ensures { result ≡ length_ok (kind_says self) n }
    {
        let least = self.least as usize;
        if self.exact {
            return n == least;
        }
        least <= n
    }
}

// ---- platform types

// What the table says of a platform type: its version, whether its shared GPA boundary must be 0, and the architectures that it may
// stand with.
#[derive(Clone, Copy)]
pub struct PlatformType {
    pub version: u16,
    pub unshared: bool,
    pub x64: bool,
    pub aarch64: bool,
}

// A type that is not in the table.
const NO_PLATFORM_TYPE: PlatformType = PlatformType {
    version: 0,
    unshared: false,
    x64: false,
    aarch64: false,
};

// By number.
const PLATFORM_TYPES: [PlatformType; 7] = [
    PlatformType {
        version: 1,
        unshared: true,
        x64: true,
        aarch64: false,
    }, // 0 NATIVE
    PlatformType {
        version: 1,
        unshared: true,
        x64: true,
        aarch64: true,
    }, // 1 VSM_ISOLATION
    PlatformType {
        version: 1,
        unshared: false,
        x64: true,
        aarch64: false,
    }, // 2 SEV_SNP
    PlatformType {
        version: 1,
        unshared: false,
        x64: true,
        aarch64: false,
    }, // 3 TDX
    PlatformType {
        version: 1,
        unshared: false,
        x64: true,
        aarch64: false,
    }, // 4 SEV
    PlatformType {
        version: 1,
        unshared: false,
        x64: true,
        aarch64: false,
    }, // 5 SEV_ES
    PlatformType {
        version: 1,
        unshared: false,
        x64: false,
        aarch64: true,
    }, // 6 CCA
];

impl PlatformType {
    // The numbers of types that rules name.
    pub const VSM_ISOLATION: u8 = 1;

    pub const CCA: u8 = 6;
}

#[tactic(auto, unfolding(crate::specs::Platforms::is_platform_type, crate::specs::Platforms::platform_types))]
pub fn is_platform_type(k: u8) -> bool
    ensures { result ≡ is_platform_type k }
{
    k < 7
}

// What the table says of a type; past its end, of none.
#[tactic(auto, unfolding(crate::specs::Platforms::platform_type_of, crate::specs::Platforms::platform_types))]
pub fn platform_type_of(k: u8) -> PlatformType
    ensures { result ≡ platform_type_of k }
{
    if k < 7 {
        let i = k as usize;
        return PLATFORM_TYPES[i];
    }
    NO_PLATFORM_TYPE
}

// ---- revisions

// Architecture for an IGVM file.
#[derive(Clone, Copy)]
pub enum Arch {
    X64,
    AArch64,
}

impl Arch {
    pub fn is_x64(self) -> bool
        ensures { result ≡ is_x64 self }
    {
        match self {
            Arch::X64 => true,
            Arch::AArch64 => false,
        }
    }

    pub fn is_aarch64(self) -> bool
        ensures { result ≡ is_aarch64 self }
    {
        match self {
            Arch::X64 => false,
            Arch::AArch64 => true,
        }
    }
}

// Format revision for an IGVM file.
#[derive(Clone, Copy)]
pub enum IgvmRevision {
    V1,
    V2 { arch: Arch, page_size: u32 },
}

impl IgvmRevision {
    pub fn arch(self) -> Arch
        ensures { result ≡ arch_of self }
    {
        match self {
            IgvmRevision::V1 => Arch::X64,
            IgvmRevision::V2 { arch, page_size: _ } => arch,
        }
    }

    pub fn page_size(self) -> u64
        ensures { result ≡ page_size_of self }
    {
        match self {
            IgvmRevision::V1 => PAGE_SIZE_4K,
            IgvmRevision::V2 { arch: _, page_size } => page_size as u64,
        }
    }
}

// ---- VTLs

// Virtual trust level.
#[derive(Clone, Copy)]
pub enum Vtl {
    Vtl0,
    Vtl1,
    Vtl2,
}

impl Vtl {
    // The level that a code names. A code above 2 is refusal 5, and is never asked for.
    #[tactic(auto, unfolding(crate::specs::Vtls::vtl_of))]
    pub fn new(code: u8) -> Vtl
        ensures { result ≡ vtl_of code }
    {
        match code {
            0 => Vtl::Vtl0,
            1 => Vtl::Vtl1,
            _ => Vtl::Vtl2,
        }
    }

    pub fn code(self) -> u8
        ensures { (result ≡ vtl_number self) × (result < 3) }
    {
        match self {
            Vtl::Vtl0 => 0,
            Vtl::Vtl1 => 1,
            Vtl::Vtl2 => 2,
        }
    }
}
