// The rules of admission: when a file's headers are refused, and what a query of an accepted file answers. These are definitions alone, in
// specs/, and what a reader must believe; the crates above prove their code equal to them. Here are only the structs that they speak of.
#![tactic(auto)]

// A region of either kind: what it covers, and for whom.
#[derive(Clone, Copy)]
pub struct Region {
    pub mask: u32,
    pub gpa: u64,
    pub size: u64,
    pub vp_index: u16,
    pub vtl: u8,
    pub page_table: bool,
}

impl Region {
    pub const NONE: Region = Region {
        mask: 0,
        gpa: 0,
        size: 0,
        vp_index: 0,
        vtl: 0,
        page_table: false,
    };
}

// A relocatable region as a query answers it. The flags are 1 VTL2, 2 RIP, 4 GDTR.
#[derive(Clone, Copy)]
pub struct IgvmRelocatableRegion {
    pub base_gpa: u64,
    pub size: u64,
    pub relocation_alignment: u64,
    pub minimum_relocation_gpa: u64,
    pub maximum_relocation_gpa: u64,
    pub flags: u64,
    pub vp_index: u64,
    pub vtl: u64,
}

// A page-table region as a query answers it.
#[derive(Clone, Copy)]
pub struct PageTableRegion {
    pub gpa: u64,
    pub size: u64,
    pub used_size: u64,
    pub vp_index: u64,
    pub vtl: u64,
}
