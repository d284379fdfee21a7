// The head of a sheet, refusals 1, 2, 3 and 7, and its table of contents; a cursor, which is a place among the rows.
#![tactic(auto)]

ghost use Rattle.std.specs.Prelude.{◌≡◌, ◌+◌, ◌*◌, ◌≤◌, ◌<◌, true, length, take, drop, MatchResult};
ghost use Rattle.igvm_defs.specs.Refusals.{no_fault, is_fault, Told};
ghost use Rattle.sheet.specs.Head.{limits, head_of, row_count, layout_ok, within_limits, start_fault, revision_of, page_size_fault};
ghost use Rattle.sheet.specs.Table.{row_kind, row_length};

mod readable_sheet;

use igvm_defs::{Arch, Fault, IgvmRevision};
pub use readable_sheet::ReadableSheet;

// The head's numbers as they stand in the sheet.
#[repr(C)]
#[derive(Clone, Copy)]
pub struct SheetHead {
    pub revision: u8,
    pub arch: u8,
    pub reserved: u16,
    pub page_size: u32,
    pub platforms: u16,
    pub initializations: u16,
    pub directives: u16,
    pub reserved2: u16,
}

impl SheetHead {
    // The one page size that is supported.
    pub const PAGE_SIZE: u64 = igvm_defs::PAGE_SIZE_4K;

    pub const PLATFORM_ROWS: usize = 16;

    pub const INITIALIZATION_ROWS: usize = 64;
    // One place for each, and one before them.
    pub const INITIALIZATION_PLACES: usize = 65;

    pub const DIRECTIVE_ROWS: usize = 8192;

    pub const SHEET_BYTES: usize = 67108864;

    #[tactic(auto, unfolding(crate::specs::Head::head_of))]
    pub fn new(s: &[u8]) -> SheetHead
        requires { 16 ≤ length s.now }
        ensures { result ≡ head_of s.now }
    {
        SheetHead {
            revision: s[0],
            arch: s[1],
            reserved: le::u16_at(s, 2),
            page_size: le::u32_at(s, 4),
            platforms: le::u16_at(s, 8),
            initializations: le::u16_at(s, 10),
            directives: le::u16_at(s, 12),
            reserved2: le::u16_at(s, 14),
        }
    }

    pub fn rows(self) -> usize
        ensures { result ≡ row_count self }
    {
        (self.platforms as usize) + (self.initializations as usize) + (self.directives as usize)
    }

    #[tactic(auto, unfolding(crate::specs::Head::layout_ok))]
    pub fn layout_ok(self) -> bool
        ensures { result ≡ layout_ok self }
    {
        ((self.revision == 1) | (self.revision == 2))
            & (self.arch <= 1)
            & (self.reserved == 0)
            & (self.reserved2 == 0)
            & (!(self.revision == 1) | (self.arch == 0) & (self.page_size == 0))
    }

    #[tactic(auto, unfolding(crate::specs::Head::limits, crate::specs::Head::within_limits))]
    pub fn within_limits(self, n: usize) -> bool
        ensures { result ≡ within_limits limits self n }
    {
        ((self.platforms as usize) <= SheetHead::PLATFORM_ROWS)
            & ((self.initializations as usize) <= SheetHead::INITIALIZATION_ROWS)
            & ((self.directives as usize) <= SheetHead::DIRECTIVE_ROWS)
            & (n <= SheetHead::SHEET_BYTES)
    }

    #[tactic(auto, unfolding(crate::specs::Head::revision_of))]
    pub fn revision(self) -> IgvmRevision
        ensures { result ≡ revision_of self }
    {
        if self.revision == 1 {
            return IgvmRevision::V1;
        }
        let page_size = self.page_size;
        if self.arch == 0 {
            return IgvmRevision::V2 {
                arch: Arch::X64,
                page_size,
            };
        }
        IgvmRevision::V2 {
            arch: Arch::AArch64,
            page_size,
        }
    }

    pub fn page_size_fault(self) -> Result<(), Fault>
        ensures { Told result (page_size_fault self) }
    {
        let size = self.revision().page_size();
        igvm_defs::refuse_if(size != SheetHead::PAGE_SIZE, 7, size)
    }
}

// The head, or 1 (under 16 bytes), 2, 3 or 1 (the table ends early).
#[tactic(auto, unfolding(igvm_defs::specs::Refusals::is_fault, crate::specs::Head::start_fault))]
pub fn read_head(s: &[u8]) -> Result<SheetHead, Fault>
    ensures { MatchResult result (λ h. (start_fault limits s.now ≡ no_fault) × (h ≡ head_of s.now)) (λ f. (f ≡ start_fault limits s.now) × (is_fault f ≡ true)) }
{
    let n = s.len();
    igvm_defs::refuse_if(n < 16, 1, 0)?;
    let h = SheetHead::new(s);
    igvm_defs::refuse_if(!h.layout_ok(), 2, 0)?;
    igvm_defs::refuse_if(!h.within_limits(n), 3, 0)?;
    igvm_defs::refuse_if(n < 16 + 8 * h.rows(), 1, 0)?;
    Ok(h)
}

// ---- rows

// The row reached, from 0, and where its body starts.
#[derive(Clone, Copy)]
pub struct Cursor {
    pub row: usize,
    pub at: usize,
}

#[tactic(auto, unfolding(crate::specs::Table::row_kind))]
pub fn kind_at(s: &[u8], row: usize) -> u32
    requires { 24 + 8 * row ≤ length s.now }
    ensures { result ≡ row_kind s.now row }
{
    le::u32_at(s, 16 + 8 * row)
}

#[tactic(auto, unfolding(crate::specs::Table::row_length))]
pub fn length_at(s: &[u8], row: usize) -> usize
    requires { 24 + 8 * row ≤ length s.now }
    ensures { (result ≡ row_length s.now row) × (result < 4294967296) }
{
    le::u32_at(s, 20 + 8 * row) as usize
}

// The part of the sheet that starts at `at` and has `len` bytes.
pub fn part(s: &[u8], at: usize, len: usize) -> &[u8]
    requires { at + len ≤ length s.now }
    ensures { result.now ≡ take len (drop at s.now) }
{
    &s[at..at + len]
}

impl Cursor {
    // At row 0 of a sheet of n rows.
    pub fn new(n: usize) -> Cursor
        requires { n ≤ 196605 }
        ensures { result ≡ record { row = 0; at = 16 + 8 * n } }
    {
        Cursor {
            row: 0,
            at: 16 + 8 * n,
        }
    }
}
