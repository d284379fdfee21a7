// The regions of the initialization rows read so far, in the order of the rows.
#![tactic(auto)]

ghost use Rattle.std.specs.Prelude.{◌≡◌, ◌<◌};
ghost use Rattle.reloc_regions.specs.Regions.{entry, pushed, Lengths};

use rules::Region;

// The first `count` of each array tell a region each. Of a mask or of the page tables a search reads all in a row, so each number has an array of its own.
#[derive(Clone, Copy)]
pub struct RelocRegions<const N: usize> {
    pub mask: [u32; N],
    pub gpa: [u64; N],
    pub size: [u64; N],
    pub vp_index: [u16; N],
    pub vtl: [u8; N],
    pub page_table: [bool; N],
    pub count: usize,
}

impl<const N: usize> RelocRegions<N> {
    pub fn new() -> RelocRegions<N>
        ensures empty { result.count ≡ 0 }
        ensures lengths { Lengths result }
    {
        RelocRegions {
            mask: [0; N],
            gpa: [0; N],
            size: [0; N],
            vp_index: [0; N],
            vtl: [0; N],
            page_table: [false; N],
            count: 0,
        }
    }

    // Region i.
    pub fn at(&self, i: usize) -> Region
        requires { i < N }
        ensures { result ≡ entry self.now i }
    {
        Region {
            mask: self.mask[i],
            gpa: self.gpa[i],
            size: self.size[i],
            vp_index: self.vp_index[i],
            vtl: self.vtl[i],
            page_table: self.page_table[i],
        }
    }

    // The region comes behind the others.
    pub fn push(&mut self, new: Region)
        requires room { self.old.count < N }
        ensures pushed { self.new ≡ pushed self.old new }
        ensures lengths { Lengths self.new }
    {
        let n = self.count;
        self.mask[n] = new.mask;
        self.gpa[n] = new.gpa;
        self.size[n] = new.size;
        self.vp_index[n] = new.vp_index;
        self.vtl[n] = new.vtl;
        self.page_table[n] = new.page_table;
        self.count = n + 1;
    }
}
