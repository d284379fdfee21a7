// A region against the regions held, and an address against the page tables among them.
#![tactic(auto)]

ghost use Rattle.std.specs.Prelude.{◌≡◌, ◌&&◌, ◌≤◌};
ghost use Rattle.masks.specs.Masks.{shares};
ghost use Rattle.addresses.specs.Addresses.{meets};
ghost use Rattle.clashes.specs.Clashes.{any_tables_share, any_table_holds};

use reloc_regions::RelocRegions;
use rules::Region;

// Some region held is a page table, as r is, and shares a bit with it.
#[tactic(auto, using(rows::proofs::BelowLaws::any_more), unfolding(rows::specs::Below::any_below))]
pub fn any_tables_share<const N: usize>(r: Region, held: &RelocRegions<N>) -> bool
    requires { held.now.count ≤ N }
    ensures { result ≡ any_tables_share r held.now.mask held.now.page_table held.now.count }
{
    if !r.page_table {
        return false;
    }
    let mut found = false;
    for i in 0..held.count {
        found |= held.page_table[i] & masks::shares(r.mask, held.mask[i]);
    }
    found
}

// r shares a bit with the mask, and an address with the size bytes from gpa.
pub fn overlaps(r: Region, mask: u32, gpa: u64, size: u64) -> bool
    ensures { result ≡ (shares r.mask mask && meets r.gpa r.size gpa size) }
{
    masks::shares(r.mask, mask) & addresses::meets(r.gpa, r.size, gpa, size)
}

// Some page table held shares a bit with the mask and contains the address.
#[tactic(auto, using(rows::proofs::BelowLaws::any_more), unfolding(rows::specs::Below::any_below))]
pub fn any_table_holds<const N: usize>(held: &RelocRegions<N>, mask: u32, gpa: u64) -> bool
    requires { held.now.count ≤ N }
    ensures { result ≡ any_table_holds mask gpa held.now.mask held.now.gpa held.now.size held.now.page_table held.now.count }
{
    let mut found = false;
    for i in 0..held.count {
        found |= held.page_table[i]
            & masks::shares(held.mask[i], mask)
            & addresses::contains(held.gpa[i], held.size[i], gpa);
    }
    found
}
