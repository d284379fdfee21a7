// What is known of each area, by its index, in one lent array (specs/AreaTree.antt): 1,024 roots, then four entries for each of up to 1,024 nodes. Whoever lends
// the array may have filled it with anything: every function is safe on any content, and takes a number that is no node's for an empty place. On an array
// that only these functions have written, what is told of an area is exactly what was said of it.
#![tactic(auto)]

ghost use Rattle.std.specs.Prelude.{cond, ◌≡◌, ℕ, ◌+◌, ◌<◌, ◌≤◌, eqb};
ghost use Rattle.area_tree.specs.AreaTree.{root, node_at, place_of, HoldsAreas};

// The entries of the array: 1,024 roots, four that no node has, of which the first is a place that stays empty, and four for each of 1,024 nodes.
pub const NODES: usize = 5124;

// The nodes that an array has room for. They are numbered from 1 on; 0 is none.
const MOST: u32 = 1024;

// The place that stays empty. It is no area's. A walk that finds no place answers it and not an Option: nothing is known there, so that no caller tests for it.
const EMPTY: usize = 1024;

// How often a walk looks at a place: at the root, and once after each bit.
const LOOKS: u32 = 33;

// What is known of an area: numbers and no enum, since they stand in the lent array, which may have any. Of an area of which nothing is known:
pub const NOTHING: u32 = 0;

// Of an area that is allocated:
pub const ALLOCATED: u32 = 1;

// Of an area that was inserted:
pub const INSERTED: u32 = 2;

// The root for an area: the high ten bits of the low word of a product.
fn root_of(area: u32) -> usize
    ensures { (result ≡ root area) × (result < 1024) }
{
    ((area as u64) * 2654435769 % 4294967296 / 4194304) as usize
}

// The node at a place, or 0.
fn node_at(nodes: &[u32; NODES], p: usize) -> usize
    requires { p < 5124 }
    ensures { (result ≡ node_at nodes.now p) × (result ≤ 1024) }
{
    let k = nodes[p] as usize;
    if 1024 < k {
        return 0;
    }
    k
}

// The place of an area, or the empty one that its node would take; EMPTY where no look finds it.
fn place_of(nodes: &[u32; NODES], area: u32) -> usize
    ensures { (result ≡ place_of nodes.now area) × (result < 5124) }
{
    let mut p = root_of(area);
    let mut rest = area;
    for _looked in 0..LOOKS {
        let k = node_at(nodes, p);
        if (k == 0) | (nodes[1024 + 4 * k] == area) {
            return p;
        }
        p = 1026 + 4 * k + (rest % 2) as usize;
        rest = rest / 2;
    }
    EMPTY
}

// Nothing is known of any area.
pub fn clear(nodes: &mut [u32; NODES])
    ensures { HoldsAreas nodes.new 0 (λ _. 0) }
{
    *nodes = [0; NODES];
}

// What is known of an area.
pub fn state_of(nodes: &[u32; NODES], area: u32) -> u32
    ensures { (count : ℕ) (f : ℕ → ℕ) → HoldsAreas nodes.now count f → result ≡ f area }
{
    let k = node_at(nodes, place_of(nodes, area));
    if k == 0 {
        return NOTHING;
    }
    nodes[1025 + 4 * k]
}

// An area of which nothing is known is allocated, by the node after the first `count`. Nothing changes where there is no room, or the area has a node.
pub fn allocate(nodes: &mut [u32; NODES], count: u32, area: u32)
    ensures { (f : ℕ → ℕ) → count < 1024 → HoldsAreas nodes.old count f → f area ≡ 0 → HoldsAreas nodes.new (count + 1) (λ x. cond (eqb x area) 1 (f x)) }
{
    if MOST <= count {
        return;
    }
    let p = place_of(nodes, area);
    if node_at(nodes, p) != 0 {
        return;
    }
    let n = count + 1;
    let at = 1024 + 4 * (n as usize);
    nodes[at] = area;
    nodes[at + 1] = ALLOCATED;
    nodes[at + 2] = 0;
    nodes[at + 3] = 0;
    nodes[p] = n;
}

// An area that has a node is inserted from now on. Nothing changes where it has none.
pub fn insert(nodes: &mut [u32; NODES], area: u32)
    ensures { (count : ℕ) (f : ℕ → ℕ) → HoldsAreas nodes.old count f → f area ≡ 1 → HoldsAreas nodes.new count (λ x. cond (eqb x area) 2 (f x)) }
{
    let k = node_at(nodes, place_of(nodes, area));
    if k == 0 {
        return;
    }
    nodes[1025 + 4 * k] = INSERTED;
}
