// What is known of each area, by its index (specs/AreaTable.antt): small indexes have a place of their own, others are found in a tree by their bits. A table
// has as many nodes as a sheet asks for.
#![tactic(auto)]

ghost use Rattle.std.specs.Prelude.{cond, ◌&&◌, ◌≢◌, ◌≡◌, ℕ, ◌+◌, ◌*◌, ◌<◌, ◌≤◌, eqb, length, get_or, MatchOption};
ghost use Rattle.area_table.specs.AreaTable.{root, place_of, state_at, PlaceOf, Tree};
ghost use Rattle.area_table.specs.States.{state_code, state_told};

// Areas below this have a place of their own.
pub const FEW: usize = 1024;

// The areas that a tiny table has nodes for, and a small one. A large one has a node for each directive row that a sheet may have.
pub const TINY: usize = 256;

pub const SMALL: usize = 1024;

// The nodes of each. They are numbered from 1 on; node 0 is none.
pub const TINY_NODES: usize = TINY + 1;

pub const SMALL_NODES: usize = SMALL + 1;

pub const LARGE_NODES: usize = 8193;

// The places for nodes of each: 1,024 roots, then two children for each node.
pub const TINY_LINKS: usize = 1538;

pub const SMALL_LINKS: usize = 3074;

pub const LARGE_LINKS: usize = 17410;

// The place that has the number of nodes. It is no area's.
const COUNT: usize = 1024;

// How often a walk looks at a place: at the root, and once after each bit.
const LOOKS: u32 = 33;

// What a table has of an area of which nothing is known.
pub const NOTHING: u8 = 0;

// Of an area that is allocated.
pub const ALLOCATED: u8 = 1;

// Of an area that was inserted.
pub const INSERTED: u8 = 2;

// What is told of an area of which the table can't tell.
pub const UNTOLD: u8 = 3;

// What is known of an area.
#[derive(Clone, Copy, PartialEq, Eq)]
pub enum AreaState {
    Nothing,
    Allocated,
    Inserted,
}

impl AreaState {
    // The number that stands for it in a table.
    fn code(self) -> u8
        ensures { result ≡ state_code self }
    {
        match self {
            AreaState::Nothing => NOTHING,
            AreaState::Allocated => ALLOCATED,
            AreaState::Inserted => INSERTED,
        }
    }

    // What a number of a table stands for.
    #[tactic(auto, unfolding(crate::specs::States::state_told))]
    fn of(code: u8) -> Option<AreaState>
        ensures { result ≡ state_told code }
    {
        match code {
            NOTHING => Some(AreaState::Nothing),
            ALLOCATED => Some(AreaState::Allocated),
            INSERTED => Some(AreaState::Inserted),
            _ => None,
        }
    }
}

// What is known of the areas below FEW, as numbers: an array of bytes is cleared at once. The places for nodes, and of each node its area and what is known of it.
#[derive(Drop)]
pub struct AreaTable<const LINKS: usize, const NODES: usize> {
    few: [u8; FEW],
    links: [u16; LINKS],
    areas: [u32; NODES],
    states: [u8; NODES],
    ghost tree: { Tree links areas states },
}

// The root for an area: the high ten bits of the low word of a product.
fn root_of(area: u32) -> usize
    ensures { (result ≡ root area) × (result < 1024) }
{
    ((area as u64) * 2654435769 % 4294967296 / 4194304) as usize
}

impl<const LINKS: usize, const NODES: usize> AreaTable<LINKS, NODES> {
    ghost use Rattle.area_table.specs.Table.{state_by, Knows};

    // A table in which nothing is known of any area.
    pub fn new() -> AreaTable<LINKS, NODES>
        requires { (LINKS ≡ 1024 + 2 * NODES) × (0 < NODES) × (NODES ≤ 65536) }
        ensures { Knows result (λ _. 0) }
    {
        AreaTable {
            few: [0; FEW],
            links: [0; LINKS],
            areas: [0; NODES],
            states: [0; NODES],
        }
    }

    // The table of these arrays: the number of each area below FEW, the links between nodes, and of each node its area and the number of what is known of it.
    pub fn of(
        few: [u8; FEW],
        links: [u16; LINKS],
        areas: [u32; NODES],
        states: [u8; NODES],
    ) -> AreaTable<LINKS, NODES>
        requires { Tree links areas states }
        ensures { (result.few ≡ few) × (result.links ≡ links.entry) × (result.areas ≡ areas.entry) × (result.states ≡ states.entry) }
    {
        AreaTable {
            few,
            links,
            areas,
            states,
        }
    }

    // The place of an area, or the empty one that its node would take; none where no look finds it.
    fn place_of(&self, area: u32) -> Option<usize>
        ensures { MatchOption result (place_of self.now.links self.now.areas area ≡ 1024) (λ p. PlaceOf self.now.links self.now.areas area p × (p < LINKS)) }
    {
        let mut p = root_of(area);
        let mut rest = area;
        for _looked in 0..LOOKS {
            let k = self.links[p] as usize;
            if (k == 0) | (self.areas[k] == area) {
                return Some(p);
            }
            p = 1024 + 2 * k + (rest % 2) as usize;
            rest = rest / 2;
        }
        None
    }

    // What is known of an area by its place, as a number.
    fn state_at(&self, p: usize) -> u8
        requires { (p < LINKS) × (p ≢ 1024) }
        ensures { result ≡ state_at self.now.links self.now.states p }
    {
        let k = self.links[p] as usize;
        if k != 0 {
            return self.states[k];
        }
        if (self.links[COUNT] as usize) + 1 < NODES {
            return NOTHING;
        }
        UNTOLD
    }

    // What is known of an area, as a number: whatever the table has of it, and UNTOLD where it can't tell.
    pub fn code_of(&self, area: u32) -> u8
        ensures { result ≡ state_by self.now area }
    {
        let a = area as usize;
        if a < FEW {
            return self.few[a];
        }
        match self.place_of(area) {
            Some(p) => self.state_at(p),
            None => UNTOLD,
        }
    }

    // What is known of an area, where the table can tell.
    pub fn state_of(&self, area: u32) -> Option<AreaState>
        ensures { result ≡ state_told (state_by self.now area) }
    {
        AreaState::of(self.code_of(area))
    }

    // Whether the area is known to be in this state.
    pub fn is(&self, area: u32, state: AreaState) -> bool
        ensures { result ≡ eqb (state_by self.now area) (state_code state) }
    {
        self.code_of(area) == state.code()
    }

    // The next node is the area's, and the empty place p is to it.
    fn add(&mut self, p: usize, area: u32, state: u8)
        requires place { PlaceOf self.old.links self.old.areas area p × (p < LINKS) × (1024 ≤ area) }
        requires empty { (get_or self.old.links p 0 ≡ 0) × (get_or self.old.links 1024 0 + 1 < NODES) }
        ensures { (f : ℕ → ℕ) → Knows self.old f → Knows self.new (λ x. cond (eqb x area) state (f x)) }
    {
        let m = self.links[COUNT] + 1;
        let n = m as usize;
        self.areas[n] = area;
        self.states[n] = state;
        self.links[p] = m;
        self.links[COUNT] = m;
    }

    // Where the table has the first of two numbers of an area, it has the second from now on, and of every other area the same is known as before. Else nothing
    // changes.
    pub fn change_code(&mut self, area: u32, from: u8, to: u8) -> bool
        requires { from ≢ 3 }
        ensures value { result ≡ eqb (state_by self.old area) from }
        ensures by_index { (f : ℕ → ℕ) → Knows self.old f → Knows self.new (λ x. cond (result && eqb x area) to (f x)) }
    {
        let a = area as usize;
        if a < FEW {
            if self.few[a] != from {
                return false;
            }
            self.few[a] = to;
            return true;
        }
        let Some(p) = self.place_of(area) else {
            return false;
        };
        if self.state_at(p) != from {
            return false;
        }
        let k = self.links[p] as usize;
        if k != 0 {
            self.states[k] = to;
        } else {
            self.add(p, area, to);
        }
        true
    }

    // Where the area is in the first of two states, it is in the second from now on, and of every other area the same is known as before. Else nothing changes.
    pub fn change(&mut self, area: u32, from: AreaState, to: AreaState) -> bool
        ensures value { result ≡ eqb (state_by self.old area) (state_code from) }
        ensures by_index { (f : ℕ → ℕ) → Knows self.old f → Knows self.new (λ x. cond (result && eqb x area) (state_code to) (f x)) }
    {
        self.change_code(area, from.code(), to.code())
    }
}
