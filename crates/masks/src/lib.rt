// Compatibility masks: shared bits, one-bit masks, and the set bits of a mask.
#![tactic(auto)]

ghost use Rattle.std.specs.Prelude.{◌≡◌, cond, not, [], ◌∷◌, ◌++◌, ◌+◌, ◌-◌, ◌≤◌, ◌<◌, eqb, take};
ghost use Rattle.rows.specs.Answered.{option_of};
ghost use Rattle.masks.specs.Masks.{shares, matches, is_one_bit, individual_masks, first_mask};
ghost use Rattle.masks.specs.Without.{without, lowest_bit};

#[tactic(auto, unfolding(crate::specs::Masks::shares))]
pub fn shares(m: u32, n: u32) -> bool
    ensures { result ≡ shares m n }
{
    m & n != 0
}

// The same of 64 bits. A generic one would ask for the operators and their laws by bounds, and be no plainer.
#[tactic(auto, unfolding(crate::specs::Masks::shares))]
pub fn shares_u64(m: u64, n: u64) -> bool
    ensures { result ≡ shares m n }
{
    m & n != 0
}

// The mask m holds every bit of the mask given.
#[tactic(auto, unfolding(crate::specs::Masks::matches))]
pub fn matches(given: u32, m: u32) -> bool
    ensures { result ≡ matches given m }
{
    m & given == given
}

// One bit is set: one less has none of the mask's bits. A count of the bits takes a dozen instructions.
pub fn is_one_bit(m: u32) -> bool
    ensures { result ≡ is_one_bit m }
{
    if m == 0 {
        return false;
    }
    m & (m - 1) == 0
}

// The bits of a mask that another has not.
#[tactic(auto, unfolding(crate::specs::Without::without))]
pub fn without(m: u32, held: u32) -> u32
    ensures { result ≡ without m held }
{
    m - (m & held)
}

// The lowest bit of a mask, as a mask; none where it has no bit. One less has all of its bits but that one.
#[tactic(auto, unfolding(crate::specs::Without::lowest_bit))]
fn lowest(m: u32) -> Option<u32>
    ensures { option_of result ≡ lowest_bit m }
{
    if m == 0 {
        return None;
    }
    Some(m - (m & (m - 1)))
}

// The lowest bit of a mask that another has not, as a mask; none where it has them all.
pub fn lowest_without(m: u32, held: u32) -> Option<u32>
    ensures { option_of result ≡ first_mask (λ bit. not (shares held bit)) (individual_masks m) }
{
    lowest(without(m, held))
}

// Up to 32 masks of one bit each: the first `count` of the array.
#[derive(Clone, Copy)]
pub struct Masks {
    pub masks: [u32; 32],
    pub count: usize,
}

impl Masks {
    // One mask more, where its bit is set.
    fn with_bit(self, set: bool, bit: u32) -> Masks
        requires { self.count < 32 }
        ensures { (take result.count result.masks ≡ take self.count self.masks ++ cond set (bit ∷ []) []) × (result.count ≤ self.count + 1) }
    {
        if !set {
            return self;
        }
        let n = self.count;
        let mut next = self;
        next.masks[n] = bit;
        next.count = n + 1;
        next
    }
}

// The set bits of a mask, each as a mask, lowest first.
pub fn extract_individual_masks(m: u32) -> Masks
    ensures { (take result.count result.masks ≡ individual_masks m) × (result.count ≤ 32) }
{
    let mut out = Masks {
        masks: [0; 32],
        count: 0,
    };
    for k in 0..32u32 {
        let bit: u32 = 1 << k;
        out = out.with_bit(shares(m, bit), bit);
    }
    out
}
