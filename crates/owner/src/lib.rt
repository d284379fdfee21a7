// Which region of a mask owns an address, and the index of a mask's regions, from any byte string. The regions are those that the verdict has kept, in order of their starts.
#![tactic(auto)]

ghost use Rattle.std.specs.Prelude.{◌≡◌, true, false, cond, List, ℕ, ◌+◌, ◌*◌, ◌≤◌, ◌<◌, length, get_or};
ghost use Rattle.rows.specs.Below.{count_below};
ghost use Rattle.masks.specs.Masks.{matches};
ghost use Rattle.igvm_defs.specs.Refusals.{is_fault, Passes};
ghost use Rattle.lent.specs.Lent.{word_put, words_put};
ghost use Rattle.sheet.specs.Head.{initialization_rows, limits, head_of, start_fault};
ghost use Rattle.sheet_headers.specs.Headers.{sheet_headers};
ghost use Rattle.by_start.specs.ByStart.{ByStart};
ghost use Rattle.rules.specs.Owner.{owner_of, index_count, index_word};
ghost use Rattle.answers.specs.Relocations.{sheet_initializations, query_refusal};
ghost use Rattle.answers.specs.Owner.{region_owner_of, index_refusal, region_index_of, index_after};
ghost use Rattle.query.specs.KeptFor.{KeptFor};

use answers::Answered;
use by_start::KeptRegions;
use igvm_defs::Refusal;
use reloc_regions::RelocRegions;
use sheet::SheetHead;

// ---- the owner of an address

fn owner_in<const N: usize, const M: usize>(
    s: &[u8],
    head: SheetHead,
    given: u32,
    gpa: u64,
) -> Result<u64, Refusal>
    requires s_value { (is_fault (start_fault limits s.now) ≡ false) × (head ≡ head_of s.now) }
    requires room { (head.initializations ≤ N) × (head.initializations < M) × (N ≤ 64) × (M ≤ 65) }
    ensures { Passes result (query_refusal limits s.now given) (λ row. row ≡ owner_of (sheet_headers s.now) given gpa) }
{
    let mut kept: KeptRegions<N, M> = KeptRegions::new();
    query::keep_for(s, head, given, &mut kept)?;
    Ok(kept.order.owner(&kept.regions, &kept.rows, given, gpa) as u64)
}

// Up to four initialization rows small arrays take less time to clear.
fn owner(s: &[u8], given: u32, gpa: u64) -> Result<u64, Refusal>
    ensures { Passes result (query_refusal limits s.now given) (λ row. row ≡ owner_of (sheet_headers s.now) given gpa) }
{
    let head = query::read_head(s)?;
    if head.initializations <= 4 {
        return owner_in::<4, 5>(s, head, given, gpa);
    }
    owner_in::<{ SheetHead::INITIALIZATION_ROWS }, { SheetHead::INITIALIZATION_PLACES }>(
        s, head, given, gpa,
    )
}

// The row of the region of the mask that contains the address, or 0.
pub fn region_of(s: &[u8], given: u32, gpa: u64) -> Answered
    ensures { result ≡ region_owner_of limits s.now given gpa }
{
    query::answered(owner(s, given, gpa))
}

// ---- the index, into lent bytes

// How many of the regions are for the mask, of either kind.
fn count_of<const N: usize>(held: &RelocRegions<N>, given: u32) -> usize
    requires { held.now.count ≤ N }
    ensures { (result ≡ count_below held.now.count (λ e. matches given (get_or held.now.mask e 0))) × (result ≤ held.now.count) }
{
    let mut count = 0;
    for i in 0..held.count {
        count += masks::matches(given, held.mask[i]) as usize;
    }
    count
}

// Start, size and row of a region as words 3 k to 3 k + 2, where it is for the mask; how many regions have words then.
fn put_region(words: &mut [u8], k: usize, wanted: bool, start: u64, size: u64, row: u16) -> usize
    requires { (wanted ≡ true → 24 * k + 24 ≤ length words.old) × (k ≤ initialization_rows) }
    ensures value { result ≡ cond wanted (k + 1) k }
    ensures words_after { words.new ≡ cond wanted (word_put (3 * k + 2) row (word_put (3 * k + 1) size (word_put (3 * k) start words.old))) words.old }
{
    if !wanted {
        return k;
    }
    lent::put_word(words, 3 * k, start);
    lent::put_word(words, 3 * k + 1, size);
    lent::put_word(words, 3 * k + 2, row as u64);
    k + 1
}

// The regions of the mask, in order of start, three words each.
fn put_index<const N: usize, const M: usize>(kept: &KeptRegions<N, M>, given: u32, words: &mut [u8])
    requires in_bounds { (kept.now.regions.count ≤ N) × (kept.now.regions.count < M) × (kept.now.regions.count ≤ initialization_rows) }
    requires by_start { ByStart kept.now.order.next kept.now.regions.gpa kept.now.regions.count × (24 * count_below kept.now.regions.count (λ e. matches given (get_or kept.now.regions.mask e 0)) ≤ length words.old) }
    ensures { (s : List ℕ) → KeptFor s given kept.now → words.new ≡ words_put 0 (3 * count_below kept.now.regions.count (λ e. matches given (get_or kept.now.regions.mask e 0))) (index_word (sheet_headers s) given) words.old }
{
    let regions = &kept.regions;
    let mut q = kept.order.next[0] as usize;
    let mut k = 0;
    for i in 0..regions.count {
        let e = q - 1;
        k = put_region(
            words,
            k,
            masks::matches(given, regions.mask[e]),
            regions.gpa[e],
            regions.size[e],
            kept.rows[e],
        );
        q = kept.order.next[q] as usize;
    }
}

fn index_in<const N: usize, const M: usize>(
    s: &[u8],
    head: SheetHead,
    given: u32,
    words: &mut [u8],
) -> Result<u64, Refusal>
    requires s_value { (is_fault (start_fault limits s.now) ≡ false) × (head ≡ head_of s.now) }
    requires room { (head.initializations ≤ N) × (head.initializations < M) × (N ≤ 64) × (M ≤ 65) }
    ensures value { Passes result (index_refusal limits s.now given (length words.old)) (λ n. n ≡ index_count (sheet_initializations s.now) given) }
    ensures words_after { words.new ≡ index_after limits s.now given words.old }
{
    let mut kept: KeptRegions<N, M> = KeptRegions::new();
    query::keep_for(s, head, given, &mut kept)?;
    let count = count_of(&kept.regions, given);
    query::refuse_if(words.len() / 8 < 3 * count, 37)?;
    put_index(&kept, given, words);
    Ok(count as u64)
}

// After the refusals of an owner, 37.
fn index(s: &[u8], given: u32, words: &mut [u8]) -> Result<u64, Refusal>
    ensures value { Passes result (index_refusal limits s.now given (length words.old)) (λ n. n ≡ index_count (sheet_initializations s.now) given) }
    ensures words_after { words.new ≡ index_after limits s.now given words.old }
{
    let head = query::read_head(s)?;
    if head.initializations <= 4 {
        return index_in::<4, 5>(s, head, given, words);
    }
    index_in::<{ SheetHead::INITIALIZATION_ROWS }, { SheetHead::INITIALIZATION_PLACES }>(
        s, head, given, words,
    )
}

// Start, size and row of each region of the mask, in order of start, as words in the lent bytes; how many regions there are.
pub fn region_index(s: &[u8], given: u32, words: &mut [u8]) -> Answered
    ensures value { result ≡ region_index_of limits s.now given (length words.old) }
    ensures words_after { words.new ≡ index_after limits s.now given words.old }
{
    query::answered(index(s, given, words))
}
