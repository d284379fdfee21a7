// What each query on the regions of a mask begins with: the verdict on the sheet, then 35; and how it answers.
#![tactic(auto)]

ghost use Rattle.std.specs.Prelude.{◌≡◌, ℕ, true, false, ◌≤◌, ◌<◌, MatchResult};
ghost use Rattle.igvm_defs.specs.Refusals.{refusal, no_refusal, is_fault, is_refusal, Passes};
ghost use Rattle.sheet.specs.Head.{initialization_rows, limits, head_of, start_fault};
ghost use Rattle.answers.specs.Relocations.{query_refusal};
ghost use Rattle.query.specs.KeptFor.{KeptWithPlaces};

use answers::Answered;
use by_start::KeptRegions;
use igvm_defs::Refusal;
use sheet::{ReadableSheet, SheetHead};

// ---- refusals and answers

// The refusal of the sheet as a whole, of this number.
pub fn refusal(number: u64) -> Refusal
    ensures { result ≡ refusal number 0 0 }
{
    Refusal {
        number,
        row: 0,
        detail: 0,
    }
}

// Err of it where the test holds.
pub fn refuse_if(test: bool, number: u64) -> Result<(), Refusal>
    ensures { MatchResult result (λ _. test ≡ false) (λ e. (test ≡ true) × (e ≡ refusal number 0 0)) }
{
    if test {
        return Err(refusal(number));
    }
    Ok(())
}

// The answer of a call by a number.
pub fn answered(answer: Result<u64, Refusal>) -> Answered
    ensures { MatchResult answer (λ n. result ≡ record { refusal = no_refusal; answer = n }) (λ r. result ≡ record { refusal = r; answer = 0 }) }
{
    match answer {
        Ok(answer) => Answered {
            refusal: Refusal::NONE,
            answer,
        },
        Err(refusal) => Answered { refusal, answer: 0 },
    }
}

// ---- the verdict, then 35

// The head of a sheet whose head and table are in order.
pub fn read_head(s: &[u8]) -> Result<SheetHead, Refusal>
    ensures { MatchResult result (λ h. (is_fault (start_fault limits s.now) ≡ false) × (h ≡ head_of s.now) × (h.initializations ≤ initialization_rows)) (λ e. (given : ℕ) → (e ≡ query_refusal limits s.now given) × (is_refusal (query_refusal limits s.now given) ≡ true)) }
{
    match sheet::read_head(s) {
        Ok(head) => Ok(head),
        Err(fault) => Err(fault.in_row(0)),
    }
}

// Keeps the regions of an accepted sheet, for a mask that is not 0.
pub fn keep_for<const N: usize, const M: usize>(
    s: &[u8],
    head: SheetHead,
    given: u32,
    kept: &mut KeptRegions<N, M>,
) -> Result<(), Refusal>
    requires s_value { (is_fault (start_fault limits s.now) ≡ false) × (head ≡ head_of s.now) }
    requires room { (head.initializations ≤ N) × (head.initializations < M) }
    ensures { Passes result (query_refusal limits s.now given) (λ _. KeptWithPlaces s.now given kept.new) }
{
    let mut contexts: [u32; 3] = [0; 3];
    judge::judge(s, head, kept, &mut contexts)?;
    refuse_if(given == 0, 35)
}

fn accepted_in<'a, const N: usize, const M: usize>(
    s: &'a [u8],
    head: SheetHead,
    given: u32,
) -> Result<ReadableSheet<'a>, Refusal>
    requires s_value { (is_fault (start_fault limits s.now) ≡ false) × (head ≡ head_of s.now) }
    requires room { (head.initializations ≤ N) × (head.initializations < M) × (N ≤ 64) × (M ≤ 65) }
    ensures { Passes result (query_refusal limits s.now given) (λ sheet. sheet.bytes.now ≡ s.now) }
{
    let mut kept: KeptRegions<N, M> = KeptRegions::new();
    keep_for(s, head, given, &mut kept)?;
    Ok(ReadableSheet { bytes: s, head })
}

// An accepted sheet, where the mask is not 0. Up to four initialization rows small arrays take less time to clear.
pub fn accepted<'a>(s: &'a [u8], given: u32) -> Result<ReadableSheet<'a>, Refusal>
    ensures { Passes result (query_refusal limits s.now given) (λ sheet. sheet.bytes.now ≡ s.now) }
{
    let head = read_head(s)?;
    if head.initializations <= 4 {
        return accepted_in::<4, 5>(s, head, given);
    }
    accepted_in::<{ SheetHead::INITIALIZATION_ROWS }, { SheetHead::INITIALIZATION_PLACES }>(
        s, head, given,
    )
}
