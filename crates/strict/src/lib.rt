// The strict verdict, from any byte string: the verdict, and where it accepts, 38 over the regions and the masks of contexts that it has kept. The sheet is gone over once.
#![tactic(auto)]

ghost use Rattle.std.specs.Prelude.{◌≡◌, ◌≤◌, ◌<◌, ⊤, false};
ghost use Rattle.rows.specs.Below.{any_below};
ghost use Rattle.igvm_defs.specs.Refusals.{fault, is_fault, in_row, Passes};
ghost use Rattle.sheet.specs.Head.{limits, head_of, start_fault};
ghost use Rattle.rules.specs.Headers.{Headers};
ghost use Rattle.rules.specs.Strict.{contexts_refusal};
ghost use Rattle.contexts.specs.Contexts.{lacks_bit};
ghost use Rattle.initialization_check.specs.Record.{HoldsRegions, HoldsRows};
ghost use Rattle.directive_check.specs.Record.{HoldsContexts};
ghost use Rattle.answers.specs.Strict.{strict_refusal, strict_verdict_of};

use answers::Verdict;
use by_start::KeptRegions;
use igvm_defs::{Fault, Refusal};
use sheet::SheetHead;

// 38, with the region's row and the bit.
fn bit_refusal(row: u16, bit: u32) -> Refusal
    ensures { result ≡ in_row row (fault 38 bit) }
{
    Fault {
        number: 38,
        detail: bit as u64,
    }
    .in_row(row as u64)
}

// 38 of the regions kept, each with its row; those before `from` are known to have no bit without a context.
#[tactic(auto, using(crate::proofs::KeptLaws::lacking))]
pub fn validate_contexts<const N: usize, const M: usize>(
    kept: &KeptRegions<N, M>,
    from: usize,
    contexts: &[u32; 3],
) -> Result<(), Refusal>
    requires { (kept.now.regions.count ≤ N) × (from ≤ kept.now.regions.count) × (any_below from (lacks_bit kept.now.regions.mask kept.now.regions.vtl contexts.now) ≡ false) }
    ensures { (f : Headers) → HoldsRegions kept.now.regions f.initializations → HoldsRows f.platforms.count kept.now.rows kept.now.regions f.initializations → HoldsContexts contexts.now f.directives → Passes result (contexts_refusal f) (λ _. ⊤) }
{
    let regions = &kept.regions;
    match contexts::first_lacking(regions, from, contexts) {
        None => Ok(()),
        Some(i) => match contexts::lowest_lacking(contexts, regions.mask[i], regions.vtl[i]) {
            None => Ok(()),
            Some(bit) => Err(bit_refusal(kept.rows[i], bit)),
        },
    }
}

// The strict verdict on a sheet, whose regions come into a record that has none, and are first asked four at a time.
#[tactic(auto, using(crate::proofs::KeptLaws::strict_verdicts))]
fn judge_strictly<const N: usize, const M: usize>(
    s: &[u8],
    head: SheetHead,
    kept: &mut KeptRegions<N, M>,
) -> Result<(), Refusal>
    requires started { (is_fault (start_fault limits s.now) ≡ false) × (head ≡ head_of s.now) }
    requires room { ((head_of s.now).initializations ≤ N) × ((head_of s.now).initializations < M) }
    ensures { Passes result (strict_refusal limits s.now) (λ _. ⊤) }
{
    let mut contexts: [u32; 3] = [0; 3];
    judge::judge(s, head, kept, &mut contexts)?;
    let from = contexts::past_fours(&kept.regions, &contexts);
    validate_contexts(kept, from, &contexts)
}

// The head of a file that is strictly accepted, or the first refusal of 1 to 34, or 38. A small record takes less time to clear.
#[tactic(auto, using(crate::proofs::KeptLaws::strict_verdicts))]
fn strictly_judged(s: &[u8]) -> Result<SheetHead, Refusal>
    ensures { Passes result (strict_refusal limits s.now) (λ head. head ≡ head_of s.now) }
{
    let head = sheet::read_head(s).map_err(|f| f.in_row(0))?;
    if head.initializations <= 4 {
        let mut kept: KeptRegions<4, 5> = KeptRegions::new();
        judge_strictly(s, head, &mut kept)?;
    } else {
        let mut kept: KeptRegions<
            { SheetHead::INITIALIZATION_ROWS },
            { SheetHead::INITIALIZATION_PLACES },
        > = KeptRegions::new();
        judge_strictly(s, head, &mut kept)?;
    }
    Ok(head)
}

// The strict verdict on a sheet: accepted, or the first refusal of 1 to 34, or 38.
#[tactic(auto, using(crate::proofs::KeptLaws::strict_answers))]
pub fn strict_verdict(s: &[u8]) -> Verdict
    ensures { result ≡ strict_verdict_of limits s.now }
{
    match strictly_judged(s) {
        Ok(head) => validation::accepted(head),
        Err(refusal) => validation::refused(refusal),
    }
}
