// The verdict on a sheet whose head and table are in order, with what was found of an accepted file kept where it is lent: its regions, each with its row, and the masks of its contexts.
#![tactic(auto)]

ghost use Rattle.std.specs.Prelude.{◌≡◌, false, [], ◌∷◌, ◌≤◌, ◌<◌};
ghost use Rattle.igvm_defs.specs.Refusals.{is_fault, Passes};
ghost use Rattle.sheet.specs.Head.{limits, head_of, start_fault};
ghost use Rattle.answers.specs.Verdict.{verdict_refusal};
ghost use Rattle.keep.specs.Kept.{Kept};

use by_start::KeptRegions;
use igvm_defs::Refusal;
use sheet::SheetHead;

// The verdict on a sheet whose head and table are in order. Of an accepted file `kept` gets the regions, and the masks are those of the contexts.
pub fn judge<const N: usize, const M: usize>(
    s: &[u8],
    head: SheetHead,
    kept: &mut KeptRegions<N, M>,
    contexts: &mut [u32; 3],
) -> Result<(), Refusal>
    requires s_value { (is_fault (start_fault limits s.now) ≡ false) × (head ≡ head_of s.now) }
    requires room { ((head_of s.now).initializations ≤ N) × ((head_of s.now).initializations < M) }
    requires contexts_value { contexts.old ≡ (0 ∷ 0 ∷ 0 ∷ []) }
    ensures { Passes result (verdict_refusal limits s.now) (λ _. Kept s.now kept.new.regions kept.new.rows kept.new.order.next contexts.new) }
{
    let p = head.platforms as usize;
    let i = head.initializations as usize;
    let x64 = head.revision().arch().is_x64();
    if let Some(at) = acceptance::accept(s, p, i, head.rows(), x64, kept, contexts) {
        return validation::judge_from(s, head, at, kept, contexts);
    }
    validation::check_page_size(head)
}
