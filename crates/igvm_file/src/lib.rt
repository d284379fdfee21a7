// The verdict: IgvmFile::new, from any byte string. Who only wants the verdict keeps nothing: what is found of a file is a local, with room for 4 or for 64 regions.
#![tactic(auto)]

ghost use Rattle.std.specs.Prelude.{◌≡◌};
ghost use Rattle.igvm_defs.specs.Refusals.{Passes};
ghost use Rattle.sheet.specs.Head.{limits, head_of};
ghost use Rattle.answers.specs.Verdict.{verdict_refusal, verdict_of};

use answers::Verdict;
use by_start::KeptRegions;
use igvm_defs::Refusal;
use sheet::SheetHead;

// The head of an accepted file, or the first refusal of 1 to 34. A small record takes less time to clear.
#[tactic(auto, using(validation::proofs::VerdictLaws::verdicts))]
fn judged(s: &[u8]) -> Result<SheetHead, Refusal>
    ensures { Passes result (verdict_refusal limits s.now) (λ head. head ≡ head_of s.now) }
{
    let head = sheet::read_head(s).map_err(|f| f.in_row(0))?;
    let mut contexts: [u32; 3] = [0; 3];
    if head.initializations <= 4 {
        let mut kept: KeptRegions<4, 5> = KeptRegions::new();
        judge::judge(s, head, &mut kept, &mut contexts)?;
    } else {
        let mut kept: KeptRegions<
            { SheetHead::INITIALIZATION_ROWS },
            { SheetHead::INITIALIZATION_PLACES },
        > = KeptRegions::new();
        judge::judge(s, head, &mut kept, &mut contexts)?;
    }
    Ok(head)
}

// A file that was offered: accepted, or the first refusal of 1 to 34.
#[derive(Clone, Copy)]
pub struct IgvmFile {
    pub verdict: Verdict,
}

impl IgvmFile {
    #[tactic(auto, using(validation::proofs::VerdictLaws::answers))]
    pub fn new(s: &[u8]) -> IgvmFile
        ensures { result.verdict ≡ verdict_of limits s.now }
    {
        let verdict = match judged(s) {
            Ok(head) => validation::accepted(head),
            Err(refusal) => validation::refused(refusal),
        };
        IgvmFile { verdict }
    }
}
