// From the bytes of an input to the line that `admit` writes.
#![tactic(auto)]

ghost use Rattle.std.specs.Prelude.{◌≡◌};
ghost use Rattle.sheet.specs.Head.{limits};
ghost use Rattle.admission.specs.Admission.{admit_of, admit_line};

use answers::Verdict;
use igvm_defs::Refusal;
use line::Line;

// The most bytes that are taken.
const INPUT_BYTES: usize = 65536;

// The verdict; an input of more bytes than are taken is 3, before all else.
fn verdict(s: &[u8]) -> Verdict
    ensures { result ≡ admit_of limits s.now }
{
    if INPUT_BYTES < s.len() {
        return Verdict {
            refusal: Refusal {
                number: 3,
                row: 0,
                detail: 0,
            },
            platforms: 0,
            initializations: 0,
            directives: 0,
        };
    }
    igvm_file::IgvmFile::new(s).verdict
}

pub fn admit_line(s: &[u8]) -> Line
    ensures { result ≡ admit_line limits s.now }
{
    line::line_of(verdict(s))
}
