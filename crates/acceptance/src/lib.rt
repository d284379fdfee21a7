// One pass over the rows of a sheet, from its bytes, that only accepts: list after list, as far as each row is in order. Where it ends early, the passes over
// the headers say what is wrong, if anything is.
#![tactic(auto)]

ghost use Rattle.std.specs.Prelude.{◌≡◌, false, [], ◌∷◌, ◌≤◌, ◌<◌, MatchOption};
ghost use Rattle.igvm_defs.specs.Refusals.{is_fault};
ghost use Rattle.igvm_defs.specs.Revision.{is_x64};
ghost use Rattle.sheet.specs.Head.{limits, head_of, first_directive, row_count, start_fault};
ghost use Rattle.sheet.specs.Walk.{ReadTo};
ghost use Rattle.sheet_headers.specs.Headers.{sheet_headers};
ghost use Rattle.directive_accept.specs.Accepted.{DirectivesAccepted};
ghost use Rattle.acceptance.specs.Accepted.{RowsAccepted, ListsAccepted};

use by_start::KeptRegions;
use sheet::Cursor;

// The directive rows, bytes left over, and 34, behind platform and initialization rows in order. None where all is in order, else the first row not passed.
fn accept_directives<const N: usize, const M: usize>(
    s: &[u8],
    from: Cursor,
    rows: usize,
    x64: bool,
    kept: &KeptRegions<N, M>,
    contexts: &mut [u32; 3],
) -> Option<Cursor>
    requires s_value { (is_fault (start_fault limits s.now) ≡ false) × (rows ≡ row_count (head_of s.now)) × (x64 ≡ is_x64 (sheet_headers s.now).arch) }
    requires lists_accepted { ListsAccepted s.now kept.now from × (kept.now.regions.count ≤ N) × (contexts.old ≡ (0 ∷ 0 ∷ 0 ∷ [])) }
    ensures { MatchOption result (RowsAccepted s.now kept.now.regions kept.now.rows kept.now.order.next contexts.new) (λ at. DirectivesAccepted s.now at contexts.new) }
{
    let at = directive_accept::accept(s, from, rows, x64, &kept.regions, contexts);
    if (at.row < rows) | (at.at < s.len()) {
        return Some(at);
    }
    if contexts::any_lacks(&kept.regions, contexts) {
        return Some(at);
    }
    None
}

// The rows of a sheet of p platform rows, i initialization rows and `rows` in all: none where all are in order, else the first row that was not passed. `kept`
// gets the regions; the masks become those of the contexts among the directive rows passed.
pub fn accept<const N: usize, const M: usize>(
    s: &[u8],
    p: usize,
    i: usize,
    rows: usize,
    x64: bool,
    kept: &mut KeptRegions<N, M>,
    contexts: &mut [u32; 3],
) -> Option<Cursor>
    requires s_value { (is_fault (start_fault limits s.now) ≡ false) × (p ≡ (head_of s.now).platforms) × (i ≡ (head_of s.now).initializations) × (rows ≡ row_count (head_of s.now)) × (x64 ≡ is_x64 (sheet_headers s.now).arch) }
    requires room { (i ≤ N) × (i < M) }
    requires contexts_value { contexts.old ≡ (0 ∷ 0 ∷ 0 ∷ []) }
    ensures { MatchOption result (RowsAccepted s.now kept.new.regions kept.new.rows kept.new.order.next contexts.new) (λ at. ReadTo s.now at × (first_directive s.now ≤ at.row → DirectivesAccepted s.now at contexts.new)) }
{
    let first = platform_accept::accept(s, Cursor::new(rows), p, x64);
    let a = first.at;
    if (a.row < p) | (p == 0) {
        return Some(a);
    }
    let b = initialization_accept::accept(s, a, p + i, x64, first.cca, kept);
    if b.row < p + i {
        return Some(b);
    }
    accept_directives(s, b, rows, x64, kept, contexts)
}
