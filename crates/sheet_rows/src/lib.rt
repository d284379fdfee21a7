// The rows of a sheet, read: refusals 4, 5, 1 and 6.
#![tactic(auto)]

ghost use Rattle.std.specs.Prelude.{◌≡◌, ◌+◌, ◌*◌, ◌≤◌, length, ⊤};
ghost use Rattle.igvm_defs.specs.Refusals.{Told, Passes};
ghost use Rattle.igvm_defs.specs.Kinds.{kind_of, kind_says, list_number};
ghost use Rattle.sheet.specs.Head.{head_of, bodies_at};
ghost use Rattle.sheet.specs.Table.{row_kind, offset_of};
ghost use Rattle.sheet.specs.Read.{list_at, codes_ok, row_fault, rows_refusal};
ghost use Rattle.sheet.specs.Walk.{ReadTo};

use igvm_defs::{Fault, Kind, Refusal, RowList};
use sheet::{Cursor, SheetHead};

// The list that row k stands in.
#[tactic(auto, unfolding(sheet::specs::Read::list_at))]
fn list_at(h: SheetHead, k: usize) -> RowList
    ensures { list_number result ≡ list_at h k }
{
    let p = h.platforms as usize;
    let i = h.initializations as usize;
    if k < p {
        return RowList::Platform;
    }
    if k < p + i {
        return RowList::Initialization;
    }
    RowList::Directive
}

// Whether the codes of a body are in range.
#[tactic(auto, unfolding(sheet::specs::Read::codes_ok, igvm_defs::specs::Kinds::kind_of, igvm_defs::specs::Kinds::spans))]
pub fn codes_ok(kind: u32, body: &[u8]) -> bool
    requires { (kind_of kind).least ≤ length body.now }
    ensures { result ≡ codes_ok kind body.now }
{
    match kind {
        18 => (body[47] <= 2) & (body[44] <= 7),
        19 => body[30] <= 2,
        44 => body[16] <= 1,
        47 => body[4] <= 2,
        48 => body[4] <= 2,
        _ => true,
    }
}

// 4, 5 (length), 1 or 5 (codes) of the row at the cursor, of which the table of kinds says t.
#[tactic(auto, unfolding(sheet::specs::Table::body_of, igvm_defs::specs::Refusals::is_fault, igvm_defs::specs::Kinds::kind_says, sheet::specs::Read::row_fault))]
fn check_row(s: &[u8], h: SheetHead, t: Kind, c: Cursor) -> Result<(), Fault>
    requires h_value { (h ≡ head_of s.now) × (24 + 8 * c.row ≤ length s.now) × (c.at ≡ offset_of s.now c.row) × (c.at ≤ length s.now) }
    requires t_value { kind_says t ≡ kind_of (row_kind s.now c.row) }
    ensures { Told result (row_fault s.now c.row) }
{
    let kind = sheet::kind_at(s, c.row);
    let len = sheet::length_at(s, c.row);
    igvm_defs::refuse_if(t.list != list_at(h, c.row), 4, 0)?;
    igvm_defs::refuse_if(!t.length_ok(len), 5, 0)?;
    igvm_defs::refuse_if(s.len() - c.at < len, 1, 0)?;
    igvm_defs::refuse_if(!codes_ok(kind, sheet::part(s, c.at, len)), 5, 0)
}

// The first row from the cursor on that is no page of data among the directives, long enough for its fields; else the place behind the last row. Most rows
// are such pages, and of one of them there is nothing else to test.
fn past_pages(s: &[u8], h: SheetHead, from: Cursor) -> Cursor
    requires { (h ≡ head_of s.now) × (bodies_at h ≤ length s.now) × ReadTo s.now from }
    ensures { ReadTo s.now result × (from.row ≤ result.row) }
{
    let n = h.rows();
    let mut c = from;
    if from.row < (h.platforms as usize) + (h.initializations as usize) {
        return c;
    }
    while c.row < n {
        let Some(r) = sheet_reader::row_from(s, c) else {
            return c;
        };
        if r.kind != 32 {
            return c;
        }
        if r.length < 18 {
            return c;
        }
        c = sheet_reader::after(c, r);
    }
    c
}

// The first refusal of the rows, then of bytes left over, where no row before the cursor has one.
pub fn read_from(s: &[u8], h: SheetHead, from: Cursor) -> Result<(), Refusal>
    requires { (h ≡ head_of s.now) × (bodies_at h ≤ length s.now) × ReadTo s.now from }
    ensures { Passes result (rows_refusal s.now) (λ _. ⊤) }
{
    let kinds = igvm_defs::kinds();
    let n = h.rows();
    let mut c = from;
    while c.row < n {
        let i = igvm_defs::kind_index(sheet::kind_at(s, c.row));
        let number = (c.row + 1) as u64;
        check_row(s, h, kinds[i], c).map_err(|f| f.in_row(number))?;
        c = past_pages(s, h, sheet_reader::place_after(s, c));
    }
    igvm_defs::refuse_if(c.at < s.len(), 6, 0).map_err(|f| f.in_row(0))
}
