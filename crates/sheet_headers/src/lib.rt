// The header of a row of a sheet, at a cursor.
#![tactic(auto)]

ghost use Rattle.std.specs.Prelude.{◌≡◌, ◌+◌};
ghost use Rattle.igvm_defs.specs.Kinds.{kind_of};
ghost use Rattle.sheet.specs.Table.{row_kind, body_of};
ghost use Rattle.sheet.specs.Walk.{cursor_at, AtRow};

use header::Header;
use sheet::Cursor;

// A row's header, and the cursor at the row after it.
#[derive(Clone, Copy)]
pub struct HeaderRow<H> {
    pub header: H,
    pub next: Cursor,
}

// The row that the cursor stands at, of the list that H is of.
pub fn header_at<H: Header>(s: &[u8], c: Cursor) -> HeaderRow<H>
    requires at_row { AtRow s.now c }
    requires row_value { (kind_of (row_kind s.now c.row)).list ≡ H.list }
    ensures { (result.header ≡ H.header_of (row_kind s.now c.row) (body_of s.now c.row)) × (result.next ≡ cursor_at s.now (c.row + 1)) }
{
    let row = sheet_reader::cursor_row(s, c);
    HeaderRow {
        header: H::decode(row.kind, sheet_reader::cursor_body(s, c)),
        next: row.next,
    }
}
