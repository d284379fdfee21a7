// The sheet reader keeps the sheet's bytes with a cursor: the row reached and where that row's body starts. It hands back the body's part of the sheet.
// Its methods are thin: what they answer is computed by functions on a slice and a cursor.
#![tactic(auto)]

ghost use Rattle.std.specs.Prelude.{◌≡◌, ◌+◌, ◌*◌, ◌≤◌, ◌<◌, length, take, drop};
ghost use Rattle.sheet.specs.Head.{head_of, row_count};
ghost use Rattle.sheet.specs.Table.{row_kind, body_of};
ghost use Rattle.sheet.specs.Walk.{cursor_at, AtRow};
ghost use Rattle.sheet_reader.specs.Reading.{row_of, read_at, cursor_after, reader_at, advanced};

use sheet::{Cursor, ReadableSheet};

#[derive(Clone, Copy)]
pub struct SheetReader<'a> {
    pub bytes: &'a [u8],
    pub cursor: Cursor,
}

// A row of the table of contents: kind and body length.
#[derive(Clone, Copy)]
pub struct SheetRow {
    pub kind: u32,
    pub length: usize,
}

// ---- at a row that the table has, whose body starts in the sheet

// The row; none where its body ends behind the sheet.
#[tactic(auto, unfolding(crate::specs::Reading::read_at))]
pub fn row_from(s: &[u8], c: Cursor) -> Option<SheetRow>
    requires { (24 + 8 * c.row ≤ length s.now) × (c.at ≤ length s.now) }
    ensures { result ≡ read_at s.now c.row c.at }
{
    let length = sheet::length_at(s, c.row);
    if s.len() - c.at < length {
        return None;
    }
    Some(SheetRow {
        kind: sheet::kind_at(s, c.row),
        length,
    })
}

// Its body's part of the sheet.
pub fn body_from(s: &[u8], c: Cursor, r: SheetRow) -> &[u8]
    requires { c.at + r.length ≤ length s.now }
    ensures { result.now ≡ take r.length (drop c.at s.now) }
{
    sheet::part(s, c.at, r.length)
}

// The place after it.
pub fn after(c: Cursor, r: SheetRow) -> Cursor
    requires { (c.row < 18446744073709551615) × (c.at + r.length < 18446744073709551616) }
    ensures { result ≡ cursor_after c r }
{
    Cursor {
        row: c.row + 1,
        at: c.at + r.length,
    }
}

// ---- at a cursor that stands at a row of a sheet: nothing is tested

pub fn row_at(s: &[u8], c: Cursor) -> SheetRow
    requires { AtRow s.now c }
    ensures { result ≡ row_of s.now c.row }
{
    SheetRow {
        kind: sheet::kind_at(s, c.row),
        length: sheet::length_at(s, c.row),
    }
}

// The body's part of the sheet.
#[tactic(auto, unfolding(sheet::specs::Table::body_of))]
pub fn body_at(s: &[u8], c: Cursor) -> &[u8]
    requires { AtRow s.now c }
    ensures { result.now ≡ body_of s.now c.row }
{
    body_from(s, c, row_at(s, c))
}

// The cursor at the row after it.
pub fn place_after(s: &[u8], c: Cursor) -> Cursor
    requires { AtRow s.now c }
    ensures { result ≡ cursor_at s.now (c.row + 1) }
{
    after(c, row_at(s, c))
}

// ---- the reader

impl<'a> SheetReader<'a> {
    pub fn open(bytes: &'a [u8], cursor: Cursor) -> SheetReader<'a>
        ensures { result ≡ reader_at bytes.entry cursor }
    {
        SheetReader { bytes, cursor }
    }

    // The row that the reader stands at.
    pub fn row(self) -> SheetRow
        requires { AtRow self.bytes.now self.cursor }
        ensures { result ≡ row_of self.entry.bytes.now self.entry.cursor.row }
    {
        row_at(self.bytes, self.cursor)
    }

    // Its body's part of the sheet.
    pub fn body(self) -> &'a [u8]
        requires { AtRow self.bytes.now self.cursor }
        ensures { result.now ≡ body_of self.entry.bytes.now self.entry.cursor.row }
    {
        body_at(self.bytes, self.cursor)
    }

    // The reader at the row after it.
    pub fn next(self) -> SheetReader<'a>
        requires { AtRow self.bytes.now self.cursor }
        ensures { result ≡ advanced self.entry }
    {
        SheetReader {
            bytes: self.bytes,
            cursor: place_after(self.bytes, self.cursor),
        }
    }
}

// ---- with no reader: whoever calls these has none to prove

#[derive(Clone, Copy)]
pub struct CursorRow {
    pub kind: u32,
    pub next: Cursor,
}

// The row's kind, and the cursor at the row after it.
pub fn cursor_row(s: &[u8], c: Cursor) -> CursorRow
    requires { AtRow s.now c }
    ensures { (result.kind ≡ row_kind s.now c.row) × (result.next ≡ cursor_at s.now (c.row + 1)) }
{
    let r = SheetReader::open(s, c);
    CursorRow {
        kind: r.row().kind,
        next: r.next().cursor,
    }
}

// Its body, a part of the sheet.
pub fn cursor_body(s: &[u8], c: Cursor) -> &[u8]
    requires { AtRow s.now c }
    ensures { result.now ≡ body_of s.now c.row }
{
    SheetReader::open(s, c).body()
}

// The cursor at row k of a readable sheet, or behind its last row.
pub fn cursor_at(s: &ReadableSheet<'_>, k: usize) -> Cursor
    requires { k ≤ row_count (head_of s.now.bytes.now) }
    ensures { result ≡ cursor_at s.now.bytes.now k }
{
    let mut c = Cursor::new(s.head.rows());
    for i in 0..k {
        c = cursor_row(s.bytes, c).next;
    }
    c
}
