// Rows of a diagnosis written into a lent slice.
#![tactic(auto)]

ghost use Rattle.std.specs.Prelude.{true, ◌≡◌, ◌+◌, ◌*◌, ◌≤◌, length};
ghost use Rattle.std.proofs.Math.Seq.{sets};
ghost use Rattle.emitting.specs.Emitting.{emit_bytes};
ghost use Rattle.emitting.specs.Row.{bytes_of, row_bytes, number_of};

use fields::Name;

// What a row says (FORMAT 8.1).
#[derive(Clone, Copy, PartialEq, Eq)]
pub enum Kind {
    ListsSelf = 1,
    ClosesCycle,
    UndeclaredParent,
    UndeclaredClass,
    NoResource,
    Duplicate,
}

// The byte that a row has for a kind.
impl From<Kind> for u8 {
    ghost from_gives = { λ kind number. number ≡ number_of kind };

    fn from(kind: Kind) -> u8 {
        kind as u8
    }
}

// A row: its kind, the type that it is about, and the other name and the resource word of the kinds that have one (FORMAT 8.1).
#[derive(Clone, Copy)]
pub struct Row {
    pub kind: Kind,
    pub subject: Name,
    pub other: Option<Name>,
    pub word: Option<u8>,
}

// The bytes of a row: its kind, two for each of its names, and a word (FORMAT 8.1).
pub const ROW: usize = 6;

// What stands in a row for an absent word, and twice for an absent name (FORMAT 8.1).
pub const ABSENT: u8 = 255;

// A row as its six bytes, whatever they are: the kind, the subject, the other name, the resource word; 255 for an absent word
// (FORMAT 8.1).
#[derive(Clone, Copy)]
pub struct RowBytes {
    pub kind: u8,
    pub first: u8,
    pub second: u8,
    pub other_first: u8,
    pub other_second: u8,
    pub word: u8,
}

// Writes the bytes of a row at place n.
fn write_row(buf: &mut [u8], n: usize, row: RowBytes)
    requires { 6 * n + 6 ≤ length buf.old }
    ensures { buf.new ≡ sets buf.old (6 * n) (row_bytes row) }
{
    let at = ROW * n;
    buf[at..at + ROW].copy_from_slice(&[
        row.kind,
        row.first,
        row.second,
        row.other_first,
        row.other_second,
        row.word,
    ]);
}

// Writes a row at place n, if that is below the limit; the count then is n + 1, and stops one past the limit.
pub fn put_row(buf: &mut [u8], limit: usize, n: usize, row: RowBytes) -> usize
    requires { 6 * limit ≤ length buf.old }
    ensures { (buf.new, result) ≡ emit_bytes limit (buf.old, n) (row_bytes row) }
{
    if n < limit {
        write_row(buf, n, row);
        return n + 1;
    }
    limit + 1
}

// How many rows were written, and whether there are more (FORMAT 8.2).
#[derive(Clone, Copy)]
pub struct Report {
    pub rows: usize,
    pub more: bool,
}

// Writes rows into a lent slice, the first `limit` of them (FORMAT 8.2).
#[derive(Drop)]
pub struct Writer<'a> {
    pub buf: &'a mut [u8],
    pub limit: usize,
    // how many were written, and whether there are more
    pub count: usize,
    pub more: bool,
    pub ghost room: { 6 * limit ≤ length buf.now },
    pub ghost few: { count ≤ limit },
    pub ghost full: { more ≡ true → count ≡ limit },
}

impl<'a> Writer<'a> {
    ghost use Rattle.emitting.specs.Writing.{state, Adds, Begins, Tells};

    // No row yet.
    pub fn new(buf: &'a mut [u8], limit: usize) -> Writer<'a>
        requires { 6 * limit ≤ length buf.old }
        ensures { Begins buf.entry limit result }
    {
        Writer {
            buf,
            limit,
            count: 0,
            more: false,
        }
    }

    // Writes the six bytes of a row, if there is room below the limit.
    pub fn push(&mut self, row: Row)
        ensures { Adds self.old self.new (emit_bytes self.old.limit (state self.old) (bytes_of row)) }
    {
        if self.count >= self.limit {
            self.more = true;
            return;
        }
        let absent = Name {
            first: ABSENT,
            second: ABSENT,
        };
        let other = row.other.unwrap_or(absent);
        let bytes = RowBytes {
            kind: u8::from(row.kind),
            first: row.subject.first,
            second: row.subject.second,
            other_first: other.first,
            other_second: other.second,
            word: row.word.unwrap_or(ABSENT),
        };
        write_row(self.buf, self.count, bytes);
        self.count += 1;
    }

    // Whether there are more rows than may be written.
    pub fn is_over(&self) -> bool
        ensures { result ≡ self.now.more }
    {
        self.more
    }

    // How many rows were written, and whether there are more.
    pub fn report(&self) -> Report
        ensures { Tells self.now result }
    {
        Report {
            rows: self.count,
            more: self.more,
        }
    }
}
