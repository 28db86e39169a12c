// Reads the fields of a sheet (01: 'its sheet by reference'), thin over the functions of the cursor.
#![tactic(auto)]

ghost use Rattle.std.specs.Prelude.{◌≡◌, ◌*◌, ◌^◌, ◌≤◌, ◌<◌, length};
ghost use Rattle.definitions.specs.Bits.{bits_of};
ghost use Rattle.bits.specs.Reading.{read_at};

use bits::Cursor;

// A sheet and a bit position in it.
#[derive(Clone, Copy)]
pub struct Reader<'a> {
    pub sheet: &'a [u8],
    pub at: Cursor,
}

impl<'a> Reader<'a> {
    // The reader of a sheet, at its first bit.
    pub fn new(sheet: &'a [u8]) -> Reader<'a>
        ensures { (result.sheet ≡ sheet.entry) × (result.at.at ≡ 0) }
    {
        Reader {
            sheet,
            at: Cursor { at: 0 },
        }
    }

    // The n bits at the reader's position, and the position behind them.
    pub fn read(self, n: usize) -> Option<(usize, Cursor)>
        requires { (n ≤ 16) × (8 * length self.sheet.now < 2 ^ 64) }
        ensures { result ≡ read_at (bits_of self.entry.sheet.now) self.entry.at.at n }
    {
        self.at.read(self.sheet, n)
    }

    // The reader, moved on to a position.
    pub fn moved(self, at: Cursor) -> Reader<'a>
        ensures { (result.sheet ≡ self.entry.sheet) × (result.at ≡ at) }
    {
        Reader {
            sheet: self.sheet,
            at,
        }
    }
}

// The n bits at a position of a sheet, and the position behind them.
pub fn read_at(sheet: &[u8], at: Cursor, n: usize) -> Option<(usize, Cursor)>
    requires { (n ≤ 16) × (8 * length sheet.now < 2 ^ 64) }
    ensures { result ≡ read_at (bits_of sheet.now) at.at n }
{
    Reader::new(sheet).moved(at).read(n)
}
