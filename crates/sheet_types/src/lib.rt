// The types of a sheet, read straight into the draft.
#![tactic(auto)]

ghost use Rattle.std.specs.Prelude.{List, Bool, Some, ℕ, ◌≡◌, ◌+◌, ◌/◌, ◌≤◌, length, drop, IfOk};
ghost use Rattle.definitions.specs.Bits.{bits_of};
ghost use Rattle.definitions.specs.Parse.{repeat, counted};
ghost use Rattle.definitions.specs.Reading.{type_info};
ghost use Rattle.bits.specs.Reading.{read_at, Addressable};
ghost use Rattle.fields.specs.Fields.{bits_in};
ghost use Rattle.sheet_types.specs.Rows.{top, of_top, Small, of_type_read, of_types_read, DoneHere, NotesRead};

use bits::Cursor;
use fields::{Fault, Parsed, Sheet};
use sheet_draft::{Draft, DraftRow};

// The head that was read as the 8 bits h, with the cursor behind it: its variant is at most 2, and it has at most 8 parents.
fn allowed_top(h: usize, next: Cursor) -> Parsed<usize>
    ensures { (bs : List Bool) (p : ℕ) → read_at bs p 8 ≡ Some (h, next) → (of_top bs result ≡ top (drop p bs)) × Small result }
{
    if 192 <= h || 8 < h % 16 {
        return Err(Fault::NotAllowed);
    }
    Ok((h, next))
}

// The head of a type as one field of 8 bits that are there: variant, virtual, trait, number of parents (FORMAT 2.6).
fn top_in(s: &[u8], at: usize) -> Parsed<usize>
    requires { (at / 8 + 4 ≤ length s.now) × Addressable s.now }
    ensures { (of_top (bits_of s.now) result ≡ top (drop at (bits_of s.now))) × Small result }
{
    let h = sheet_window::window(s, at, 8);
    allowed_top(h, Cursor { at: at + 8 })
}

// The same near the end, where what is missing decides the refusal.
fn top_near_end(s: &[u8], c: Cursor) -> Parsed<usize>
    requires { Addressable s.now }
    ensures { (of_top (bits_of s.now) result ≡ top (drop c.at (bits_of s.now))) × Small result }
{
    match c.read(s, 8) {
        Some((h, next)) => allowed_top(h, next),
        None => match c.read(s, 2) {
            Some((v, _)) => {
                if v == 3 {
                    Err(Fault::NotAllowed)
                } else {
                    Err(Fault::Past)
                }
            }
            None => Err(Fault::Past),
        },
    }
}

fn read_top(s: &[u8], c: Cursor) -> Parsed<usize>
    requires { Addressable s.now }
    ensures { (of_top (bits_of s.now) result ≡ top (drop c.at (bits_of s.now))) × Small result }
{
    let at = c.at;
    if at / 8 + 4 <= s.len() {
        return top_in(s, at);
    }
    top_near_end(s, c)
}

// The type at the cursor, as a row of the draft.
fn read_type(s: Sheet, c: Cursor, row: &mut DraftRow) -> Result<Cursor, Fault>
    ensures { (of_type_read s.entry.words (bits_in s.entry) row.new result ≡ type_info s.entry.words (drop c.at (bits_in s.entry))) × DoneHere s.entry.words (bits_in s.entry) row.new result }
{
    let (key, c1) = sheet_keys::read_key(s, c)?;
    let (h, c2) = read_top(s.bytes, c1)?;
    let (_, next) = sheet_keys::read_each_key(s, c2, h % 16, &mut row.parents)?;
    row.key = key;
    row.head = h as u64;
    row.place = next.at;
    sheet_notes::skip_notes(s, next, key % 256 == 0)
}

// n types: how many, and the cursor behind them. A loop of its own, as each kind of list has that is
// kept (`fields`).
fn read_each_type(s: Sheet, c: Cursor, n: usize, d: &mut Draft) -> Parsed<usize>
    requires { n ≤ 64 }
    ensures { (of_types_read s.entry.words (bits_in s.entry) d.new result ≡ repeat (type_info s.entry.words) n (drop c.at (bits_in s.entry))) × IfOk result (λ v. (v.0 ≤ 64) × NotesRead s.entry.words (bits_in s.entry) d.new v.0) }
{
    let mut next = c;
    for i in 0..n {
        next = read_type(s, next, &mut d.rows[i])?;
    }
    Ok((n, next))
}

// The types of a sheet, at most 64 (FORMAT 2.2).
pub fn read_types(s: Sheet, c: Cursor, d: &mut Draft) -> Parsed<usize>
    ensures { (of_types_read s.entry.words (bits_in s.entry) d.new result ≡ counted 7 0 64 (type_info s.entry.words) (drop c.at (bits_in s.entry))) × IfOk result (λ v. (v.0 ≤ 64) × NotesRead s.entry.words (bits_in s.entry) d.new v.0) }
{
    let (n, next) = fields::read_between(s.bytes, c, 7, 0, 64)?;
    read_each_type(s, next, n, d)
}
