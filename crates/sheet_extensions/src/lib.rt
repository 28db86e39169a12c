// The extension records of a sheet, read straight into the catalogue.
#![tactic(auto)]

ghost use Rattle.std.specs.Prelude.{◌≡◌, ◌≤◌, drop, IfOk};
ghost use Rattle.definitions.specs.Parse.{repeat, counted};
ghost use Rattle.definitions.specs.Reading.{name, extension};
ghost use Rattle.fields.specs.Fields.{bits_in, of_parsed};
ghost use Rattle.sheet_keys.specs.Keys.{of_names};
ghost use Rattle.sheet_extensions.specs.Records.{record_of, of_extensions_read};

use bits::Cursor;
use catalogue::{Catalogue, Extension};
use fields::{Parsed, Sheet};

// The parents that a record adds, 1 to 8 (FORMAT 2.10), as keys: how many, and the cursor behind them.
fn read_added(s: Sheet, c: Cursor, parents: &mut [u64; 8]) -> Parsed<usize>
    ensures { of_names (bits_in s.entry) parents.new result ≡ counted 4 1 8 (name s.entry.words) (drop c.at (bits_in s.entry)) }
{
    let (n, next) = fields::read_between(s.bytes, c, 4, 1, 8)?;
    sheet_keys::read_each_key(s, next, n, parents)
}

// The record at the cursor.
fn read_record(s: Sheet, c: Cursor) -> Parsed<Extension>
    ensures { of_parsed record_of (bits_in s.entry) result ≡ extension s.entry.words (drop c.at (bits_in s.entry)) }
{
    let (key, c1) = sheet_keys::read_key(s, c)?;
    let (w, c2) = fields::read_word_field(s.bytes, c1, s.words)?;
    let mut parents = [0u64; 8];
    let (count, next) = read_added(s, c2, &mut parents)?;
    let read = Extension {
        key: Extension::key_of(key, w as u64),
        count: count as u64,
        parents,
    };
    Ok((read, next))
}

// n records: how many, and the cursor behind them. A loop of its own, as each kind of list has that is
// kept (`fields`).
fn read_each_record(s: Sheet, c: Cursor, n: usize, t: &mut Catalogue) -> Parsed<usize>
    requires { n ≤ 32 }
    ensures { (of_extensions_read (bits_in s.entry) t.new result ≡ repeat (extension s.entry.words) n (drop c.at (bits_in s.entry))) × IfOk result (λ v. v.0 ≤ 32) }
{
    let mut next = c;
    for e in 0..n {
        let (read, behind) = read_record(s, next)?;
        t.extensions[e] = read;
        next = behind;
    }
    Ok((n, next))
}

// The extension records of a sheet, at most 32 (FORMAT 2.2).
pub fn read_extensions(s: Sheet, c: Cursor, t: &mut Catalogue) -> Parsed<usize>
    ensures { (of_extensions_read (bits_in s.entry) t.new result ≡ counted 6 0 32 (extension s.entry.words) (drop c.at (bits_in s.entry))) × IfOk result (λ v. v.0 ≤ 32) }
{
    let (n, next) = fields::read_between(s.bytes, c, 6, 0, 32)?;
    read_each_record(s, next, n, t)
}
