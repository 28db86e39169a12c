// Names as keys, read straight into a lent table.
#![tactic(auto)]

ghost use Rattle.std.specs.Prelude.{◌≡◌, ◌+◌, ◌/◌, ◌≤◌, ◌<◌, length, drop, IfOk};
ghost use Rattle.definitions.specs.Parse.{repeat};
ghost use Rattle.definitions.specs.Reading.{name};
ghost use Rattle.fields.specs.Fields.{bits_in};
ghost use Rattle.sheet_keys.specs.Keys.{of_key_read, of_names};

use bits::Cursor;
use fields::{Fault, Key, Parsed, Sheet};

// A name out of 17 bits that are there, of which it has 9 or 17. Its key is made of the window itself: by way of a `Name` the
// largest sheet takes 22 % more.
fn key_in(s: Sheet, at: usize) -> Parsed<Key>
    requires { at / 8 + 4 ≤ length s.bytes.now }
    ensures { of_key_read (bits_in s.entry) result ≡ name s.entry.words (drop at (bits_in s.entry)) }
{
    let w = sheet_window::window(s.bytes, at, 17);
    let a = w / 512;
    let b = w % 256;
    if s.words <= a {
        return Err(Fault::NotAllowed);
    }
    if w / 256 % 2 == 0 {
        return Ok(((a * 256) as u64, Cursor { at: at + 9 }));
    }
    if s.words <= b {
        return Err(Fault::NotAllowed);
    }
    Ok(((a * 256 + b + 1) as u64, Cursor { at: at + 17 }))
}

// A name near the end, field by field.
fn key_near_end(s: Sheet, c: Cursor) -> Parsed<Key>
    ensures { of_key_read (bits_in s.entry) result ≡ name s.entry.words (drop c.at (bits_in s.entry)) }
{
    let (n, next) = fields::read_name(s, c)?;
    Ok((Key::from(n), next))
}

pub fn read_key(s: Sheet, c: Cursor) -> Parsed<Key>
    ensures { of_key_read (bits_in s.entry) result ≡ name s.entry.words (drop c.at (bits_in s.entry)) }
{
    let at = c.at;
    if at / 8 + 4 <= s.bytes.len() {
        return key_in(s, at);
    }
    key_near_end(s, c)
}

// n names, as the first keys of a table: how many, and the cursor behind them.
pub fn read_each_key(s: Sheet, c: Cursor, n: usize, out: &mut [u64]) -> Parsed<usize>
    requires { n ≤ length out.old }
    ensures { (of_names (bits_in s.entry) out.new result ≡ repeat (name s.entry.words) n (drop c.at (bits_in s.entry))) × (length out.new ≡ length out.old) × IfOk result (λ v. v.0 ≤ n) }
{
    let mut next = c;
    for i in 0..n {
        let (key, end) = read_key(s, next)?;
        out[i] = key;
        next = end;
    }
    Ok((n, next))
}
