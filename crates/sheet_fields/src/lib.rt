// Counts and words out of four bytes that are there, and near the end as `fields` reads them.
#![tactic(auto)]

ghost use Rattle.std.specs.Prelude.{◌≡◌, ◌+◌, ◌/◌, ◌≤◌, ◌<◌, length, drop};
ghost use Rattle.definitions.specs.Bits.{bits_of};
ghost use Rattle.definitions.specs.Parse.{field, between};
ghost use Rattle.definitions.specs.Reading.{word_field};
ghost use Rattle.bits.specs.Reading.{Addressable};
ghost use Rattle.fields.specs.Fields.{of_field};

use bits::Cursor;
use fields::{Fault, Parsed};

fn between_in(s: &[u8], at: usize, n: usize, least: usize, most: usize) -> Parsed<usize>
    requires { Addressable s.now × (0 < n) × (n ≤ 16) × (at / 8 + 4 ≤ length s.now) }
    ensures { of_field (bits_of s.now) result ≡ between n least most (drop at (bits_of s.now)) }
{
    let v = sheet_window::window(s, at, n);
    if v < least {
        return Err(Fault::NotAllowed);
    }
    if most < v {
        return Err(Fault::NotAllowed);
    }
    Ok((v, Cursor { at: at + n }))
}

// A field of n bits from `least` to `most`.
pub fn read_between(s: &[u8], c: Cursor, n: usize, least: usize, most: usize) -> Parsed<usize>
    requires { Addressable s.now × (0 < n) × (n ≤ 16) }
    ensures { of_field (bits_of s.now) result ≡ between n least most (drop c.at (bits_of s.now)) }
{
    let at = c.at;
    if at / 8 + 4 <= s.len() {
        return between_in(s, at, n, least, most);
    }
    fields::read_between(s, c, n, least, most)
}

fn word_in(s: &[u8], at: usize, limit: usize) -> Parsed<u8>
    requires { Addressable s.now × (at / 8 + 4 ≤ length s.now) }
    ensures { of_field (bits_of s.now) result ≡ word_field limit (drop at (bits_of s.now)) }
{
    let v = sheet_window::window(s, at, 8);
    if v < limit {
        return Ok(((v % 256) as u8, Cursor { at: at + 8 }));
    }
    Err(Fault::NotAllowed)
}

// The number of a word of the sheet, of which there are `limit` (FORMAT 2.5).
pub fn read_word_field(s: &[u8], c: Cursor, limit: usize) -> Parsed<u8>
    requires { Addressable s.now }
    ensures { of_field (bits_of s.now) result ≡ word_field limit (drop c.at (bits_of s.now)) }
{
    let at = c.at;
    if at / 8 + 4 <= s.len() {
        return word_in(s, at, limit);
    }
    fields::read_word_field(s, c, limit)
}
