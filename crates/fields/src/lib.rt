// The fields of a sheet: counts, words, names and lists of names. A function at a cursor answers what its parser in the
// definitions gives for the bits from there on, its faults included.
#![tactic(auto)]

ghost use Rattle.std.specs.Prelude.{[], ◌∷◌, ◌++◌, ◌≡◌, ◌+◌, ◌*◌, ◌≤◌, ◌<◌, drop};
ghost use Rattle.definitions.specs.Bits.{bits_of};
ghost use Rattle.definitions.specs.Parse.{field, between, repeat, counted};
ghost use Rattle.definitions.specs.Reading.{word_field, word_if_flag, name};
ghost use Rattle.bits.specs.Reading.{Addressable};
ghost use Rattle.fields.specs.Fields.{of_parsed, of_field, optional, name_of, bits_in, of_names};

mod key;
mod source;

use bits::Cursor;
pub use key::Key;
pub use source::Sheet;

// What can be wrong with a field: it passes the end, or its value is not allowed (FORMAT 2.1).
#[derive(Clone, Copy, PartialEq, Eq)]
pub enum Fault {
    Past,
    NotAllowed,
}

// What was read and the cursor behind it, or what is wrong with a field.
pub type Parsed<T> = Result<(T, Cursor), Fault>;

// A name (FORMAT 1.3). The second word is 255 where there is none: a word is below W, at most 200. No Option: the flat
// arrays of an annotation as read (01) and the two bytes of a name in a row (FORMAT 8.1) have that number, and names are made of the
// one and put into the other.
#[derive(Clone, Copy)]
pub struct Name {
    pub first: u8,
    pub second: u8,
}

// The first count names of the arrays: the words and doms of an annotation (01: 'a kind beside flat arrays'). Arrays, as the
// proved calls have no heap.
#[derive(Clone, Copy)]
pub struct Names {
    pub count: usize,
    pub first: [u8; 15],
    pub second: [u8; 15],
}

// A field of n bits.
pub fn read_field(s: &[u8], c: Cursor, n: usize) -> Parsed<usize>
    requires { Addressable s.now × (0 < n) × (n ≤ 16) }
    ensures { of_field (bits_of s.now) result ≡ field n (drop c.at (bits_of s.now)) }
{
    reader::read_at(s, c, n).ok_or(Fault::Past)
}

// A field of n bits from `least` to `most`.
pub fn read_between(s: &[u8], c: Cursor, n: usize, least: usize, most: usize) -> Parsed<usize>
    requires { Addressable s.now × (0 < n) × (n ≤ 16) }
    ensures { of_field (bits_of s.now) result ≡ between n least most (drop c.at (bits_of s.now)) }
{
    let (v, next) = read_field(s, c, n)?;
    if v < least || most < v {
        return Err(Fault::NotAllowed);
    }
    Ok((v, next))
}

// A tag is any number of 8 bits (FORMAT 2.7, 2.9).
pub fn read_tag(s: &[u8], c: Cursor) -> Parsed<u8>
    requires { Addressable s.now }
    ensures { of_field (bits_of s.now) result ≡ field 8 (drop c.at (bits_of s.now)) }
{
    let (v, next) = read_field(s, c, 8)?;
    Ok((v as u8, next))
}

// A word field is the number of a word of the sheet, of which there are `limit` (FORMAT 2.5).
pub fn read_word_field(s: &[u8], c: Cursor, limit: usize) -> Parsed<u8>
    requires { Addressable s.now }
    ensures { of_field (bits_of s.now) result ≡ word_field limit (drop c.at (bits_of s.now)) }
{
    let (w, next) = read_field(s, c, 8)?;
    if w < limit {
        Ok((w as u8, next))
    } else {
        Err(Fault::NotAllowed)
    }
}

// A flag, and a word where it is set: the second word of a name, or a dom (FORMAT 2.5). 255 for none, as `Name` has it.
pub fn read_word_if_flag(s: Sheet, c: Cursor) -> Parsed<u8>
    ensures { of_parsed optional (bits_in s.entry) result ≡ word_if_flag s.entry.words (drop c.at (bits_in s.entry)) }
{
    let (flag, next) = read_field(s.bytes, c, 1)?;
    if flag == 1 {
        read_word_field(s.bytes, next, s.words)
    } else {
        Ok((255, next))
    }
}

pub fn read_name(s: Sheet, c: Cursor) -> Parsed<Name>
    ensures { of_parsed name_of (bits_in s.entry) result ≡ name s.entry.words (drop c.at (bits_in s.entry)) }
{
    let (first, next) = read_word_field(s.bytes, c, s.words)?;
    let (second, end) = read_word_if_flag(s, next)?;
    Ok((Name { first, second }, end))
}

impl Names {
    pub fn new() -> Names
        ensures { (of_names result ≡ []) × (result.count ≡ 0) }
    {
        Names {
            count: 0,
            first: [255u8; 15],
            second: [255u8; 15],
        }
    }

    pub fn push(&mut self, n: Name)
        requires { self.old.count < 15 }
        ensures { (of_names self.new ≡ of_names self.old ++ (name_of n ∷ [])) × (self.new.count ≡ self.old.count + 1) }
    {
        let i = self.count;
        self.first[i] = n.first;
        self.second[i] = n.second;
        self.count = i + 1;
    }
}

// n names. Each kind of list has such a loop: one for all would need a trait with its parser, and a fold, as `sheet_notes` has where
// nothing is kept, would hand the list on by value with the cursor.
fn read_each_name(s: Sheet, c: Cursor, n: usize) -> Parsed<Names>
    requires { n ≤ 15 }
    ensures { of_parsed of_names (bits_in s.entry) result ≡ repeat (name s.entry.words) n (drop c.at (bits_in s.entry)) }
{
    let mut next = c;
    let mut names = Names::new();
    for _ in 0..n {
        let (name, end) = read_name(s, next)?;
        names.push(name);
        next = end;
    }
    Ok((names, next))
}

// A count of 4 bits within its bounds, and so many names: those of an Inherit, and the resources of an associate, which are
// read like names (FORMAT 2.3, 2.8).
pub fn read_names(s: Sheet, c: Cursor, least: usize, most: usize) -> Parsed<Names>
    requires { most ≤ 15 }
    ensures { of_parsed of_names (bits_in s.entry) result ≡ counted 4 least most (name s.entry.words) (drop c.at (bits_in s.entry)) }
{
    let (n, next) = read_between(s.bytes, c, 4, least, most)?;
    read_each_name(s, next, n)
}
