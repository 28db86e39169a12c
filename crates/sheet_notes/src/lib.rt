// Steps over what stands behind a type's parents: tested field by field, and nothing kept.
#![tactic(auto)]

ghost use Rattle.std.specs.Prelude.{◌≡◌, drop};
ghost use Rattle.definitions.specs.Bits.{bits_of};
ghost use Rattle.definitions.specs.Parse.{counted};
ghost use Rattle.definitions.specs.Reading.{name, annotation, mark};
ghost use Rattle.bits.specs.Reading.{Addressable};
ghost use Rattle.fields.specs.Fields.{bits_in};
ghost use Rattle.sheet_records.specs.Kinds.{number_of};
ghost use Rattle.sheet_records.specs.Annotations.{rows_for};
ghost use Rattle.sheet_notes.specs.Notes.{notes, forget, steps, of_skip};

use bits::Cursor;
use fields::{Fault, Sheet};
use sheet_records::Kind;

fn skip_name(s: Sheet, c: Cursor) -> Result<Cursor, Fault>
    ensures { of_skip (bits_in s.entry) result ≡ forget (name s.entry.words (drop c.at (bits_in s.entry))) }
{
    let (_, end) = sheet_keys::read_key(s, c)?;
    Ok(end)
}

// So many names.
pub fn skip_each_name(s: Sheet, c: Cursor, n: usize) -> Result<Cursor, Fault>
    ensures { of_skip (bits_in s.entry) result ≡ steps (name s.entry.words) n (drop c.at (bits_in s.entry)) }
{
    (0..n).try_fold(c, |next, _| skip_name(s, next))
}

fn skip_names(s: Sheet, c: Cursor) -> Result<Cursor, Fault>
    ensures { of_skip (bits_in s.entry) result ≡ forget (counted 4 0 15 (name s.entry.words) (drop c.at (bits_in s.entry))) }
{
    let (n, next) = sheet_fields::read_between(s.bytes, c, 4, 0, 15)?;
    skip_each_name(s, next, n)
}

// What follows the kind of an annotation.
fn skip_rows(s: Sheet, c: Cursor, kind: Kind) -> Result<Cursor, Fault>
    ensures { of_skip (bits_in s.entry) result ≡ forget (rows_for s.entry.words (number_of kind) (drop c.at (bits_in s.entry))) }
{
    match kind {
        Kind::Associate | Kind::NestAssociate | Kind::Inherit => skip_names(s, c),
        Kind::Alias => {
            let (_, next) = sheet_fields::read_word_field(s.bytes, c, s.words)?;
            Ok(next)
        }
        Kind::Derive => {
            let (_, next) = fields::read_tag(s.bytes, c)?;
            Ok(next)
        }
        Kind::MakeList | Kind::NoDerive => Ok(c),
    }
}

// An annotation. A NestAssociate in a two-word type is refused at its kind (FORMAT 2.7). `single`, here and below, is that of
// `records`: a fact of the sheet, which the definitions take as a Bool too.
fn skip_annotation(s: Sheet, c: Cursor, single: bool) -> Result<Cursor, Fault>
    ensures { of_skip (bits_in s.entry) result ≡ forget (annotation s.entry.words single (drop c.at (bits_in s.entry))) }
{
    let (number, next) = sheet_fields::read_between(s.bytes, c, 3, 0, 6)?;
    let kind = Kind::of(number);
    if sheet_records::is_nested_in_two(kind, single) {
        return Err(Fault::NotAllowed);
    }
    skip_rows(s, next, kind)
}

fn skip_each_annotation(s: Sheet, c: Cursor, single: bool, n: usize) -> Result<Cursor, Fault>
    ensures { of_skip (bits_in s.entry) result ≡ steps (annotation s.entry.words single) n (drop c.at (bits_in s.entry)) }
{
    (0..n).try_fold(c, |next, _| skip_annotation(s, next, single))
}

fn skip_annotations(s: Sheet, c: Cursor, single: bool) -> Result<Cursor, Fault>
    ensures { of_skip (bits_in s.entry) result ≡ forget (counted 4 0 12 (annotation s.entry.words single) (drop c.at (bits_in s.entry))) }
{
    let (n, next) = sheet_fields::read_between(s.bytes, c, 4, 0, 12)?;
    skip_each_annotation(s, next, single, n)
}

// A mark: a flag, and a tag where it is set (FORMAT 2.9).
fn skip_mark(s: &[u8], c: Cursor) -> Result<Cursor, Fault>
    requires { Addressable s.now }
    ensures { of_skip (bits_of s.now) result ≡ forget (mark (drop c.at (bits_of s.now))) }
{
    let at = c.at;
    if at / 8 + 4 <= s.len() {
        let flag = sheet_window::window(s, at, 1) % 2;
        return Ok(Cursor {
            at: at + 1 + 8 * flag,
        });
    }
    let (_, end) = sheet_records::read_mark(s, c)?;
    Ok(end)
}

fn skip_each_mark(s: &[u8], c: Cursor, n: usize) -> Result<Cursor, Fault>
    requires { Addressable s.now }
    ensures { of_skip (bits_of s.now) result ≡ steps mark n (drop c.at (bits_of s.now)) }
{
    (0..n).try_fold(c, |next, _| skip_mark(s, next))
}

fn skip_marks(s: &[u8], c: Cursor) -> Result<Cursor, Fault>
    requires { Addressable s.now }
    ensures { of_skip (bits_of s.now) result ≡ forget (counted 3 0 7 mark (drop c.at (bits_of s.now))) }
{
    let (n, next) = sheet_fields::read_between(s, c, 3, 0, 7)?;
    skip_each_mark(s, next, n)
}

// Both lists, field by field.
fn skip_lists(s: Sheet, c: Cursor, single: bool) -> Result<Cursor, Fault>
    ensures { of_skip (bits_in s.entry) result ≡ forget (notes s.entry.words single (drop c.at (bits_in s.entry))) }
{
    let next = skip_annotations(s, c, single)?;
    skip_marks(s.bytes, next)
}

// 01: 'annotations 4 (0 to 12); marks 3 (0 to 7)'. Most types have neither: 7 bits of 0.
pub fn skip_notes(s: Sheet, c: Cursor, single: bool) -> Result<Cursor, Fault>
    ensures { of_skip (bits_in s.entry) result ≡ forget (notes s.entry.words single (drop c.at (bits_in s.entry))) }
{
    let at = c.at;
    if at / 8 + 4 <= s.bytes.len() && sheet_window::window(s.bytes, at, 7) == 0 {
        return Ok(Cursor { at: at + 7 });
    }
    skip_lists(s, c, single)
}
