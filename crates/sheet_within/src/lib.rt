// What may not stand twice within a type, refusal 6, tested at the place where its annotations stand (FORMAT 2.12).
#![tactic(auto)]

ghost use Rattle.std.specs.Prelude.{true, false, ◌≡◌, ◌+◌, ◌/◌, ◌≤◌, ◌<◌, length, drop, eqb};
ghost use Rattle.fields.specs.Fields.{bits_in};
ghost use Rattle.sheet_same.specs.Repeats.{repeats_in};
ghost use Rattle.sheet_notes.specs.Notes.{notes};
ghost use Rattle.sheet_draft.specs.Draft.{notes_of};
ghost use Rattle.sheet_types.specs.Rows.{is_done};
ghost use Rattle.lists.specs.Lists.{any, repeats};
ghost use Rattle.sheet_within.specs.Within.{words_in, PlainNames, PlainNotes, NamesUp, CountAt, NextUp, NamesOnce, NextOnce, NoneIs, PlainEach};

use bits::Cursor;
use fields::Sheet;
use rows::Row;
use sheet_records::Kind;

// The annotations by value: for whatever the tests below leave open. `single`, here and below, is that of `records`: a fact of
// the sheet, which the definitions take as a Bool too.
fn is_repeating_by_value(s: Sheet, at: usize, single: bool) -> bool
    requires { is_done (notes s.words single (drop at (bits_in s))) ≡ true }
    ensures { result ≡ repeats_in (notes_of (notes s.entry.words single (drop at (bits_in s.entry)))).annotations }
{
    match sheet_records::read_annotations(s, Cursor { at }, single) {
        Ok((annotations, _)) => sheet_same::is_repeating(annotations.as_slice()),
        Err(_) => false,
    }
}

// Whether w is the first word of one of the n names, from a place on.
fn has_word_from(k: &[u64; 15], w: u64, from: usize, n: usize) -> bool
    requires { n ≤ 15 }
    ensures { result ≡ any (eqb w) (drop from (words_in k.now n)) }
{
    (from..n).any(|j| w == k[j] / 256)
}

// Whether two of n names have one first word.
fn has_word_twice(k: &[u64; 15], n: usize) -> bool
    requires { n ≤ 15 }
    ensures { result ≡ repeats eqb (words_in k.now n) }
{
    (0..n).any(|i| has_word_from(k, k[i] / 256, i + 1, n))
}

// Whether n names at a place are there and have first words that differ.
fn is_plain_list(s: Sheet, at: usize, n: usize) -> bool
    requires { n ≤ 15 }
    ensures { PlainNames s.entry.words (bits_in s.entry) at n result }
{
    if n < 2 {
        return true;
    }
    let mut k = [0u64; 15];
    match sheet_keys::read_each_key(s, Cursor { at }, n, &mut k) {
        Ok((count, _)) => !has_word_twice(&k, count),
        Err(_) => false,
    }
}

// The place behind what was read, and one more than the greatest first word in it.
#[derive(Clone, Copy)]
pub struct Up {
    pub top: usize,
    pub at: usize,
}

// n names whose first words ascend from `low` on, or none.
fn names_up(s: Sheet, at: usize, n: usize, low: usize) -> Option<Up>
    ensures { NamesUp s.entry.words (bits_in s.entry) at n low result }
{
    let mut next = Cursor { at };
    let mut top = low;
    for _ in 0..n {
        let Ok((key, end)) = sheet_keys::read_key(s, next) else {
            return None;
        };
        let a = (key / 256) as usize;
        if a < top {
            return None;
        }
        top = a + 1;
        next = end;
    }
    Some(Up { top, at: next.at })
}

// How many names an associate at a place has; none where no associate stands there.
fn count_at(s: Sheet, at: usize, single: bool) -> Option<usize>
    ensures { CountAt s.entry.words single (bits_in s.entry) at result }
{
    if s.bytes.len() < at / 8 + 4 {
        return None;
    }
    let w = sheet_window::window(s.bytes, at, 7);
    let Ok(kind) = Kind::try_from(w / 16) else {
        return None;
    };
    match kind {
        Kind::Associate => Some(w % 16),
        Kind::NestAssociate if single => Some(w % 16),
        _ => None,
    }
}

// One associate with names that ascend, at least one.
fn associate_up(s: Sheet, at: usize, single: bool, low: usize) -> Option<Up>
    ensures { NextUp s.entry.words single (bits_in s.entry) at low result }
{
    let Some(n) = count_at(s, at, single) else {
        return None;
    };
    if n == 0 {
        return None;
    }
    names_up(s, at + 7, n, low)
}

// Whether n annotations are associates whose first words ascend from one to the next.
fn is_plain_up(s: Sheet, at: usize, single: bool, n: usize) -> bool
    ensures { PlainEach s.entry.words single (bits_in s.entry) at n result }
{
    let mut p = at;
    let mut top: usize = 0;
    for _ in 0..n {
        let Some(up) = associate_up(s, p, single, top) else {
            return false;
        };
        p = up.at;
        top = up.top;
    }
    true
}

// The place behind what was read, and the first words in it as a set.
#[derive(Clone, Copy)]
pub struct Once {
    pub words: Row,
    pub at: usize,
}

// n names whose first words differ, or none.
fn names_once(s: Sheet, at: usize, n: usize) -> Option<Once>
    ensures { NamesOnce s.entry.words (bits_in s.entry) at n result }
{
    let mut next = Cursor { at };
    let mut words = rows::empty_row();
    for _ in 0..n {
        let Ok((key, end)) = sheet_keys::read_key(s, next) else {
            return None;
        };
        let w = (key / 256) as usize;
        if rows::holds(words, w) {
            return None;
        }
        let one = rows::alone(w);
        words = rows::in_either(words, one);
        next = end;
    }
    Some(Once { words, at: next.at })
}

// One associate with such names.
fn associate_once(s: Sheet, at: usize, single: bool) -> Option<Once>
    ensures { NextOnce s.entry.words single (bits_in s.entry) at result }
{
    let Some(n) = count_at(s, at, single) else {
        return None;
    };
    names_once(s, at + 7, n)
}

// Whether a set is one of the first n.
fn has_set(sets: &[Row; 16], n: usize, words: Row) -> bool
    requires { n ≤ 16 }
    ensures { NoneIs sets.now n words result }
{
    for set in &sets[..n] {
        if *set == words {
            return true;
        }
    }
    false
}

// Whether n annotations are associates of which each has words that differ, and no two have the same.
fn is_plain_once(s: Sheet, at: usize, single: bool, n: usize) -> bool
    requires { n ≤ 16 }
    ensures { PlainEach s.entry.words single (bits_in s.entry) at n result }
{
    let none = rows::empty_row();
    let mut sets = [none; 16];
    let mut p = at;
    for i in 0..n {
        let Some(once) = associate_once(s, p, single) else {
            return false;
        };
        if has_set(&sets, i, once.words) {
            return false;
        }
        sets[i] = once.words;
        p = once.at;
    }
    true
}

// Whether n annotations are associates that repeat nothing: mostly their words ascend, which takes fewer steps.
fn is_plain_each(s: Sheet, at: usize, single: bool, n: usize) -> bool
    requires { n ≤ 16 }
    ensures { PlainEach s.entry.words single (bits_in s.entry) at n result }
{
    is_plain_up(s, at, single, n) || is_plain_once(s, at, single, n)
}

// Whether the annotations at a place are found to repeat nothing: none, one, or associates, whose words mostly ascend.
fn is_plain_in(s: Sheet, at: usize, single: bool) -> bool
    requires { at / 8 + 4 ≤ length s.bytes.now }
    ensures { PlainNotes s.entry.words single (bits_in s.entry) at result }
{
    let w = sheet_window::window(s.bytes, at, 11);
    if w < 128 {
        return true;
    }
    if 256 <= w {
        return is_plain_each(s, at + 4, single, w / 128);
    }
    let Ok(kind) = Kind::try_from(w / 16 % 8) else {
        return true;
    };
    match kind {
        Kind::Associate | Kind::NestAssociate => is_plain_list(s, at + 11, w % 16),
        Kind::MakeList | Kind::Alias | Kind::Inherit | Kind::Derive | Kind::NoDerive => true,
    }
}

// Whether the annotations at a place repeat something.
pub fn is_repeating_at(s: Sheet, at: usize, single: bool) -> bool
    requires { is_done (notes s.words single (drop at (bits_in s))) ≡ true }
    ensures { result ≡ repeats_in (notes_of (notes s.entry.words single (drop at (bits_in s.entry)))).annotations }
{
    if at / 8 + 4 <= s.bytes.len() {
        if is_plain_in(s, at, single) {
            return false;
        }
    }
    is_repeating_by_value(s, at, single)
}
