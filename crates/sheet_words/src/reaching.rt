// How far words reach, put into a lent struct: a second pass over the words, where one has a hyphen.
ghost use Rattle.std.specs.Prelude.{not, ◌≡◌, ℕ, ◌+◌, ◌-◌, ◌*◌, ◌≤◌, ◌<◌, List, Bool, drop};
ghost use Rattle.lists.specs.Lists.{all, place_of};
ghost use Rattle.definitions.specs.Parse.{done, repeat};
ghost use Rattle.definitions.specs.Reading.{is_first_byte, word};
ghost use Rattle.law_orders.specs.Reach.{goes_on};
ghost use Rattle.sheet_reach.specs.Reach.{Reaches};
ghost use Rattle.sheet_words.specs.Words.{bits_in, bytes_of, EachReach};

use crate::read_word;
use crate::spelt::{Source, Spelt};
use sheet_reach::Reach;

// The byte that a word may have behind its first and no other sheet's.
const HYPHEN: u64 = 45;

// Whether a word begins with another and a hyphen.
fn is_going_on(w: Spelt, v: Spelt) -> bool
    ensures { result ≡ goes_on (bytes_of w.entry) (bytes_of v.entry) }
{
    let p = w.at;
    let q = v.at;
    let n = w.count;
    if v.count <= n {
        return false;
    }
    for i in 0..n {
        let x = sheet_window::wide(w.source.bytes, p + 8 * i, 8);
        let y = sheet_window::wide(v.source.bytes, q + 8 * i, 8);
        if x != y {
            return false;
        }
    }
    sheet_window::wide(v.source.bytes, q + 8 * n, 8) == HYPHEN
}

// The last of n words up to which all behind the a-th, which is w, begin with it and a hyphen.
fn reach_of(s: Source, w: Spelt, a: usize, n: usize) -> usize
    requires { (a < n) × (n ≤ 200) }
    ensures reached { (ws : List (List ℕ)) (rest : List Bool) → repeat word (n - (a + 1)) (drop (w.entry.at + 8 * w.entry.count) (bits_in s.entry)) ≡ done ws rest → result ≡ a + place_of (λ v. not (goes_on (bytes_of w.entry) v)) ws }
    ensures few { result < 200 }
{
    let mut at = w.at + 8 * w.count;
    for i in a + 1..n {
        let Ok(v) = read_word(s, at) else {
            return i - 1;
        };
        if !is_going_on(w, v) {
            return i - 1;
        }
        at = v.at + 8 * v.count;
    }
    n - 1
}

// How far each of n words reaches, which stand from a bit on.
fn put_reaches(s: Source, from: usize, n: usize, reach: &mut Reach)
    requires { n ≤ 200 }
    ensures same { reach.new.any ≡ reach.old.any }
    ensures each { (ws : List (List ℕ)) (rest : List Bool) → repeat word n (drop from (bits_in s.entry)) ≡ done ws rest → EachReach ws n reach.new.last }
{
    let mut at = from;
    for a in 0..n {
        let Ok(w) = read_word(s, at) else {
            return;
        };
        at = w.at + 8 * w.count;
        reach.last[a] = reach_of(s, w, a, n) as u8;
    }
}

// The same and whether one has a hyphen; without one nothing else is asked.
pub fn fill(s: Source, from: usize, n: usize, plain: bool, reach: &mut Reach)
    requires { n ≤ 200 }
    ensures { (ws : List (List ℕ)) (rest : List Bool) → repeat word n (drop from (bits_in s.entry)) ≡ done ws rest → plain ≡ all (all is_first_byte) ws → Reaches ws reach.new }
{
    reach.any = !plain;
    if !plain {
        put_reaches(s, from, n, reach);
    }
}
