// Refusal 6: what stands twice among the names of the types, the keys of the extension records, and within a type (FORMAT 2.12).
#![tactic(auto)]

ghost use Rattle.std.specs.Prelude.{not, ◌≡◌, ◌≤◌, eqb, take, drop};
ghost use Rattle.lists.specs.Lists.{any, repeats, ascends};
ghost use Rattle.definitions.specs.Bits.{bits_of};
ghost use Rattle.bits.specs.Reading.{Addressable};
ghost use Rattle.fields.specs.Fields.{bits_in};
ghost use Rattle.sheet_same.specs.Repeats.{type_repeats};
ghost use Rattle.sheet_draft.specs.Draft.{types_in};
ghost use Rattle.sheet_types.specs.Rows.{NotesRead};
ghost use Rattle.sheet_repeats.specs.Twice.{apart, keys_in, Few, twice_in};

use catalogue::Catalogue;
use fields::Sheet;
use sheet_draft::{Draft, Entry};
use sheet_order::ByName;

// Whether two of the first n entries, which stand in name order, have one key: two neighbours have then.
// No `ByName`: with one, the proof did not find how long the array is that it lends.
fn has_name_twice(entries: &[Entry; 64], n: usize) -> bool
    requires { n ≤ 64 }
    ensures { result ≡ not (ascends apart (take n entries.now)) }
{
    !entries[..n].is_sorted_by(|a, b| a.key != b.key)
}

// Whether a key is that of one of the n extension records, from a place on.
fn has_key_from(t: &Catalogue, key: u64, from: usize, n: usize) -> bool
    requires { n ≤ 32 }
    ensures { result ≡ any (eqb key) (drop from (keys_in t.now n)) }
{
    (from..n).any(|j| key == t.extensions[j].key)
}

// Whether two of the n extension records have one key.
fn has_key_twice(t: &Catalogue, n: usize) -> bool
    requires { n ≤ 32 }
    ensures { result ≡ repeats eqb (keys_in t.now n) }
{
    (0..n).any(|i| has_key_from(t, t.extensions[i].key, i + 1, n))
}

// Whether one of the first n types repeats something within itself.
fn is_one_repeating(s: Sheet, d: &Draft, n: usize) -> bool
    requires { (n ≤ 64) × NotesRead s.words (bits_in s) d.now n }
    ensures { result ≡ any type_repeats (types_in s.entry.words (bits_in s.entry) d.now n) }
{
    (0..n).any(|i| {
        let row = &d.rows[i];
        sheet_within::is_repeating_at(s, row.place, row.key % 256 == 0)
    })
}

// Any of these, in draft and catalogue.
pub fn is_something_twice(s: &[u8], x: ByName, t: &Catalogue) -> bool
    requires { Addressable s.now × Few x.read × NotesRead x.read.width (bits_of s.now) x.draft.now x.read.count }
    ensures { result ≡ twice_in x.entry.read (bits_of s.now) x.entry.draft.now x.entry.entries.now t.now }
{
    let sheet = Sheet {
        bytes: s,
        words: x.read.width,
    };
    has_name_twice(x.entries, x.read.count)
        || has_key_twice(t, x.read.extensions)
        || is_one_repeating(sheet, x.draft, x.read.count)
}
