// The names of the types in the catalogue: for each word the sets of the types that have it, the words that are the last of a
// name, and the owner of each name of two words.
#![tactic(auto)]

ghost use Rattle.std.specs.Prelude.{◌≡◌, ◌+◌, ◌<◌};
ghost use Rattle.item_names.specs.Names.{NameMarked, WordPut, WordsPut, FewWords, owner_of, OwnersPut, KeysSmall};

use catalogue::{Catalogue, Word};
use fields::Name;

// A type goes into the set of its first word and into that of its second, or of those that have none.
pub fn mark_name(t: &mut Catalogue, a: usize, name: Name)
    requires { a < 64 }
    ensures { NameMarked a name.first name.second t.old t.new }
{
    let w = name.first as usize;
    let v = name.second.wrapping_add(1) as usize;
    t.firsts[w] = bitsets::with_one(t.firsts[w], a);
    t.seconds[v] = bitsets::with_one(t.seconds[v], a);
}

// The word w with the set of the types whose last word it is, behind the first n words, if there are such types.
fn put_word_if(t: &mut Catalogue, n: usize, w: usize, mask: u64) -> usize
    requires { (mask ≡ 0 → ⊥) → n < 64 }
    ensures { WordPut n w mask t.old t.new result }
{
    if mask == 0 {
        return n;
    }
    t.words[n] = Word {
        word: w as u64,
        types: mask,
    };
    n + 1
}

// The words below `width` that are the last of a type's name, ascending, each with its types. The answer says how many.
pub fn put_words(t: &mut Catalogue, width: usize) -> usize
    requires { FewWords width t.old }
    ensures { WordsPut width t.old t.new result }
{
    let none = t.seconds[0];
    let mut n: usize = 0;
    for w in 0..width {
        let first = t.firsts[w];
        let second = t.seconds[w + 1];
        n = put_word_if(t, n, w, first & none | second);
    }
    n
}

// The place of the type of the set, or 64 where the name of the key has one word or the set is empty. The column has the number,
// since `trailing_zeros` answers 64 for the empty set: an Option would be made of it here and matched where an owner is asked.
fn owner_of(key: u64, set: u64) -> u64
    ensures { result ≡ owner_of key set }
{
    if key % 256 == 0 {
        return 64;
    }
    u64::trailing_zeros(set) as u64
}

// For each type of a name `a.b` the place of the type `a`, whose key is that of `a.b` with 0 for the second word: by way of a Name
// it would be taken apart and put together again.
pub fn put_owners(t: &mut Catalogue, count: usize)
    requires { KeysSmall count t.old }
    ensures { OwnersPut count t.old t.new }
{
    for a in 0..count {
        let key = t.keys[a];
        let owner = t.type_of(key / 256 * 256);
        t.owners[a] = owner_of(key, owner);
    }
}
