// The fields of an item that stand together, each made as one number out of keys of names (FORMAT 2.5, 6.2, 6.3).
// Keys are taken apart by hand: the second word is one more than the word, 0 for none, and one test of it decides both.
#![tactic(auto)]

ghost use Rattle.std.specs.Prelude.{◌∷◌, [], ◌++◌, ◌≡◌, ◌+◌, ◌*◌, ◌/◌, ◌≤◌, length};
ghost use Rattle.lists.specs.Lists.{each};
ghost use Rattle.definitions.specs.Bits.{to_bits};
ghost use Rattle.definitions.specs.Packing.{name_bits, parent_bits};
ghost use Rattle.definitions.specs.Comparisons.{dotted};
ghost use Rattle.catalogue.specs.Catalogue.{name_of_key};
ghost use Rattle.item_pen.specs.Pen.{field_bits, Holds};
ghost use Rattle.item_fields.specs.Fields.{words_bits, head_bits, line_bits};

use item_pen::Field;

// The words of a name, 8 bits each.
fn words_field(key: u64) -> Field
    ensures { Holds result (8 * length (name_of_key key)) (words_bits (name_of_key key)) × (result.width ≤ 16) }
{
    let first = item_pen::number(8, key >> 8);
    let second = key % 256;
    if second == 0 {
        return first;
    }
    item_pen::join(first, item_pen::number(8, second - 1))
}

// A name: its first word, a flag, and its second word if the flag is 1 (FORMAT 2.5).
pub fn name_field(key: u64) -> Field
    ensures { Holds result (length (name_bits (name_of_key key))) (name_bits (name_of_key key)) × (result.width ≤ 17) }
{
    let first = item_pen::number(8, key >> 8);
    let second = key % 256;
    if second == 0 {
        return item_pen::join(first, item_pen::number(1, 0));
    }
    let flagged = item_pen::join(first, item_pen::number(1, 1));
    item_pen::join(flagged, item_pen::number(8, second - 1))
}

// Words behind their number (FORMAT 6.2).
fn counted_words(words: Field) -> Field
    requires { words.width ≤ 24 }
    ensures { Holds result (2 + words.width) (to_bits 2 (words.width / 8) ++ field_bits words) }
{
    let count = (words.width / 8) as u64;
    item_pen::join(item_pen::number(2, count), words)
}

// A parent by its own name (FORMAT 6.2).
pub fn parent_field(key: u64) -> Field
    ensures { Holds result (length (parent_bits (name_of_key key))) (parent_bits (name_of_key key)) × (result.width ≤ 18) }
{
    counted_words(words_field(key))
}

// The parent P.r, out of the name of P and the word r (FORMAT 4.4, 6.2). Its width is known in each branch, since there is a call
// for each parent of a making.
pub fn passing_field(key: u64, word: u64) -> Field
    ensures { Holds result (length (parent_bits (dotted (name_of_key key) word))) (parent_bits (dotted (name_of_key key) word)) × (result.width ≤ 26) }
{
    let first = item_pen::number(8, key >> 8);
    let last = item_pen::number(8, word);
    let second = key % 256;
    if second == 0 {
        return item_pen::join(item_pen::number(2, 2), item_pen::join(first, last));
    }
    let name = item_pen::join(first, item_pen::number(8, second - 1));
    item_pen::join(item_pen::number(2, 3), item_pen::join(name, last))
}

// What stands before the parents of a synthesized resource: the bit 0, the type's name, the word, virtual, and the number of
// parents (FORMAT 6.2). Virtual is the last bit of a number, as heads have it: a bool would be made of it, and of that a bit.
pub fn head_field(key: u64, word: u64, is_virtual: u64, parents: u64) -> Field
    ensures { Holds result (length (head_bits key word is_virtual parents)) (head_bits key word is_virtual parents) × (result.width ≤ 32) }
{
    let name = item_pen::join(item_pen::number(1, 0), name_field(key));
    let flag = item_pen::join(item_pen::number(8, word), item_pen::number(1, is_virtual));
    item_pen::join(name, item_pen::join(flag, item_pen::number(5, parents)))
}

// An extension line: the bit 1, the type's name, virtual and trait, which are the bits 5 and 4 of its head, and the word (FORMAT
// 6.3).
pub fn line_field(key: u64, head: u64, word: u64) -> Field
    ensures { Holds result (length (line_bits key head word)) (line_bits key head word) × (result.width ≤ 28) }
{
    let name = item_pen::join(item_pen::number(1, 1), name_field(key));
    let flags = item_pen::number(2, head >> 4);
    item_pen::join(name, item_pen::join(flags, item_pen::number(8, word)))
}
