// The catalogue of a map: what is known of its types, by their places in name order, of its words and of its extension records.
// Columns for what is known of a type, since sets are asked, and lent, by their columns; a word with its types and an extension
// record, each read by its place, are structs. What holds of one that is filled is said by clauses: between the passes it does not
// hold.
#![tactic(auto)]

ghost use Rattle.std.specs.Prelude.{◌≡◌, ◌+◌, ◌*◌, ◌/◌, ◌%◌, ◌<◌};
ghost use Rattle.catalogue.specs.Layout.{blank, head_at, packed_at, mark_width, looked};
ghost use Rattle.catalogue.specs.Catalogue.{virtual_head};
ghost use Rattle.catalogue.specs.ByDom.{LeastKey, FirstByDom};

use item_heads::Packed;

// A word, and the set of the types whose last word it is.
#[derive(Clone, Copy)]
pub struct Word {
    pub word: u64,
    pub types: u64,
}

// An extension record (FORMAT 2.10).
#[derive(Clone, Copy)]
pub struct Extension {
    // The key of its type, times 256, and its word.
    pub key: u64,
    // How many parents it adds.
    pub count: u64,
    // They, as keys.
    pub parents: [u64; 8],
}

impl Extension {
    // The key of a record for a type and a word.
    pub fn key_of(key: u64, word: u64) -> u64
        requires { (key < 65536) × (word < 256) }
        ensures { (result ≡ key * 256 + word) × (result / 256 ≡ key) × (result % 256 ≡ word) }
    {
        key * 256 + word
    }

    // The key of its type.
    pub fn type_key(&self) -> u64
        ensures { result ≡ self.now.key / 256 }
    {
        self.key / 256
    }
}

#[derive(Drop)]
pub struct Catalogue {
    // The name of a type, as a key.
    pub keys: [u64; 64],
    // Variant, virtual, trait and number of parents of a type, in the 8 bits that the sheet has them in: an extension line has two of
    // them as they stand, so that a struct of the four would be put together again.
    pub heads: [u64; 64],
    // The marks of a type, as the bits that a schedule has them in.
    pub marks: [Packed; 64],
    // The set of a type's parents.
    pub parents: [u64; 64],
    // The set of the classes of a type's own Associates.
    pub own: [u64; 64],
    // The set of the classes that a type has from above.
    pub above: [u64; 64],
    // The set of the classes that a type passes on.
    pub passed: [u64; 64],
    // The place of the type `a` where a type's name is `a.b`, or 64 where there is none.
    pub owners: [u64; 64],
    // The words that are the last of a type's name, ascending, and the extension records: arrays whose counts stand below, and no
    // UpTo, since `blank` says what stands at each place, and a new UpTo only that none counts.
    pub words: [Word; 64],
    pub extensions: [Extension; 32],
    // The set of the types whose first word is w.
    pub firsts: [u64; 256],
    // The set of the types whose second word is one less than w; for 0 the set of those that have none.
    pub seconds: [u64; 256],
    // How many types there are.
    pub count: usize,
    // How many words are the last of a type's name.
    pub word_count: usize,
    // How many extension records there are.
    pub extension_count: usize,
    // The set of the types that have an extension record.
    pub extended: u64,
    // The number of the word `resource`.
    pub resource: u64,
    // The set of the types of the resource variant.
    pub resources: u64,
    // The set of the types that are a parent of one.
    pub childed: u64,
    // How many words the sheet has.
    pub width: usize,
    // Whether a word has a hyphen: then places, which are in name order, need not be in the order of word numbers.
    pub hyphens: bool,
}

impl Catalogue {
    // A catalogue in which nothing stands yet.
    #[tactic(auto, unfolding(crate::specs::Layout::blank))]
    pub fn blank() -> Catalogue
        ensures { result ≡ blank }
    {
        Catalogue {
            keys: [0; 64],
            heads: [0; 64],
            marks: [Packed::none(); 64],
            parents: [0; 64],
            own: [0; 64],
            above: [0; 64],
            passed: [0; 64],
            owners: [0; 64],
            words: [Word { word: 0, types: 0 }; 64],
            extensions: [Extension {
                key: 0,
                count: 0,
                parents: [0; 8],
            }; 32],
            firsts: [0; 256],
            seconds: [0; 256],
            count: 0,
            word_count: 0,
            extension_count: 0,
            extended: 0,
            resource: 0,
            resources: 0,
            childed: 0,
            width: 0,
            hyphens: false,
        }
    }

    // The type that has a name, as a set of one, or of none where the name is not declared. Types are found by this alone (FORMAT
    // 1.5).
    #[tactic(auto, unfolding(crate::specs::Layout::looked))]
    pub fn type_of(&self, key: u64) -> u64
        requires { key < 65536 }
        ensures { result ≡ looked self.now key }
    {
        let first = (key / 256) as usize;
        let second = (key % 256) as usize;
        self.firsts[first] & self.seconds[second]
    }

    // Whether a type is virtual (FORMAT 2.6).
    #[tactic(auto, unfolding(crate::specs::Catalogue::virtual_head))]
    pub fn is_virtual(&self, a: usize) -> bool
        requires { a < 64 }
        ensures { result ≡ virtual_head (head_at self.now a) }
    {
        self.heads[a] / 32 % 2 == 1
    }

    // The marks of a type (FORMAT 4.7).
    pub fn marks_of(&self, a: usize) -> Packed
        requires { a < 64 }
        ensures { result ≡ packed_at self.now a }
    {
        self.marks[a]
    }

    // How many bits they have.
    pub fn mark_width(&self, a: usize) -> usize
        requires { a < 64 }
        ensures { (result ≡ mark_width self.now a) × (result < 64) }
    {
        self.marks_of(a).width as usize
    }

    // The type of a set with the least key.
    fn least_key(&self, set: u64) -> usize
        requires { 0 < set }
        ensures { LeastKey self.now set result }
    {
        let mut best = bitsets::lowest(set);
        for c in bitsets::members(set) {
            if self.keys[c] < self.keys[best] {
                best = c;
            }
        }
        best
    }

    // The first of a set of classes of one word by dom (FORMAT 1.6).
    pub fn first_by_dom(&self, set: u64) -> usize
        requires { 0 < set }
        ensures { FirstByDom self.now set result }
    {
        if self.hyphens {
            return self.least_key(set);
        }
        bitsets::lowest(set)
    }
}
