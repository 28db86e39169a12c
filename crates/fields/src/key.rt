// Names as numbers that ascend as names do (FORMAT 1.4).
ghost use Rattle.std.specs.Prelude.{◌≡◌};
ghost use Rattle.fields.specs.Keys.{key_of, name_with};

use super::Name;

// A key is the first word times 256, and one more than the second word, or 0 where there is none. A number and no type of its
// own: with the fact that it has 16 bits each entry that a definition makes of a draft would need a proof of it.
pub type Key = u64;

impl From<Name> for Key {
    ghost from_gives = { λ name key. key ≡ key_of name };

    fn from(name: Name) -> Key {
        u64::from(name.first) * 256 + (u64::from(name.second) + 1) % 256
    }
}

// The name that a key stands for; of a larger number that of its last 16 bits.
impl From<Key> for Name {
    ghost from_gives = { λ key name. name ≡ name_with key };

    fn from(key: Key) -> Name {
        Name {
            first: (key / 256 % 256) as u8,
            second: ((key % 256 + 255) % 256) as u8,
        }
    }
}
