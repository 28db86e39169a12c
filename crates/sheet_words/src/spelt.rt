// The bytes of a sheet, and a word where it stands in them.
ghost use Rattle.bits.specs.Reading.{Addressable};
ghost use Rattle.sheet_words.specs.Bytes.{Held};

// The bytes of a sheet whose words are not counted yet, lent.
#[derive(Clone, Copy)]
pub struct Source<'a> {
    pub bytes: &'a [u8],
    ghost addressable: { Addressable bytes.now },
}

// A word of count bytes that stand from bit `at` on; `head` is the first six of them as one number, and where it is plain none is a
// hyphen.
#[derive(Clone, Copy)]
pub struct Spelt<'a> {
    pub source: Source<'a>,
    pub at: usize,
    pub count: usize,
    pub head: u64,
    pub plain: bool,
    ghost held: { Held source.bytes.now at count head plain },
}
