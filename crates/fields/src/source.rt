// A sheet whose words are counted.
ghost use Rattle.std.specs.Prelude.{◌≤◌};
ghost use Rattle.bits.specs.Reading.{Addressable};

// The bytes of a sheet, lent, and how many words it has: each word field is below that (FORMAT 2.5). What reads before the words
// are counted, or bits alone, takes the slice, with a clause that its bits can be counted: a struct of the slice would be opened
// at every read.
#[derive(Clone, Copy)]
pub struct Sheet<'a> {
    pub bytes: &'a [u8],
    pub words: usize,
    ghost addressable: { Addressable bytes.now },
    // 255 stands for no word.
    ghost few: { words ≤ 255 },
}
