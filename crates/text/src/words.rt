// The words of a sheet, and the names that are made of them.
ghost use Rattle.std.specs.Prelude.{◌≡◌, ◌≤◌, [], IfOk, vec_len};
ghost use Rattle.text.specs.Words.{value_at, width_of, IsWord, IsPrinted};

use bits::Cursor;
use reader::Reader;
use std::alloc::{AllocError, Global};
use std::fmt;
use std::fmt::Display;

// No slice of a program is longer.
const LONGEST: usize = 16777216;

// The version, W and the length of a word, in bits (FORMAT 2.2, 2.4).
const VERSION: usize = 4;

const WIDTH: usize = 8;

const LENGTH: usize = 5;

// The words that a byte can number.
const NUMBERED: usize = 256;

// A sheet whose fields are read one by one.
#[derive(Drop)]
struct Fields<'a> {
    reader: Reader<'a>,
}

impl<'a> Fields<'a> {
    // Behind the version.
    fn new(sheet: &'a [u8]) -> Fields<'a>
        ensures { (result.reader.sheet.now ≡ sheet.now) × (result.reader.at.at ≡ 4) }
    {
        let at = Cursor { at: VERSION };
        Fields {
            reader: Reader { sheet, at },
        }
    }

    // The next n bits; 0 where they pass the end.
    fn next(&mut self, n: usize) -> usize
        requires { n ≤ 16 }
        ensures { result ≡ value_at self.old.reader.sheet.now self.old.reader.at.at n }
    {
        if LONGEST < self.reader.sheet.len() {
            return 0;
        }
        let Some((value, behind)) = self.reader.read(n) else {
            return 0;
        };
        self.reader.at = behind;
        value
    }

    // A word: its length, and so many bytes (FORMAT 2.4). The next one begins behind them, also where the sheet lacks some.
    fn word(&mut self, alloc: Global) -> Result<String, AllocError> {
        let length = self.next(LENGTH);
        let behind = self.reader.at.at.saturating_add(length.saturating_mul(8));
        let mut word = String::new(alloc);
        for _ in 0..length {
            let byte = self.next(8) % 256;
            word.push(char::from(byte as u8))?;
        }
        self.reader.at = Cursor { at: behind };
        Ok(word)
    }
}

// W, the count of the words.
pub fn width(sheet: &[u8]) -> usize
    ensures { result ≡ width_of sheet.now }
{
    Fields::new(sheet).next(WIDTH)
}

// The words that a schedule is made of, and W, their count. A number below `spelled` is never printed itself: past the last word
// it is a text without letters.
#[derive(Drop)]
pub struct Words {
    width: usize,
    texts: Vec<String>,
    spelled: usize,
}

impl Words {
    // Those of a sheet.
    pub fn of_sheet(alloc: Global, sheet: &[u8]) -> Result<Words, AllocError>
        ensures width { IfOk result (λ w. w.width ≡ width_of sheet.now) }
        ensures words { IfOk result (λ w. vec_len w.texts ≡ w.width) }
        ensures spelled { IfOk result (λ w. w.spelled ≡ 256) }
    {
        let mut fields = Fields::new(sheet);
        let width = fields.next(WIDTH);
        let mut texts = Vec::new(alloc);
        for _ in 0..width {
            texts.push(fields.word(alloc)?)?;
        }
        Ok(Words {
            width,
            texts,
            spelled: NUMBERED,
        })
    }

    // W words of which only the numbers are known.
    pub fn unknown(alloc: Global, width: usize) -> Words
        ensures { (result.width ≡ width) × (result.texts.items ≡ []) × (result.spelled ≡ 0) }
    {
        Words {
            width,
            texts: Vec::new(alloc),
            spelled: 0,
        }
    }

    // W.
    pub fn width(&self) -> usize
        ensures { result ≡ self.now.width }
    {
        self.width
    }

    // Word n.
    pub fn word(&self, n: usize) -> Word<'_>
        ensures { IsWord self.now.texts.items n result }
    {
        match self.texts.get(n) {
            Some(text) => Word::Text(text.as_str()),
            None => Word::Number(n),
        }
    }

    // Word n as it is printed: that a sheet lacks it is not told.
    pub fn printed(&self, n: usize) -> Word<'_>
        ensures { IsPrinted self.now.texts.items self.now.spelled n result }
    {
        match self.word(n) {
            Word::Number(n) if n < self.spelled => Word::Text(""),
            word => word,
        }
    }
}

// A word: as text, or as its number where its text is not known.
#[derive(Clone, Copy)]
pub enum Word<'a> {
    Text(&'a str),
    Number(usize),
}

impl Display for Word<'_> {
    fn fmt<W: fmt::Write>(&self, f: &mut fmt::Formatter<W>) -> fmt::Result {
        match self {
            Word::Text(text) => f.write_str(text),
            Word::Number(n) => write!(f, "{n}"),
        }
    }
}

// A name of one or two words (FORMAT 1.3); none at all in a row that names nothing there (FORMAT 9.4).
#[derive(Clone, Copy)]
pub(crate) struct Name<'a> {
    pub(crate) first: Option<Word<'a>>,
    pub(crate) second: Option<Word<'a>>,
}

impl Display for Name<'_> {
    fn fmt<W: fmt::Write>(&self, f: &mut fmt::Formatter<W>) -> fmt::Result {
        match self.first {
            Some(first) => first.fmt(f)?,
            None => f.write_str("-")?,
        }
        match self.second {
            Some(second) => write!(f, ".{second}"),
            None => Ok(()),
        }
    }
}
