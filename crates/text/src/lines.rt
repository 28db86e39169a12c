// The `T`, `R` and `E` lines of a schedule, out of its records (FORMAT 9, 12.2).
use crate::words::{Name, Word, Words};
use std::fmt;
use std::fmt::Display;

// A schedule's records, in the words of its sheet.
#[derive(Clone, Copy)]
pub struct Schedule<'a> {
    pub words: &'a Words,
    pub records: &'a [u8],
}

impl Display for Schedule<'_> {
    fn fmt<W: fmt::Write>(&self, f: &mut fmt::Formatter<W>) -> fmt::Result {
        let mut records = Records {
            words: self.words,
            left: self.records,
        };
        for _ in 0..records.number() {
            let name = records.name();
            writeln!(f, "T {name}")?;
        }
        for _ in 0..records.number() {
            records.print_item(f)?;
        }
        Ok(())
    }
}

// The records that are still to be read.
#[derive(Drop)]
struct Records<'a> {
    words: &'a Words,
    left: &'a [u8],
}

impl<'a> Records<'a> {
    // The next record: two bytes, the high one first; 0 at the end.
    fn number(&mut self) -> usize {
        let Some((record, behind)) = self.left.split_first_chunk::<2>() else {
            return 0;
        };
        self.left = behind;
        u16::from_be_bytes(*record) as usize
    }

    fn word(&mut self) -> Word<'a> {
        let n = self.number();
        self.words.printed(n)
    }

    // A word, and where the flag behind it says so, a second one.
    fn name(&mut self) -> Name<'a> {
        let first = Some(self.word());
        let second = if self.number() == 0 {
            None
        } else {
            Some(self.word())
        };
        Name { first, second }
    }

    // An item; its lead bit says which of the two it is (FORMAT 6.2, 6.3).
    fn print_item<W: fmt::Write>(&mut self, f: &mut fmt::Formatter<W>) -> fmt::Result {
        if self.number() == 0 {
            self.print_resource(f)
        } else {
            self.print_extension(f)
        }
    }

    // An `R` line (FORMAT 9.2).
    fn print_resource<W: fmt::Write>(&mut self, f: &mut fmt::Formatter<W>) -> fmt::Result {
        let name = self.name();
        let word = self.word();
        let is_virtual = self.number();
        write!(f, "R {name}.{word} {is_virtual} ")?;
        self.print_list(f, |records, f| records.print_parent(f))?;
        f.write_str(" ")?;
        self.print_list(f, |records, f| records.print_mark(f))?;
        f.write_str("\n")
    }

    // An `E` line (FORMAT 9.3).
    fn print_extension<W: fmt::Write>(&mut self, f: &mut fmt::Formatter<W>) -> fmt::Result {
        let name = self.name();
        let is_virtual = self.number();
        let is_trait = self.number();
        let word = self.word();
        writeln!(f, "E {name} {is_virtual}{is_trait} {word}")
    }

    // So many of what stands next, with a text between them.
    fn print_between<W: fmt::Write, F: Fn(&mut Self, &mut fmt::Formatter<W>) -> fmt::Result>(
        &mut self,
        f: &mut fmt::Formatter<W>,
        count: usize,
        between: &str,
        print: F,
    ) -> fmt::Result
        requires { F.IsAlwaysCallable print }
    {
        for i in 0..count {
            if 0 < i {
                f.write_str(between)?;
            }
            print(self, f)?;
        }
        Ok(())
    }

    // A list behind its count, with commas between; `-` where it is empty.
    fn print_list<W: fmt::Write, F: Fn(&mut Self, &mut fmt::Formatter<W>) -> fmt::Result>(
        &mut self,
        f: &mut fmt::Formatter<W>,
        print: F,
    ) -> fmt::Result
        requires { F.IsAlwaysCallable print }
    {
        match self.number() {
            0 => f.write_str("-"),
            count => self.print_between(f, count, ",", print),
        }
    }

    // A parent: the words of its name with dots between them, behind their count.
    fn print_parent<W: fmt::Write>(&mut self, f: &mut fmt::Formatter<W>) -> fmt::Result {
        let count = self.number();
        self.print_between(f, count, ".", |records, f| records.word().fmt(f))
    }

    // `makelist`, or `derive:` and the tag.
    fn print_mark<W: fmt::Write>(&mut self, f: &mut fmt::Formatter<W>) -> fmt::Result {
        if self.number() == 0 {
            return f.write_str("makelist");
        }
        let tag = self.number();
        write!(f, "derive:{tag}")
    }
}
