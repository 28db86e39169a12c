// The lines of a refusal (FORMAT 9.4).
use crate::words::{Name, Word, Words};
use bits::byte_at;
use emitting::{ABSENT, ROW};
use std::fmt;

// The line that a refusal begins with.
#[derive(Clone, Copy)]
pub struct Refused(pub usize);

impl fmt::Display for Refused {
    fn fmt<W: fmt::Write>(&self, f: &mut fmt::Formatter<W>) -> fmt::Result {
        let number = self.0;
        writeln!(f, "refused {number}")
    }
}

// A diagnosis slice in the words of its sheet: how many rows were written into it, and whether there are more. A byte that the
// slice lacks is 0.
#[derive(Clone, Copy)]
pub struct Diagnosis<'a> {
    pub words: &'a Words,
    pub written: &'a [u8],
    pub rows: usize,
    pub more: bool,
}

impl<'a> Diagnosis<'a> {
    fn word(&self, n: u8) -> Option<Word<'a>> {
        if n == ABSENT {
            None
        } else {
            Some(self.words.printed(n as usize))
        }
    }

    fn name(&self, first: u8, second: u8) -> Name<'a> {
        Name {
            first: self.word(first),
            second: self.word(second),
        }
    }

    fn row(&self, i: usize) -> [u8; ROW] {
        let at = i.saturating_mul(ROW);
        let byte = |k: usize| byte_at(self.written, at.saturating_add(k));
        [byte(0), byte(1), byte(2), byte(3), byte(4), byte(5)]
    }
}

impl fmt::Display for Diagnosis<'_> {
    fn fmt<W: fmt::Write>(&self, f: &mut fmt::Formatter<W>) -> fmt::Result {
        for i in 0..self.rows {
            let [kind, a, b, c, d, e] = self.row(i);
            let subject = self.name(a, b);
            let other = self.name(c, d);
            let word = self.name(e, ABSENT);
            writeln!(f, "D {kind} {subject} {other} {word}")?;
        }
        if self.more {
            f.write_str("more\n")?;
        }
        Ok(())
    }
}
