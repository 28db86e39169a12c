// Prints what standard input asks for, as the programs do, so that the lines can be compared with those of a model. The first
// byte is 0 for a schedule's records in the numbers of the words, 1 in the words of a sheet, else a refusal with a diagnosis;
// then a refusal's number, the flag, and two bytes each for the rows and the length of the sheet. The sheet follows, and behind
// it the records or the diagnosis.
#![tactic(auto)]

use std::alloc::Global;
use std::io;
use std::io::{BufWriter, Read, Write};
use text::{Diagnosis, Refused, Schedule, Words};

// The most bytes behind the head.
const MOST: usize = 65536;

// What is asked for: a schedule's records, in the numbers of the words or in the words of a sheet, or a refusal.
#[derive(Clone, Copy)]
enum Asked {
    InNumbers,
    InWords,
    Refusal,
}

impl From<u8> for Asked {
    fn from(byte: u8) -> Asked {
        match byte {
            0 => Asked::InNumbers,
            1 => Asked::InWords,
            _ => Asked::Refusal,
        }
    }
}

// What is written, with one byte for each character up to U+00FF: a word of a sheet may have any bytes, and its text has these
// as characters.
#[derive(Drop)]
struct Bytes<W: Write + Drop> {
    to: W,
    // what the first byte of such a character, of which the second is still to come, adds to that
    add: u8,
}

impl<W: Write + Drop> Write for Bytes<W> {
    fn write(&mut self, buf: &[u8]) -> io::Result<usize> {
        for byte in buf {
            match *byte {
                0xC2 => self.add = 0,
                0xC3 => self.add = 64,
                byte => {
                    self.to.write_all(&[byte.saturating_add(self.add)])?;
                    self.add = 0;
                }
            }
        }
        Ok(buf.len())
    }

    fn flush(&mut self) -> io::Result<()> {
        self.to.flush()
    }
}

// Prints what an input asks for.
fn answer<R: Read, W: Write + Drop>(alloc: Global, input: &mut R, to: W) -> io::Result<()> {
    let mut out = Bytes { to, add: 0 };
    let [
        asked,
        number,
        more,
        rows_high,
        rows_low,
        sheet_high,
        sheet_low,
    ]: [u8; 7] = console::read_padded(input)?;
    let bytes = console::read_up_to(alloc, input, MOST)?;
    let size = console::two([sheet_high, sheet_low]);
    let Some((sheet, rest)) = bytes.as_slice().split_at_checked(size) else {
        return Ok(());
    };
    let asked = Asked::from(asked);
    let words = match asked {
        Asked::InNumbers => Words::unknown(alloc, 0),
        Asked::InWords | Asked::Refusal => Words::of_sheet(alloc, sheet)?,
    };
    match asked {
        Asked::InNumbers | Asked::InWords => {
            let schedule = Schedule {
                words: &words,
                records: rest,
            };
            write!(out, "{schedule}")?;
        }
        Asked::Refusal => {
            let diagnosis = Diagnosis {
                words: &words,
                written: rest,
                rows: console::two([rows_high, rows_low]),
                more: more == 1,
            };
            write!(out, "{}{diagnosis}", Refused(number as usize))?;
        }
    }
    out.flush()
}

fn main(rt: HostRuntime) -> io::Result<()> {
    let out = BufWriter::new(rt.alloc(), io::writer(&rt))?;
    answer(rt.alloc(), &mut rt.reader(), out)
}

#[cfg(test)]
mod tests {
    use super::*;
    use std::test::Fail;

    // What is printed where an input asks for it.
    fn prints(rt: &HostRuntime, input: &[u8], expected: &[u8]) -> Result<bool, Fail> {
        let mut input = input;
        let mut out = Vec::new(rt.alloc());
        answer(rt.alloc(), &mut input, &mut out)?;
        Ok(out.as_slice() == expected)
    }

    #[test]
    fn words_that_are_not_there(rt: HostRuntime) -> Result<(), Fail> {
        // of `resource` and `self` word 5: nothing; word 256: its number
        let absent =
            b"\x01\x00\x00\x00\x00\x00\x0f\x10\x24\x39\x32\xb9\xb7\xba\xb9\x31\xb2\x91\xcd\x95\xb1\x98\x00\x01\x00\x05\x00\x00\x00\x00";
        assert!(rt; prints(&rt, absent, b"T \n")?);
        let number = b"\x01\x00\x00\x00\x00\x00\x00\x00\x01\x01\x00\x00\x00\x00\x00";
        assert!(rt; prints(&rt, number, b"T 256\n")?);
        // of a sheet that ends in the first word the others are nothing
        let cut =
            b"\x01\x00\x00\x00\x00\x00\x04\x10\x31\x30\xd4\x00\x03\x00\x00\x00\x00\x00\x01\x00\x00\x00\x02\x00\x00\x00\x00";
        assert!(rt; prints(&rt, cut, b"T a\x00\nT \nT \n")?);
        // a word with a byte past ASCII, and one byte for it
        let byte =
            b"\x01\x00\x00\x00\x00\x00\x08\x10\x20\xf4\x91\xcd\x95\xb1\x98\x00\x01\x00\x00\x00\x00\x00\x00";
        assert!(rt; prints(&rt, byte, b"T \xe9\n")?);
        Ok(())
    }

    #[test]
    fn rows_that_are_not_there(rt: HostRuntime) -> Result<(), Fail> {
        // two rows, of which the second has no bytes; one with three bytes, and more
        let none =
            b"\x02\x08\x00\x00\x02\x00\x0f\x10\x24\x39\x32\xb9\xb7\xba\xb9\x31\xb2\x91\xcd\x95\xb1\x98\x01\x00\xff\x01\xff\xff";
        let rows =
            b"refused 8\nD 1 resource self -\nD 0 resource.resource resource.resource resource\n";
        assert!(rt; prints(&rt, none, rows)?);
        let part =
            b"\x02\x08\x01\x00\x01\x00\x0f\x10\x24\x39\x32\xb9\xb7\xba\xb9\x31\xb2\x91\xcd\x95\xb1\x98\x01\x00\xff";
        let row = b"refused 8\nD 1 resource resource.resource resource\nmore\n";
        assert!(rt; prints(&rt, part, row)?);
        Ok(())
    }
}
