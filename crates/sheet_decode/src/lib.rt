// The decoder: tests 3 to 7 of a sheet, its types put into a draft and its extension records into the catalogue.
#![tactic(auto)]

ghost use Rattle.std.specs.Prelude.{◌≡◌, ◌≤◌, length, drop, IfOk};
ghost use Rattle.definitions.specs.Bits.{bits_of};
ghost use Rattle.definitions.specs.Reading.{sheet};
ghost use Rattle.bits.specs.Reading.{Addressable};
ghost use Rattle.sheet_decode.specs.Lists.{telling_in, records, seen, of_lists, Kept, WordsReached};
ghost use Rattle.sheet_decode.specs.Decodes.{Decodes};

use answers::Refusal;
use bits::Cursor;
use catalogue::Catalogue;
use fields::{Fault, Sheet};
use sheet_draft::{Decoding, Draft, Entry};
use sheet_order::ByName;
use sheet_reach::Reach;
use sheet_words::WordsRead;

// What was read, the place behind the last field, and whether words are refused: a flag and no Err, as 7 is told before 5
// (FORMAT 7.3).
#[derive(Clone, Copy)]
pub struct Lists {
    pub at: usize,
    pub bad: bool,
    pub read: Decoding,
}

// The types and the extension records behind the words; whether one of these has a hyphen is told.
fn read_records(
    s: &[u8],
    w: WordsRead,
    hyphens: bool,
    d: &mut Draft,
    t: &mut Catalogue,
) -> Result<Lists, Fault>
    requires { Addressable s.now × (w.count ≤ 200) }
    ensures { (of_lists (bits_of s.now) d.new t.new result ≡ records (telling_in w) (drop w.at (bits_of s.now))) × IfOk result (λ l. Kept (bits_of s.now) d.new l.read × (l.read.hyphens ≡ hyphens)) }
{
    let sheet = Sheet {
        bytes: s,
        words: w.count,
    };
    let (types, next) = sheet_types::read_types(sheet, Cursor { at: w.at }, d)?;
    let (records, end) = sheet_extensions::read_extensions(sheet, next, t)?;
    Ok(Lists {
        at: end.at,
        bad: w.bad,
        read: Decoding {
            width: w.count,
            count: types,
            extensions: records,
            resource: w.resource,
            own: w.own,
            hyphens,
        },
    })
}

// All fields of the sheet: refusals 3 and 4 (FORMAT 2.1); and how far its words reach.
fn read_lists(s: &[u8], reach: &mut Reach, d: &mut Draft, t: &mut Catalogue) -> Result<Lists, Fault>
    requires { Addressable s.now }
    ensures { (of_lists (bits_of s.now) d.new t.new result ≡ seen (sheet (bits_of s.now))) × IfOk result (λ l. Kept (bits_of s.now) d.new l.read × (l.read.hyphens ≡ reach.new.any) × WordsReached (bits_of s.now) reach.new) }
{
    let next = sheet::read_version(s, Cursor { at: 0 })?;
    let w = sheet_words::read_words(s, next, reach)?;
    read_records(s, w, reach.any, d, t)
}

// The whole sheet, or the first of the tests 3, 4, 7, 5 and 6 that holds (FORMAT 7.3).
pub fn decode(
    s: &[u8],
    d: &mut Draft,
    entries: &mut [Entry; 64],
    t: &mut Catalogue,
) -> Result<Decoding, Refusal>
    requires { length s.now ≤ 40960 }
    ensures { Decodes s.now d.new entries.new t.new result }
{
    let mut reach = Reach::blank();
    let l = read_lists(s, &mut reach, d, t)?;
    if sheet::is_bad_fill(s, Cursor { at: l.at }) {
        return Err(Refusal::Fill);
    }
    if l.bad {
        return Err(Refusal::Words);
    }
    let n = l.read;
    sheet_order::order_by_name(d, n.count, &reach, entries);
    let x = ByName {
        draft: d,
        entries,
        read: n,
    };
    if sheet_repeats::is_something_twice(s, x, t) {
        return Err(Refusal::Repeats);
    }
    Ok(n)
}
