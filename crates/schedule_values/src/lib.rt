// A field of a schedule met in bytes: its value, or its fault, both ends before the value; and what stands behind the last field
// (FORMAT 12.3). The calls between a schedule and its records read so, and so does a walk.
#![tactic(auto)]

ghost use Rattle.std.specs.Prelude.{◌≡◌, ◌+◌, ◌≤◌, ◌<◌, length, drop};
ghost use Rattle.definitions.specs.Bits.{bits_of, num};
ghost use Rattle.definitions.specs.Checks.{bad_fill};
ghost use Rattle.definitions.specs.Conversion.{bad_width, schedule_fault};
ghost use Rattle.fields.specs.Fields.{fault_of};
ghost use Rattle.schedule_values.specs.Meeting.{Meets, bits_within, most_bits};

use bits::Cursor;
use fields::Fault;
use schedule_fields::Rule;

// W, the number of words of the sheet that a schedule belongs to, is 2 to 200 (FORMAT 1.2).
const LEAST_WORDS: usize = 2;

const MOST_WORDS: usize = 200;

// The refusals: a field or a record passes an end; W, a value or the fill is not allowed (FORMAT 12.3).
const PAST: usize = 11;

pub const NOT_ALLOWED: usize = 12;

// No schedule has so many bytes in either form.
const MOST_BYTES: usize = 268435456;

// The number of a fault in a schedule (FORMAT 12.3).
pub fn number_of(fault: Fault) -> usize
    ensures { result ≡ schedule_fault (fault_of fault) }
{
    match fault {
        Fault::Past => PAST,
        Fault::NotAllowed => NOT_ALLOWED,
    }
}

// Whether W is not what it may be.
pub fn is_bad_width(w: usize) -> bool
    ensures { result ≡ bad_width w }
{
    !(LEAST_WORDS..=MOST_WORDS).contains(&w)
}

// The bits of so many bytes, or as many as no schedule has in either form: those of longer slices may be more than a number
// counts.
pub fn bits_within(bytes: usize) -> usize
    ensures { result ≡ bits_within bytes }
{
    bytes.min(MOST_BYTES) * 8
}

// The n bits at a place, 0 for those past the end. `wide` makes the same test: here it is made in line, since a call of `wide` for
// each field takes a fifth more instructions.
#[inline(always)]
fn value_at(source: &[u8], at: usize, n: usize) -> usize
    requires { (0 < n) × (n ≤ 16) }
    ensures { result ≡ num n (drop at (bits_of source.now)) }
{
    if at / 8 + 8 <= source.len() {
        return sheet_window::wide_in(source, at, n) as usize;
    }
    sheet_window::wide(source, at, n) as usize
}

// The n bits at a place as the value of a field, where the source has `end` bits, and `short` tells that the other form has no
// room for it: both ends before the value (FORMAT 12.3). In line, since a call for each field takes a fifth more instructions, and
// twice as many where a schedule is walked.
#[inline(always)]
pub fn meet(
    source: &[u8],
    end: usize,
    at: usize,
    n: usize,
    short: bool,
    rule: Rule,
) -> Result<usize, Fault>
    requires { (end ≡ bits_within (length source.now)) × (0 < n) × (n ≤ 16) × (at + n ≤ most_bits) }
    ensures { Meets short n rule source.now at result }
{
    let value = value_at(source, at, n);
    if short || end < at + n {
        return Err(Fault::Past); // there is no room for it, or it is cut
    }
    if !(rule.least..=rule.most).contains(&value) {
        return Err(Fault::NotAllowed);
    }
    Ok(value)
}

// Whether a byte or a set bit stands behind the last field (FORMAT 12.3). Where no byte does, the bits can be counted.
pub fn is_bad_fill(source: &[u8], at: usize) -> bool
    requires { at ≤ most_bits }
    ensures { result ≡ bad_fill (drop at (bits_of source.now)) }
{
    if (at + 7) / 8 < source.len() {
        return true;
    }
    sheet::is_bad_fill(source, Cursor { at })
}
