// The two calls that turn a packed schedule into records, and records into a packed schedule (FORMAT 12). Both are one loop over
// the fields: first it looks, and where nothing is to be refused it goes again and writes. Bools say which form is read and
// whether the pen is down, so that one loop, with one proof, makes all four passes.
#![tactic(auto)]

ghost use Rattle.std.specs.Prelude.{true, not, ◌≡◌, ◌+◌, ◌*◌, ◌≤◌, ◌<◌, length};
ghost use Rattle.definitions.specs.Bits.{to_bits};
ghost use Rattle.definitions.specs.LegalSchedule.{LegalWidth};
ghost use Rattle.definitions.specs.Conversion.{convert, read_schedule, write_schedule};
ghost use Rattle.bits.specs.Writing.{put};
ghost use Rattle.item_pen.specs.Pen.{Room, Penned};
ghost use Rattle.schedule_records.specs.Turning.{form_of, Aligned, Passes, Converts};

use fields::Fault;
use item_pen::Field;
use schedule_fields::Place;

// The bits of a record (FORMAT 12.2).
const RECORD: usize = 16;

// So many bytes for each of a schedule suffice for its records: a field has a bit at least.
pub const RECORDS: usize = 16;

// How wide a field of n bits is in a form, packed or a record (FORMAT 12.2).
fn in_form(packed: bool, n: usize) -> usize
    ensures { result ≡ form_of packed n }
{
    if packed { n } else { RECORD }
}

// A record into the two bytes from i on, the high one first (FORMAT 12.2).
fn put_record(target: &mut [u8], i: usize, v: u16)
    requires { i + 2 ≤ length target.old }
    ensures { target.new ≡ put target.old (8 * i) (to_bits 16 v) }
{
    target[i..i + 2].copy_from_slice(&v.to_be_bytes());
}

// With the pen down a field goes to bit `at`, packed or as a record; with the pen up nothing is touched. The answer is the bit
// behind it.
fn lay(target: &mut [u8], at: usize, down: bool, packed: bool, f: Field) -> usize
    requires room { Room down target.old at f.width }
    requires aligned { Aligned packed f.width at }
    ensures { Penned down target.old target.new at result (to_bits f.width f.value) }
{
    if !down {
        return at + f.width;
    }
    if packed {
        item_pen::put_bits(target, at, f);
        return at + f.width;
    }
    put_record(target, at / 8, f.value as u16);
    at + f.width
}

// All fields of a source in one form, into a target in the other: packed into records where `reading`, else records into packed.
// With the pen up the target is not touched. The answer is how many bits they have in the other form.
fn pass(
    w: usize,
    source: &[u8],
    target: &mut [u8],
    reading: bool,
    down: bool,
) -> Result<usize, Fault>
    requires { LegalWidth w }
    ensures { Passes w reading down source.now target.old target.new result }
{
    let end = schedule_values::bits_within(source.len());
    let room = schedule_values::bits_within(target.len());
    let mut place = Place::Names;
    let mut at = 0;
    let mut to = 0;
    let mut rule = schedule_fields::rule_at(place, w);
    // No range: which field comes next each value says, and how many there are shows at the last.
    while rule.width != 0 {
        let n = in_form(reading, rule.width);
        let m = in_form(!reading, rule.width);
        let value = schedule_values::meet(source, end, at, n, room < to + m, rule)?;
        at += n;
        let field = Field {
            width: m,
            value: value as u64,
        };
        to = lay(target, to, down, !reading, field);
        place = schedule_fields::next(place, value);
        rule = schedule_fields::rule_at(place, w);
    }
    if schedule_values::is_bad_fill(source, at) {
        return Err(Fault::NotAllowed);
    }
    Ok(to)
}

// W first; then all fields are looked at, and only where none is refused they are written (FORMAT 12.3, 12.4).
fn turn(w: usize, source: &[u8], target: &mut [u8], reading: bool) -> Result<usize, Fault>
    ensures { Converts result target.new (convert (form_of reading) (form_of (not reading)) w source.now target.old) }
{
    if schedule_values::is_bad_width(w) {
        return Err(Fault::NotAllowed);
    }
    pass(w, source, target, reading, false)?;
    let bits = pass(w, source, target, reading, true)?;
    Ok((bits + 7) / 8)
}

// A packed schedule into records (FORMAT 12.1): how many bytes they are.
pub fn read_schedule(w: usize, schedule: &[u8], records: &mut [u8]) -> Result<usize, Fault>
    ensures { Converts result records.new (read_schedule w schedule.now records.old) }
{
    turn(w, schedule, records, true)
}

// Records into a packed schedule (FORMAT 12.1): how many bytes it has.
pub fn write_schedule(w: usize, records: &[u8], schedule: &mut [u8]) -> Result<usize, Fault>
    ensures { Converts result schedule.new (write_schedule w records.now schedule.old) }
{
    turn(w, records, schedule, false)
}
