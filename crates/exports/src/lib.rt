// The calls for C and Rust, for `rt staticlib exports`. See include/gidzelma.h.
#![tactic(auto)]

ghost use Rattle.std.specs.Prelude.{false, [], ◌∷◌, ◌≡◌, ◌^◌, ◌<◌, ◌≤◌, length};
ghost use Rattle.definitions.specs.Answer.{overwrite};
ghost use Rattle.answers.specs.Answers.{parts_of, order_input, schedule_input};
ghost use Rattle.access.specs.Lines.{LinesListed};
ghost use Rattle.definitions.specs.Conversion.{read_schedule, write_schedule};
ghost use Rattle.tariff_definitions.specs.Tariff.{charged};
ghost use Rattle.exports.specs.Exports.{flag, exported};
ghost use Rattle.exports.specs.Conversions.{exported_conversion};
ghost use Rattle.exports.specs.Parts.{Small, converted};

use answers::{Parts, Settings};
use fields::Fault;

// What is answered where fewer than three numbers are lent for the parts.
const TOO_FEW_PARTS: u32 = 255;

// Of a schedule that was turned into records, or back.
fn parts_of_conversion(a: Result<usize, Fault>) -> Parts
    ensures { parts_of result ≡ converted a }
{
    let (number, size) = match a {
        Ok(size) => (0, size),
        Err(fault) => (schedule_values::number_of(fault), 0),
    };
    Parts {
        number,
        size,
        rows: 0,
        more: false,
    }
}

// Writes size, rows and flag, which is 1 if there are more, and answers the number.
fn tell(p: Parts, parts: &mut [u32]) -> u32
    requires lent { 3 ≤ length parts.old }
    requires small { Small (parts_of p) }
    ensures { (result ≡ p.number) × (parts.new ≡ overwrite (p.size ∷ p.rows ∷ flag p.more ∷ []) parts.old) }
{
    parts[0] = p.size as u32;
    parts[1] = p.rows as u32;
    parts[2] = u32::from(p.more);
    p.number as u32
}

// The order-only call, under a limit of so many rows. Where fewer than three numbers are lent, the answer is no refusal's number,
// and nothing is touched.
#[unsafe(no_mangle)]
pub extern "C" fn gidzelma_order(
    sheet: &[u8],
    rows: u32,
    listing: &mut [u8],
    diagnosis: &mut [u8],
    parts: &mut [u32],
) -> u32
    ensures { record { number = result; parts = parts.new; listing = listing.new; diagnosis = diagnosis.new } ≡ exported (order_input (record { rows = rows }) sheet.now listing.old diagnosis.old) parts.old }
{
    if parts.len() < 3 {
        return TOO_FEW_PARTS;
    }
    let settings = Settings {
        rows: rows as usize,
    };
    let answer = access::order(settings, sheet, listing, diagnosis);
    tell(Parts::from(answer), parts)
}

// The schedule call, likewise; the lines of an accepted map stand in the listing, as `access::schedule` promises.
#[tactic(auto, using(crate::specs::ExportLaws::too_few, crate::specs::ExportLaws::none_listed))]
#[unsafe(no_mangle)]
pub extern "C" fn gidzelma_schedule(
    sheet: &[u8],
    rows: u32,
    listing: &mut [u8],
    diagnosis: &mut [u8],
    parts: &mut [u32],
) -> u32
    ensures diagnosis_after { record { number = result; parts = parts.new; listing = listing.new; diagnosis = diagnosis.new } ≡ exported (schedule_input (record { rows = rows }) sheet.now listing.old diagnosis.old) parts.old }
    ensures lines_listed { LinesListed sheet.now listing.old listing.new result }
{
    if parts.len() < 3 { // no room for size, rows and flag
        return TOO_FEW_PARTS; // and nothing is touched
    }
    let settings = Settings {
        rows: rows as usize,
    };
    let answer = access::schedule(settings, sheet, listing, diagnosis);
    tell(Parts::from(answer), parts)
}

// A packed schedule into records, for a sheet of w words (FORMAT 12.1). Where fewer than three numbers are lent nothing is
// touched.
#[unsafe(no_mangle)]
pub extern "C" fn gidzelma_read_schedule(
    w: usize,
    schedule: &[u8],
    records: &mut [u8],
    parts: &mut [u32],
) -> u32
    ensures { record { number = result; parts = parts.new; output = records.new } ≡ exported_conversion (read_schedule w schedule.now records.old) records.old parts.old }
{
    if parts.len() < 3 { // no room for the size
        return TOO_FEW_PARTS;
    }
    let answer = schedule_records::read_schedule(w, schedule, records);
    tell(parts_of_conversion(answer), parts)
}

// Records into a packed schedule, likewise.
#[unsafe(no_mangle)]
pub extern "C" fn gidzelma_write_schedule(
    w: usize,
    records: &[u8],
    schedule: &mut [u8],
    parts: &mut [u32],
) -> u32
    ensures { record { number = result; parts = parts.new; output = schedule.new } ≡ exported_conversion (write_schedule w records.now schedule.old) schedule.old parts.old }
{
    if parts.len() < 3 {
        return TOO_FEW_PARTS;
    }
    let answer = schedule_records::write_schedule(w, records, schedule);
    tell(parts_of_conversion(answer), parts)
}

// What a tariff charges for a packed schedule (FORMAT 13.4). The sum goes to `total`, 0 where the answer is a refusal.
#[unsafe(no_mangle)]
pub extern "C" fn gidzelma_tariff(tariff: &[i32], w: usize, schedule: &[u8], total: &mut i64) -> u32
    ensures { record { number = result; total = total.new } ≡ charged tariff.now w schedule.now }
{
    let charged = tariff::total(tariff, w, schedule);
    match charged {
        Ok(sum) => {
            *total = sum;
            0
        }
        Err(refusal) => {
            *total = 0;
            refusal.number() as u32
        }
    }
}
