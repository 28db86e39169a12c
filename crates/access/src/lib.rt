// The public calls.
#![tactic(auto)]

ghost use Rattle.std.specs.Prelude.{◌*◌, ◌≤◌, length};
ghost use Rattle.definitions.specs.Records.{Sheet};
ghost use Rattle.definitions.specs.Answer.{outcome};
ghost use Rattle.order_compact.specs.Compact.{Drafts};
ghost use Rattle.sheet_decode.specs.Decodes.{Whole};
ghost use Rattle.answers.specs.Answers.{answer_of, Answered, order_input, schedule_input};
ghost use Rattle.access.specs.Ending.{Unordered};
ghost use Rattle.access.specs.Lines.{LinesListed};
ghost use Rattle.access.specs.Tables.{Takes, Decoded, Organizes, Ordered, FilledFor, RowsDue, Scheduled};

mod call;

pub use answers::Settings;
use answers::{Answer, Refusal};
pub use call::Call;
use catalogue::Catalogue;
use fields::{Key, Name};
use item_draft::Placing;
use order_form::Parents;
use order_rounds::Order;
use sheet_draft::{Decoding, Draft, Entry};
use sheet_order::ByName;

// 8: the map has no order; its rows are written (FORMAT 8.3 to 8.5).
// The slice's room is a clause here and below: a struct that lends it would have each say that it stays the same slice.
fn no_order(t: &Catalogue, x: ByName, limit: usize, diagnosis: &mut [u8]) -> Answer
    requires drafts { Drafts x.draft.now x.entries.now x.read.count }
    requires rows_in_bounds { 6 * limit ≤ length diagnosis.old }
    ensures { Unordered t.now x.entry.draft.now x.entry.entries.now x.entry.read.count x.entry.read.own limit diagnosis.old diagnosis.new result }
{
    let mut l = Parents::blank();
    order_compact::fill(&mut l, t, x);
    let report = order_diagnosis::diagnose(&l, diagnosis, limit);
    Err(Refusal::NoOrder(report))
}

// The tests before the order, for a diagnosis slice of `room` bytes. What passes stands in the tables (FORMAT 7.3).
fn take(
    settings: Settings,
    sheet: &[u8],
    room: usize,
    d: &mut Draft,
    entries: &mut [Entry; 64],
    t: &mut Catalogue,
) -> Result<Decoding, Refusal>
    ensures { Takes settings sheet.now room d.new entries.new t.new result }
{
    answers::refused_early(settings, sheet.len(), room)?;
    sheet_decode::decode(sheet, d, entries, t)
}

// Puts the names and the parents of the types into the catalogue, and looks for the order.
fn organize(t: &mut Catalogue, x: ByName, order: &mut Order) -> Option<Placing>
    requires decoded { Decoded x.draft.now x.entries.now t.old x.read }
    ensures { Organizes x.entry.draft.now x.entry.entries.now t.old t.new x.entry.read order.new result }
{
    let words = item_entries::put_names(t, x);
    let own = Name {
        first: x.read.own,
        second: 255,
    };
    let parents = order_parents::put_parents(t, x, Key::from(own));
    if !order_rounds::organize_type_map(t, x.read.count, parents.whole, order) {
        return None;
    }
    Some(Placing {
        words,
        childed: parents.set,
    })
}

// Writes the order, if there is one: 8, 10 or acceptance.
fn end_order(
    t: &mut Catalogue,
    x: ByName,
    limit: usize,
    listing: &mut [u8],
    diagnosis: &mut [u8],
) -> Answer
    requires decoded { Decoded x.draft.now x.entries.now t.old x.read }
    requires rows_in_bounds { 6 * limit ≤ length diagnosis.old }
    ensures { Ordered x.entry.draft.now x.entry.entries.now t.old x.entry.read limit listing.old diagnosis.old result listing.new diagnosis.new }
{
    let mut order = Order::new();
    let Some(_) = organize(t, x, &mut order) else {
        return no_order(t, x, limit, diagnosis);
    };
    order_listing::write_order(listing, t, &order)
}

// The order-only call.
pub fn order(settings: Settings, sheet: &[u8], listing: &mut [u8], diagnosis: &mut [u8]) -> Answer
    ensures { Answered result listing.new diagnosis.new (outcome (order_input settings sheet.now listing.old diagnosis.old)) }
{
    let mut d = Draft::blank();
    let mut entries = [Entry::blank(); 64];
    let mut t = Catalogue::blank();
    let read = take(
        settings,
        sheet,
        diagnosis.len(),
        &mut d,
        &mut entries,
        &mut t,
    )?;
    let x = ByName {
        draft: &d,
        entries: &entries,
        read,
    };
    end_order(&mut t, x, settings.rows, listing, diagnosis)
}

// 9: a type is refused; the rows of the synthesis are written (FORMAT 8.6 to 8.11). The catalogue of the map is filled.
fn type_refused(
    sheet: &[u8],
    t: &Catalogue,
    x: ByName,
    limit: usize,
    diagnosis: &mut [u8],
) -> Answer
    requires filled_for { (s : Sheet) × FilledFor s sheet.now x.draft.now x.entries.now t.now x.read }
    requires rows_in_bounds { 6 * limit ≤ length diagnosis.old }
    ensures { RowsDue sheet.now x.entry.draft.now x.entry.entries.now t.now x.entry.read limit diagnosis.old diagnosis.new result }
{
    let mut l = Parents::blank();
    order_compact::fill(&mut l, t, x);
    let mut notes = [None; 64];
    synth_places::fill(&mut notes, sheet, x);
    let report = synthesis::apply_associate_annotations(sheet, t, &l, &notes, diagnosis, limit);
    Err(Refusal::TypeRefused(report))
}

// Writes the schedule, if there is one: 8, 9, 10 or acceptance. The catalogue of the map tells whether a type is refused, at once
// where a class was lost while it was filled; the synthesis runs only to write the rows.
fn end_schedule(
    sheet: &[u8],
    t: &mut Catalogue,
    x: ByName,
    limit: usize,
    listing: &mut [u8],
    diagnosis: &mut [u8],
) -> Answer
    requires whole { Whole sheet.now x.draft.now x.entries.now t.old x.read }
    requires rows_in_bounds { 6 * limit ≤ length diagnosis.old }
    ensures { Scheduled sheet.now x.entry.draft.now x.entry.entries.now t.old x.entry.read limit listing.old diagnosis.old result listing.new diagnosis.new }
{
    let mut order = Order::new();
    let Some(o) = organize(t, x, &mut order) else {
        return no_order(t, x, limit, diagnosis);
    };
    let lost = item_draft::fill(t, sheet, x, &order, o);
    if lost {
        return type_refused(sheet, t, x, limit, diagnosis);
    }
    if item_refusal::is_refused(t, lost) {
        return type_refused(sheet, t, x, limit, diagnosis);
    }
    item_schedule::write_schedule(listing, t, &order)
}

// The schedule call.
pub fn schedule(
    settings: Settings,
    sheet: &[u8],
    listing: &mut [u8],
    diagnosis: &mut [u8],
) -> Answer
    ensures answered { Answered result listing.new diagnosis.new (outcome (schedule_input settings sheet.now listing.old diagnosis.old)) }
    ensures lines_listed { LinesListed sheet.now listing.old listing.new (answer_of result).number }
{
    let mut d = Draft::blank();
    let mut entries = [Entry::blank(); 64];
    let mut t = Catalogue::blank();
    let read = take(
        settings,
        sheet,
        diagnosis.len(),
        &mut d,
        &mut entries,
        &mut t,
    )?;
    let x = ByName {
        draft: &d,
        entries: &entries,
        read,
    };
    end_schedule(sheet, &mut t, x, settings.rows, listing, diagnosis)
}
