// Why a map has no order: `find_cycles_or_bad_types` and the rows of kinds 1, 2 and 3, over the compact form. A type is its place
// in name order.
#![tactic(auto)]

ghost use Rattle.std.specs.Prelude.{◌≡◌, [], ◌∷◌, ◌&&◌, not, ◌<◌, ◌≤◌, ◌*◌, ◌+◌, length};
ghost use Rattle.lists.specs.Lists.{null};
ghost use Rattle.order_form.specs.Reading.{parent_at, listed};
ghost use Rattle.order_form.specs.Rounds.{placed, final, lists_self};
ghost use Rattle.order_placed.specs.Placing.{off};
ghost use Rattle.order_diagnosis.specs.Rows.{parent_row, bad, bad_kind, rows, no_parent_rows, self_rows_of, self_rows};
ghost use Rattle.order_diagnosis.specs.Emit.{Emits};
ghost use Rattle.order_diagnosis.specs.Walk.{Stage, At, FirstBad};
ghost use Rattle.order_diagnosis.specs.Reported.{Reported};

use emitting::{Kind, Report, Row, Writer};
use order_form::Parents;

// Writes the row of type t and its parent i.
fn put_parent_row(l: &Parents, out: &mut Writer<'_>, kind: Kind, t: usize, i: usize)
    requires { (t < 64) × (i < 8) }
    ensures { Emits out.old out.new (parent_row kind l.now t (parent_at l.now t i) ∷ []) }
{
    let row = Row {
        kind,
        subject: l.names[t],
        other: Some(l.parents[t][i].name),
        word: None,
    };
    out.push(row);
}

// Kind 2 where the bad parent is declared, since it is on the path then; otherwise kind 3 (FORMAT 8.4).
fn bad_kind(l: &Parents, t: usize, i: usize) -> Kind
    requires { (t < 64) × (i < 8) }
    ensures { result ≡ bad_kind l.now (parent_at l.now t i) }
{
    if l.place(t, i) < l.count {
        return Kind::ClosesCycle;
    }
    Kind::UndeclaredParent
}

// The place of the first bad parent: one that is undeclared or on the path, where the type itself stands too (FORMAT 8.4).
fn first_bad(l: &Parents, t: usize, path: u64) -> Option<usize>
    requires { t < l.now.count }
    ensures { FirstBad l.now path t result }
{
    (0..usize::from(l.counts[t])).position(|i| {
        let place = l.place(t, i);
        place >= l.count || bitsets::has(path, place)
    })
}

// Writes the rows of type t, which the path leads to (FORMAT 8.4). The path is passed by value (01: 'Path
// sets in recursion'), and the types off it become fewer. A placed type has no row and is not entered, every other has one
// (specs/Loud.antt), the first bad parent is looked for before any parent is entered, and past the limit the search ends: so
// each step belongs to a row.
fn find_cycles_or_bad_types(l: &Parents, placed: u64, t: usize, path: u64, out: &mut Writer<'_>)
    requires { At l.now placed t path }
    ensures { Emits out.old out.new (rows (off l.now.count path) l.now path t) }
{
    if out.is_over() {
        return;
    }
    let here = bitsets::with_one(path, t);
    if let Some(i) = first_bad(l, t, here) {
        put_parent_row(l, out, bad_kind(l, t, i), t, i);
        return;
    }
    for i in 0..usize::from(l.counts[t]) {
        let place = l.place(t, i);
        if !bitsets::has(placed, place) {
            find_cycles_or_bad_types(l, placed, place, here, out);
        }
    }
}

// Writes the rows of the types that are not placed, in name order.
fn generate_type_no_parent_errors(l: &Parents, placed: u64, out: &mut Writer<'_>)
    requires { Stage l.now placed }
    ensures { Emits out.old out.new (no_parent_rows l.now (final l.now)) }
{
    for t in 0..l.count {
        if !bitsets::has(placed, t) {
            find_cycles_or_bad_types(l, placed, t, 0, out);
        }
    }
}

// Kind 1: writes a row for each listing of `self` by type t (FORMAT 8.3).
fn put_self_rows(l: &Parents, t: usize, out: &mut Writer<'_>)
    requires { t < l.now.count }
    ensures { Emits out.old out.new (self_rows_of l.now t (listed l.now t)) }
{
    for i in 0..usize::from(l.counts[t]) {
        if l.is_self(t, i) {
            put_parent_row(l, out, Kind::ListsSelf, t, i);
        }
    }
}

// Writes the rows of kind 1, types in name order.
fn self_errors(l: &Parents, out: &mut Writer<'_>)
    ensures { Emits out.old out.new (self_rows l.now) }
{
    for t in 0..l.count {
        put_self_rows(l, t, out);
    }
}

// Whether the rows of kind 1 stand: some parent is `self`, and a type was ready in round one; without one the other rows take
// their place (FORMAT 8.5).
fn self_stands(l: &Parents) -> bool
    ensures { result ≡ (lists_self l.now && not (null (placed l.now 1))) }
{
    order_placed::inherits_self(l) && order_placed::first_places(l)
}

// The diagnosis of a map that has no order: the first `limit` rows go into the slice, and no other byte of it changes. The
// report has how many were written, and whether there are more (FORMAT 8.2).
pub fn diagnose(l: &Parents, buf: &mut [u8], limit: usize) -> Report
    requires { 6 * limit ≤ length buf.old }
    ensures { Reported l.now limit buf.old buf.new result.rows result.more }
{
    let mut out = Writer::new(buf, limit);
    if self_stands(l) {
        self_errors(l, &mut out);
    } else {
        let placed = order_placed::place_all(l);
        generate_type_no_parent_errors(l, placed, &mut out);
    }
    out.report()
}
