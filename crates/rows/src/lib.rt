// Sets of numbers below 256 as rows of bits: dom sets, and sets of words.
#![tactic(auto)]

ghost use Rattle.std.specs.Prelude.{◌≡◌, ◌<◌, ◌≤◌, MatchOption};
ghost use Rattle.rows.specs.Next.{Next, NextBit};
ghost use Rattle.rows.specs.Rows.{common, without, either, none, limb, has, single, empty};

// Number k is bit k % 64 of the part k / 64. Four fields and no array: what is done to all of them needs no index.
#[derive(Clone, Copy, PartialEq, Eq)]
pub struct Row {
    pub a: u64,
    pub b: u64,
    pub c: u64,
    pub d: u64,
}

// Nothing stands in it.
pub fn empty_row() -> Row
    ensures { result ≡ empty }
{
    Row {
        a: 0,
        b: 0,
        c: 0,
        d: 0,
    }
}

// What stands in both.
#[tactic(auto, unfolding(crate::specs::Rows::common))]
pub fn in_both(x: Row, y: Row) -> Row
    ensures { result ≡ common x y }
{
    Row {
        a: x.a & y.a,
        b: x.b & y.b,
        c: x.c & y.c,
        d: x.d & y.d,
    }
}

// What stands in x and not in y.
#[tactic(auto, unfolding(crate::specs::Rows::without))]
pub fn in_first(x: Row, y: Row) -> Row
    ensures { result ≡ without x y }
{
    Row {
        a: x.a ^ (x.a & y.a),
        b: x.b ^ (x.b & y.b),
        c: x.c ^ (x.c & y.c),
        d: x.d ^ (x.d & y.d),
    }
}

// What stands in one of the two.
#[tactic(auto, unfolding(crate::specs::Rows::either))]
pub fn in_either(x: Row, y: Row) -> Row
    ensures { result ≡ either x y }
{
    Row {
        a: x.a | y.a,
        b: x.b | y.b,
        c: x.c | y.c,
        d: x.d | y.d,
    }
}

// Whether nothing stands in it.
#[tactic(auto, unfolding(crate::specs::Rows::none))]
pub fn is_none(x: Row) -> bool
    ensures { result ≡ none x }
{
    (x.a | x.b | x.c | x.d) == 0
}

// The part i of a row.
fn quarter(x: Row, i: usize) -> u64
    requires { i < 4 }
    ensures { result ≡ limb x i }
{
    match i {
        0 => x.a,
        1 => x.b,
        2 => x.c,
        _ => x.d,
    }
}

// Whether k stands in the row.
pub fn holds(x: Row, k: usize) -> bool
    requires { k < 256 }
    ensures { result ≡ has x k }
{
    let n = quarter(x, k / 64);
    let j = k % 64;
    (n >> j) & 1 == 1
}

// The row in which w alone stands.
pub fn alone(w: usize) -> Row
    requires { w < 256 }
    ensures { result ≡ single w }
{
    let one: u64 = 1;
    let j = w % 64;
    let bit = one << j;
    let none = empty_row();
    match w / 64 {
        0 => Row { a: bit, ..none },
        1 => Row { b: bit, ..none },
        2 => Row { c: bit, ..none },
        _ => Row { d: bit, ..none },
    }
}

// The first number from `from` on that stands in a row of 64.
pub fn next_type(types: u64, from: usize) -> Option<usize>
    requires { from ≤ 64 }
    ensures { MatchOption result (NextBit types from 64) (λ k. NextBit types from k × (k < 64)) }
{
    if from == 64 {
        return None;
    }
    let zeros = u64::trailing_zeros(types >> from) as usize;
    let k = from + zeros;
    (k < 64).then_some(k)
}

// The first number from `from` on that stands in the row; 256 where none does. No Option: a walk has a bound of its own below
// 256, and its one test of that ends it for both.
pub fn next(r: Row, from: usize) -> usize
    requires { from ≤ 256 }
    ensures { Next r from result }
{
    let mut j = from % 64;
    for i in from / 64..4 {
        if let Some(k) = next_type(quarter(r, i), j) {
            return i * 64 + k;
        }
        j = 0;
    }
    256
}
