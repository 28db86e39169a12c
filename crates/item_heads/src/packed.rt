// The marks of a type as bits.
ghost use Rattle.std.specs.Prelude.{◌*◌, ◌≤◌, ◌<◌, ◌^◌};

// The bits that a schedule has the marks in, the last mark lowest; how many bits those are, and how many marks.
#[derive(Clone, Copy)]
pub struct Packed {
    pub bits: u64,
    pub width: u64,
    pub count: u64,
    // A type has at most 7 marks (FORMAT 2.9).
    pub ghost few: { count ≤ 7 },
    // A mark is 1 bit or 9 (FORMAT 6.2).
    pub ghost narrow: { width ≤ 9 * count },
    // The number has no other bits.
    pub ghost less: { bits < 2 ^ width },
}

impl Packed {
    ghost use Rattle.std.specs.Prelude.{◌≡◌};
    ghost use Rattle.item_heads.specs.Heads.{no_marks};

    // No marks.
    pub fn none() -> Packed
        ensures { result ≡ no_marks }
    {
        Packed {
            bits: 0,
            width: 0,
            count: 0,
        }
    }
}
