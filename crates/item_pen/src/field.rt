// Bits as a number.
ghost use Rattle.std.specs.Prelude.{◌≤◌, ◌<◌, ◌^◌};

// Bits that are made before they are written: the last `width` bits of a number.
#[derive(Clone, Copy)]
pub struct Field {
    pub width: usize,
    pub value: u64,
    // They are few enough to be written at once.
    ghost few: { width ≤ 56 },
    // The number has no others.
    ghost most: { value < 2 ^ width },
}
