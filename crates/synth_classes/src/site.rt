// What a resource is made for.
ghost use Rattle.std.specs.Prelude.{◌<◌};

// The place of a type, and a word.
#[derive(Clone, Copy)]
pub struct Site {
    pub place: usize,
    pub word: u8,
    ghost inside: { place < 64 },
    // 255 stands for no word.
    ghost numbered: { word < 255 },
}
