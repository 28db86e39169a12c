// The numbers of a row.
ghost use Rattle.std.specs.Prelude.{◌≡◌, ◌≤◌};
ghost use Rattle.rows.specs.Rows.{has};
ghost use Rattle.rows.specs.Lists.{below};

use rows::Row;

// Those below N, ascending.
#[derive(Drop)]
pub struct Numbers<const N: usize> {
    row: Row,
    from: u8,
    ghost few: { N ≤ 255 },
}

// Its doms: none and the words (FORMAT 1.2).
pub type Doms = Numbers<201>;

impl<const N: usize> Numbers<N> {
    ghost use Rattle.synth_classes.specs.Numbers.{numbers_left};

    // Those of a whole row.
    pub fn of(row: Row) -> Numbers<N>
        requires { N ≤ 255 }
        ensures { numbers_left N result ≡ below (has row) N }
    {
        Numbers { row, from: 0 }
    }
}

impl<const N: usize> Iterator for Numbers<N> {
    ghost use Rattle.std.specs.Iterator.{YieldsFirst, item_count};
    ghost use Rattle.synth_classes.specs.Numbers.{numbers_left};

    type Item = u8;

    ghost next_gives = { YieldsFirst (numbers_left N) };

    ghost remaining = { item_count (numbers_left N) };

    #[tactic(auto, using(crate::specs::Numbers::next_number, crate::specs::Numbers::last_number))]
    fn next(&mut self) -> Option<u8> {
        let k = rows::next(self.row, self.from as usize);
        if k < N {
            let number = k as u8;
            self.from = number + 1;
            return Some(number);
        }
        None
    }
}
