// A part by its record.

ghost use Rattle.std.specs.Prelude.{◌≡◌, ◌+◌, ◌*◌, ◌^◌, ◌≤◌, ◌<◌};
ghost use Rattle.layout.specs.Layout.{words_in_row};

use layout::RowRecord;

// `size` rows from `first` on, and a table of `size` lines. That they lie within a memory is no fact of the type but a clause, `Within`, of who is lent one: a memory
// is another after each change.
#[derive(Clone, Copy)]
pub struct PartRows {
    pub size: usize,
    pub first: usize,
    pub table: usize,
    pub ghost few: { size ≤ 128 },
    pub ghost rows_start: { first < 2 ^ 32 },
    pub ghost table_starts: { table < 2 ^ 32 },
}

impl PartRows {
    // Where a row stands.
    pub fn row(self, i: usize) -> usize
        requires { i ≤ self.size }
        ensures { result ≡ self.first + words_in_row * i }
    {
        self.first + RowRecord::WORDS * i
    }

    // Where its line of the table stands.
    pub fn line(self, i: usize) -> usize
        requires { i ≤ self.size }
        ensures { result ≡ self.table + self.size * i }
    {
        self.table + self.size * i
    }
}
