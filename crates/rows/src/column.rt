// The columns of a row.
ghost use Rattle.std.specs.Prelude.{◌≡◌, ◌+◌, ◌≤◌, length};
ghost use Rattle.words.specs.Slices.{zeros, same};
ghost use Rattle.rows.specs.Laying.{with_column};
ghost use Rattle.rows.specs.Import.{before_zero, column, fine_column};

use crate::{Row, fit};

// The type of the field that comes into a column, the column's place in a row, and how many bytes it has.
#[derive(Clone, Copy)]
pub struct Column {
    pub kind: u8,
    pub place: usize,
    pub room: usize,
    ghost inside: { place + room ≤ 256 },
}

pub const UUID: Column = Column {
    kind: 0x01,
    place: 0,
    room: 16,
};

pub const TITLE: Column = Column {
    kind: 0x03,
    place: 16,
    room: 80,
};

pub const USER: Column = Column {
    kind: 0x04,
    place: 96,
    room: 80,
};

pub const GROUP: Column = Column {
    kind: 0x02,
    place: 176,
    room: 72,
};

// The days to the expiry.
pub const DAYS: Column = Column {
    kind: 0x0a,
    place: 248,
    room: 4,
};

// How many bytes stand before the first zero byte.
pub(crate) fn before_zero(d: &[u8]) -> usize
    ensures value { result ≡ before_zero d.now }
    ensures within { result ≤ length d.now }
{
    d.iter().position(|&b| b == 0).unwrap_or(d.len())
}

pub(crate) fn all_zero(d: &[u8]) -> bool
    ensures { result ≡ same d.now (zeros (length d.now)) }
{
    d.iter().all(|&b| b == 0)
}

impl Column {
    // The bytes of this column in a row.
    pub(crate) fn of(self, row: &Row) -> &[u8]
        ensures { result.now ≡ column self.place self.room row.now }
    {
        let end = self.place + self.room;
        &row[self.place..end]
    }

    // What is given, over the start of this column of a row.
    pub(crate) fn put(self, row: &mut Row, given: &[u8])
        ensures value { row.new ≡ with_column self.place self.room given.now row.old }
        ensures long { length row.new ≡ 256 }
    {
        let end = self.place + self.room;
        words::slices::copy(&mut row[self.place..end], given);
    }

    // Whether there is a text that fits, and zeros after it.
    pub(crate) fn fine(self, row: &Row) -> bool
        ensures { result ≡ fine_column self.kind self.room (column self.place self.room row.now) }
    {
        let bytes = self.of(row);
        let (text, rest) = bytes.split_at(before_zero(bytes));
        !fit::unfit(self.kind, self.room, text) && all_zero(rest)
    }
}
