//! Rows of 16 bytes of memory.
ghost use Rattle.std.specs.Prelude.{◌≡◌, ◌+◌, ◌*◌, ◌/◌, ◌^◌, ◌<◌, ◌≤◌, IfSome, None};

use std::marker::Model;

/// A row of memory. Contracts see it as its number, counted from 0.
#[derive(Clone, Copy)]
pub(crate) struct Row {
    number: u32,
}

impl Model for Row {
    ghost use Rattle.std.specs.Prelude.{ℕ, ◌^◌, ◌<◌};

    ghost Value = { ℕ };

    ghost view = { λ r. r.number };

    ghost invariant = { λ r. r.number < 2 ^ 28 };

    ghost inverse = { λ n. record { number = n } };
}

impl Row {
    /// The row of this number.
    pub fn new(number: u32) -> Row
        requires { number < 2 ^ 28 }
        ensures { result ≡ number }
    {
        Row { number }
    }

    /// The row in which an address lies.
    pub fn of(addr: u32) -> Row
        ensures { result ≡ addr / 16 }
    {
        Row { number: addr / 16 }
    }

    /// Its number.
    pub fn number(self) -> u32
        ensures value { result ≡ self }
        ensures below { result < 2 ^ 28 }
    {
        self.number
    }

    /// The address of one of its bytes.
    pub fn address(self, byte: u32) -> u32
        requires { byte < 16 }
        ensures { result ≡ 16 * self + byte }
    {
        16 * self.number + byte
    }
}

/// How many rows a memory has. Contracts see it as that number.
#[derive(Clone, Copy)]
pub(crate) struct RowCount {
    rows: u32,
}

impl Model for RowCount {
    ghost use Rattle.std.specs.Prelude.{ℕ, ◌≤◌};

    ghost Value = { ℕ };

    ghost view = { λ c. c.rows };

    ghost invariant = { λ c. c.rows ≤ 65536 };

    ghost inverse = { λ n. record { rows = n } };
}

impl RowCount {
    /// The rows of a memory of so many bytes.
    pub fn of(size: u32) -> RowCount
        requires { size ≤ 2 ^ 20 }
        ensures { result ≡ size / 16 }
    {
        RowCount { rows: size / 16 }
    }

    /// The row of this number. None: it lies past the last.
    pub fn row(self, number: u32) -> Option<Row>
        ensures row { IfSome result (λ row. row ≡ number) }
        ensures inside { IfSome result (λ row. row < self) }
        ensures past { result ≡ None → self ≤ number }
    {
        if number >= self.rows {
            return None;
        }
        Some(Row { number })
    }
}
