// Total readers of a case file's numbers and rows: every slice and every place has its answer, and a byte past the end reads as 0.
#![tactic(auto)]

mod bytes;

ghost use Rattle.std.specs.Prelude.{◌≡◌, ◌+◌, ℕ, leb};
ghost use Rattle.meaning.specs.Rows.{◌between◌and◌};
ghost use Rattle.meaning.specs.File.{u32, u64, i64, row_at};
ghost use Rattle.meaning.specs.Columns.{column, kilowatts};
ghost use Rattle.fields.specs.Field.{Field};

use bytes::bytes_at;
use meaning::{Kw, Section};

// The u32 at a place; where the file ends earlier, the missing bytes are 0.
pub fn u32_at(file: &[u8], at: usize) -> usize
    ensures { Field file.now at result }
{
    u32::from_le_bytes(bytes_at(file, at)) as usize
}

// The u64 at a place.
pub fn u64_at(file: &[u8], at: usize) -> u64
    ensures { result ≡ u64 file.now at }
{
    u64::from_le_bytes(bytes_at(file, at))
}

// The i64 at a place, in two's complement.
pub fn i64_at(file: &[u8], at: usize) -> i64
    ensures { result ≡ i64 file.now at }
{
    u64_at(file, at).cast_signed()
}

// Whether the number at a place is in a range, both ends in it.
pub fn between(file: &[u8], at: usize, low: usize, high: usize) -> bool
    ensures { result ≡ u32 file.now at between low and high }
{
    (low..=high).contains(&u32_at(file, at))
}

// Whether the number at a place is at most this.
pub fn at_most(file: &[u8], at: usize, high: usize) -> bool
    ensures { result ≡ leb (u32 file.now at) high }
{
    u32_at(file, at) <= high
}

// Where a row of a section begins: numbers of 32 bits each, so that it fits 64.
pub fn row_at(rows: Section, row: u32) -> usize
    ensures { result ≡ row_at rows row }
{
    (rows.start as usize) + (rows.size as usize) * (row as usize)
}

// Where a field of a row stands.
pub fn field_at(rows: Section, row: u32, field: u32) -> usize
    ensures { result ≡ row_at rows row + field }
{
    row_at(rows, row) + field as usize
}

// What a field's number is read as.
pub trait FromField: Copy {
    ghost of_number: { ℕ → Self };

    fn from_field(x: u32) -> Self
        ensures { result ≡ of_number x };
}

impl FromField for u64 {
    ghost of_number = { λ x. x };

    fn from_field(x: u32) -> u64 {
        x as u64
    }
}

impl FromField for usize {
    ghost of_number = { λ x. x };

    fn from_field(x: u32) -> usize {
        x as usize
    }
}

impl FromField for Kw {
    ghost of_number = { kilowatts };

    fn from_field(x: u32) -> Kw {
        Kw(x as u64)
    }
}

// The numbers in a field of a section's rows; nothing past the last row, and no more than the array has room for.
pub fn column<T: FromField, const N: usize>(file: &[u8], rows: Section, field: u32) -> [T; N]
    ensures { result ≡ column (T.of_number 0) N rows.count (λ i. T.of_number (u32 file.now (row_at rows i + field))) }
{
    let mut all = [T::from_field(0); N];
    for i in 0..N.min(rows.count as usize) {
        all[i] = T::from_field(u32_at(file, field_at(rows, i as u32, field)) as u32);
    }
    all
}
