// A case file's frame: whether it is whole, the rows of its tables and its settings. Every slice has its answer: a file that is not whole reads as one without rows.
#![tactic(auto)]

mod settings_row;
mod trailer;

ghost use Rattle.std.specs.Prelude.{◌≡◌};
ghost use Rattle.meaning.specs.File.{file_whole};
ghost use Rattle.layout.specs.Readable.{readable, section_in};
ghost use Rattle.layout.specs.Frame.{counts_of};

use meaning::{Section, Settings};

// The sections that hold rows, by number. Numbers and no enum: `section` answers every number, and one past the last of its edition has no rows.
pub const NODES: usize = 1;

pub const CIRCUITS: usize = 2;

pub const STATIONS: usize = 3;

pub const BASE: usize = 4;

pub const WIDER: usize = 5;

pub const LOCAL: usize = 6;

pub const PEAK_BASE: usize = 7;

pub const PEAK_WIDER: usize = 8;

// Rows of each table.
#[derive(Clone, Copy)]
pub struct RowCounts {
    pub nodes: usize,
    pub circuits: usize,
    pub stations: usize,
}

// Whether the file is not refused as 1: length, version and edition, counts, chain.
pub fn whole(file: &[u8]) -> bool
    ensures { result ≡ file_whole file.now }
{
    if file.len() < 128 {
        return false;
    }
    trailer::known(trailer::version(file), fields::u32_at(file, 52))
        & (fields::u32_at(file, file.len() - 4) == file.len())
        & trailer::counted(file)
        & trailer::chained(file)
}

// A section of the file. One that is not whole has no section, and no file one past the last of its edition.
pub fn section(file: &[u8], number: usize) -> Section
    ensures { result ≡ section_in file.now number }
{
    if (number < trailer::sections(file)) & whole(file) {
        return trailer::section(file, number);
    }
    Section {
        start: 0,
        size: 0,
        count: 0,
    }
}

// The counts of the tables, from the trailer.
pub fn counts(file: &[u8]) -> RowCounts
    ensures { result ≡ counts_of (readable file.now) }
{
    if whole(file) {
        return trailer::row_counts(file);
    }
    RowCounts {
        nodes: 0,
        circuits: 0,
        stations: 0,
    }
}

// The settings; all 0 where the file is not whole.
pub fn settings(file: &[u8]) -> Settings
    ensures { result ≡ (readable file.now).settings }
{
    settings_row::settings(if whole(file) { file } else { &[] })
}
