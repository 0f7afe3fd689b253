// The frame, and the trailer that points back at it: for each section its offset and its count, then version and length.
ghost use Rattle.std.specs.Prelude.{◌≡◌, true, ◌+◌, ◌-◌, ◌*◌, ◌≤◌, ◌<◌, ◌^◌, eqb, length};
ghost use Rattle.meaning.specs.Rows.{all};
ghost use Rattle.meaning.specs.File.{edition_at, solutions, sections, trailer_size, circuit_size, record_size, most_circuits, version_of, known_edition, section_offset, section_count, section, counted, chained, file_whole, study_of};
ghost use Rattle.layout.specs.Frame.{counts_of};

use crate::{CIRCUITS, NODES, RowCounts, STATIONS};
use meaning::{Edition, Section};

// The edition that a file names. A number that names none is read as edition 1, and such a file is not whole.
pub fn edition(file: &[u8]) -> Edition
    ensures { result ≡ edition_at file.now }
{
    match fields::u32_at(file, 52) {
        2 => Edition::Second,
        _ => Edition::First,
    }
}

// Whether this version has an edition of this number.
pub fn known(version: usize, edition: usize) -> bool
    ensures { result ≡ known_edition version edition }
{
    match edition {
        0 => (1..=2).contains(&version),
        2 => version == 2,
        _ => false,
    }
}

// The sections of a file: the settings, three tables and the solutions.
pub fn sections(file: &[u8]) -> usize
    ensures { (result ≡ sections (edition_at file.now)) × (7 ≤ result) × (result ≤ 9) }
{
    match edition(file) {
        Edition::First => 7,
        Edition::Second => 9,
    }
}

// The bytes of its trailer.
fn trailer_size(file: &[u8]) -> usize
    ensures { (result ≡ trailer_size (edition_at file.now)) × (64 ≤ result) × (result ≤ 80) }
{
    8 * sections(file) + 8
}

// The version, in the file's last 8 bytes.
pub fn version(file: &[u8]) -> usize
    requires { 8 ≤ length file.now }
    ensures { result ≡ version_of file.now }
{
    fields::u32_at(file, file.len() - 8)
}

// The bytes of a circuit's record.
fn circuit_size(version: usize) -> usize
    ensures { result ≡ circuit_size version }
{
    match version {
        2 => 48,
        _ => 44,
    }
}

// The most circuits that a file holds.
fn most_circuits(edition: Edition, version: usize) -> usize
    ensures { result ≡ most_circuits edition version }
{
    match (edition, version) {
        (Edition::First, 2) => 480,
        (Edition::First, _) => 512,
        (Edition::Second, _) => 320,
    }
}

// The bytes of a section's record.
pub fn record_size(version: usize, section: usize) -> usize
    requires { section < 9 }
    ensures { result ≡ record_size version section }
{
    match section {
        0 => 64,
        NODES => 24,
        CIRCUITS => circuit_size(version),
        STATIONS => 32,
        _ => 8,
    }
}

// Where a section's two numbers stand in the trailer.
fn entry(file: &[u8], section: usize) -> usize
    requires { (128 ≤ length file.now) × (section < 9) }
    ensures { (result ≡ length file.now - trailer_size (edition_at file.now) + 8 * section) × (result ≤ length file.now) }
{
    file.len() - trailer_size(file) + 8 * section
}

// A section's offset.
pub fn offset(file: &[u8], section: usize) -> usize
    requires { (128 ≤ length file.now) × (section < 9) }
    ensures { (result ≡ section_offset file.now section) × (result < 2 ^ 32) }
{
    fields::u32_at(file, entry(file, section))
}

// A section's count of records.
pub fn count(file: &[u8], section: usize) -> usize
    requires { (128 ≤ length file.now) × (section < 9) }
    ensures { (result ≡ section_count file.now section) × (result < 2 ^ 32) }
{
    fields::u32_at(file, entry(file, section) + 4)
}

// Whether each solution, the sections after the tables, has this many numbers.
fn solved(file: &[u8], numbers: usize) -> bool
    requires { 128 ≤ length file.now }
    ensures { result ≡ all (λ k. eqb (section_count file.now (4 + k)) numbers) (solutions (edition_at file.now)) }
{
    (4..sections(file)).all(|section| count(file, section) == numbers)
}

// Whether each table's count is in its range, and a solution has as many numbers as nodes and circuits.
pub fn counted(file: &[u8]) -> bool
    requires { 128 ≤ length file.now }
    ensures { result ≡ counted file.now }
{
    let nodes = count(file, NODES);
    let circuits = count(file, CIRCUITS);
    (count(file, 0) == 1)
        & (1..=256).contains(&nodes)
        & (circuits <= most_circuits(edition(file), version(file)))
        & (count(file, STATIONS) <= 512)
        & solved(file, nodes + circuits)
}

// Whether the sections follow one another exactly and end at the trailer.
pub fn chained(file: &[u8]) -> bool
    requires { 128 ≤ length file.now }
    ensures { result ≡ chained file.now }
{
    let version = version(file);
    let mut follow = true;
    let mut start = 0;
    for section in 0..sections(file) {
        follow &= offset(file, section) == start;
        start += record_size(version, section) * count(file, section);
    }
    follow & (start + trailer_size(file) == file.len())
}

// The rows of each table of a file that is whole.
pub fn row_counts(file: &[u8]) -> RowCounts
    requires { 128 ≤ length file.now }
    ensures { result ≡ counts_of (study_of file.now) }
{
    RowCounts {
        nodes: count(file, NODES),
        circuits: count(file, CIRCUITS),
        stations: count(file, STATIONS),
    }
}

// A section of a file that is whole: it starts at its offset, since the sections follow one another.
pub fn section(file: &[u8], number: usize) -> Section
    requires { (file_whole file.now ≡ true) × (number < sections (edition_at file.now)) }
    ensures { result ≡ section file.now number }
{
    Section {
        start: offset(file, number) as u32,
        size: record_size(version(file), number) as u32,
        count: count(file, number) as u32,
    }
}
