// A solution in the file: one number a node and then one a circuit, 8 bytes each.
ghost use Rattle.std.specs.Prelude.{◌≡◌, ◌≤◌, pos};
ghost use Rattle.meaning.specs.File.{i64, row_at};
ghost use Rattle.meaning.specs.Columns.{column};
ghost use Rattle.output.specs.Copied.{Copied};

use crate::Run;
use meaning::Section;

// The numbers of a solution, and zeros behind them; no more than 768.
fn run_at(file: &[u8], rows: Section) -> [i64; 768]
    ensures { result ≡ column (pos 0) 768 rows.count (λ i. i64 file.now (row_at rows i)) }
{
    let mut all = [0i64; 768];
    for i in 0..rows.count.min(768) {
        all[i as usize] = fields::i64_at(file, fields::row_at(rows, i));
    }
    all
}

// The solution in a section of the file.
pub fn run_of(file: &[u8], section: usize) -> Run
    requires { 4 ≤ section }
    ensures { Copied file.now section result }
{
    let rows = layout::section(file, section);
    Run {
        numbers: run_at(file, rows),
        count: rows.count as usize,
    }
}
