// Names in a case file: every slice and every place has its answer, also where the file's end cuts a name.
#![tactic(auto)]

mod name_rows;
mod padding;
mod same;

ghost use Rattle.std.specs.Prelude.{◌≡◌, ◌+◌, unwrap_or};
ghost use Rattle.meaning.specs.Name.{well_formed, same_name};
ghost use Rattle.meaning.specs.File.{name_at, row_at};
ghost use Rattle.meaning.specs.Columns.{column};
ghost use Rattle.names.specs.Search.{first_repeated, first_named};

use meaning::Section;

// Whether the 12 bytes at a place are a well-formed name.
pub fn name_formed(file: &[u8], at: usize) -> bool
    ensures { result ≡ well_formed (name_at file.now at) }
{
    same::inside(file, at, at) && padding::formed(&file[at..at + 12])
}

// Whether the names at two places are the same. Where the file's end cuts one, they are only at one place, or both past the end.
pub fn same_name(file: &[u8], a: usize, b: usize) -> bool
    ensures { result ≡ same_name (name_at file.now a) (name_at file.now b) }
{
    if same::inside(file, a, b) {
        same::same_whole(file, a, b)
    } else {
        (a == b) | ((file.len() <= a) & (file.len() <= b))
    }
}

// The lowest row whose name an earlier row has; the count of rows where there is none.
pub fn repeated(file: &[u8], rows: Section) -> usize
    ensures { result ≡ first_repeated file.now rows }
{
    let end = fields::row_at(rows, rows.count);
    let known = same::inside(file, end, end);
    let found = 'rows: {
        for row in 0..rows.count {
            let later = fields::row_at(rows, row);
            for early in 0..row {
                if name_rows::row_is(file, fields::row_at(rows, early), later, known) {
                    break 'rows row;
                }
            }
        }
        rows.count
    };
    found as usize
}

// The lowest row that has the name at a place.
fn place(file: &[u8], rows: Section, at: usize) -> Option<u32>
    ensures { unwrap_or result rows.count ≡ first_named file.now rows at }
{
    let known = same::inside(file, fields::row_at(rows, rows.count), at);
    for row in 0..rows.count {
        if name_rows::row_is(file, fields::row_at(rows, row), at, known) {
            return Some(row);
        }
    }
    None
}

// Numbers of the nodes that a field of each row names, the count of nodes where there is none; no more than 512 rows.
pub fn places(file: &[u8], nodes: Section, rows: Section, field: u32) -> [usize; 512]
    ensures { result ≡ column nodes.count 512 rows.count (λ i. first_named file.now nodes (row_at rows i + field)) }
{
    let mut all = [nodes.count as usize; 512];
    for i in 0..rows.count.min(512) {
        let place = place(file, nodes, fields::field_at(rows, i, field));
        all[i as usize] = place.unwrap_or(nodes.count) as usize;
    }
    all
}
