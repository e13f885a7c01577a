// Tables of names. A table is an array of texts; its rows are to differ, so that each name has one place.
ghost use Rattle.std.specs.Prelude.{◌<◌, length, IsTrue, ◌↔◌, MatchOption};
ghost use Rattle.hrana_value.specs.Names.{IsRow, IsNoRow};

/// The name in the row `i`.
pub fn name(rows: &[&'static str], i: usize) -> &'static str
    requires { i < length rows.now }
    ensures { IsRow rows.now i result.now }
{
    rows[i]
}

fn is_row(rows: &[&'static str], i: usize, text: &str) -> bool
    requires { i < length rows.now }
    ensures { IsTrue result ↔ IsRow rows.now i text.now }
{
    name(rows, i) == text
}

/// The first row with this name. Takes no memory.
pub fn index_of(rows: &[&'static str], text: &str) -> Option<usize>
    ensures { MatchOption result (IsNoRow rows.now text.now) (λ i. (i < length rows.now) × IsRow rows.now i text.now) }
{
    for i in 0..rows.len() {
        if is_row(rows, i, text) {
            return Some(i);
        }
    }
    None
}
