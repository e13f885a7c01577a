// Places of rows, one behind another.
ghost use Rattle.std.specs.Prelude.{◌≡◌, ◌≤◌, ◌<◌, ◌+◌, ◌++◌, length, take, drop};

use crate::row::Row;

/// Places of rows: from one on, up to and without another.
#[derive(Clone, Copy)]
pub struct PlaceSpan {
    pub from: usize,
    pub to: usize,
}

/// One place.
pub fn one_place(rows: &[Row], place: usize) -> PlaceSpan
    requires { place < length rows.now }
    ensures from { result.from ≡ place }
    ensures to { result.to ≡ place + 1 }
{
    let _len = rows.len();
    PlaceSpan {
        from: place,
        to: place + 1,
    }
}

/// The rows at these places.
pub fn rows_at(rows: &[Row], span: PlaceSpan) -> &[Row]
    requires ordered { span.from ≤ span.to }
    requires within { span.to ≤ length rows.now }
    ensures between { rows.now ≡ take span.from rows.now ++ result.now ++ drop span.to rows.now }
    ensures many { span.from + length result.now ≡ span.to }
{
    &rows[span.from..span.to]
}

/// All places.
pub fn every_place(rows: &[Row]) -> PlaceSpan
    ensures from { result.from ≡ 0 }
    ensures to { result.to ≡ length rows.now }
{
    PlaceSpan {
        from: 0,
        to: rows.len(),
    }
}
