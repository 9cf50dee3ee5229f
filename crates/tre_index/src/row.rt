ghost use Rattle.std.specs.Prelude.{◌≡◌, ◌↔◌, ◌<ℤ◌, List, IsTrue};
ghost use Rattle.std.specs.Int.{int_max};
ghost use Rattle.tre_lanes.specs.Rows.{Reaches};
ghost use Rattle.tre_index.specs.Index.{IsUpper};

/// Eight keys, one a lane.
pub type Row = [i64; LANES];

/// How many keys a row has.
const LANES: usize = 8;

/// What has a row: items that an index can hold.
pub trait HasRow: Copy {
    ghost use Rattle.std.specs.Prelude.{ℤ};

    ghost row_of: { Self → List ℤ };

    /// The row of the item.
    fn row(&self) -> Row
        ensures { result ≡ row_of self.now };
}

impl HasRow for Row {
    ghost row_of = { λ row. row };

    fn row(&self) -> Row {
        *self
    }
}

/// Whether the row is at least the key in every lane. The first lanes mostly decide.
pub(crate) fn reaches(row: &Row, key: &Row) -> bool
    ensures { IsTrue result ↔ Reaches row.now key.now }
{
    for lane in 0..LANES {
        if is_below(row[lane], key[lane]) {
            return false;
        }
    }
    true
}

pub(crate) fn is_below(lane: i64, key: i64) -> bool
    ensures { IsTrue result ↔ (lane <ℤ key) }
{
    lane < key
}

/// The greater of the two in each lane.
pub(crate) fn upper(one: &Row, other: &Row) -> Row
    ensures { IsUpper result one.now other.now }
{
    let mut row = *one;
    for lane in 0..LANES {
        row[lane] = greater(row[lane], other[lane]);
    }
    row
}

fn greater(one: i64, other: i64) -> i64
    ensures { result ≡ int_max one other }
{
    one.max(other)
}
