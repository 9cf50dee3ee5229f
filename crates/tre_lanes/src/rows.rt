ghost use Rattle.std.specs.Prelude.{◌↔◌, IsTrue};
ghost use Rattle.tre_lanes.specs.Rows.{Reaches, FindsNext};

use std::simd::prelude::*;

/// The place of the first row that is at least the key in all eight lanes, None where no row is.
///
/// It looks at each of the rows, and at all lanes of each at once, so it serves lists of rows in no
/// order of which the first lanes tell little. Those of zones do tell: an index over them compares
/// lane by lane instead, and passes over most of them. So no run calls it.
pub fn first_cover(rows: &[[i64; 8]], key: &[i64; 8]) -> Option<usize>
    ensures { FindsNext rows.now key.now 0 result }
{
    for (place, row) in rows.iter().enumerate() {
        if reaches(row, key) {
            return Some(place);
        }
    }
    None
}

/// Whether the row is at least the key in all eight lanes.
fn reaches(row: &[i64; 8], key: &[i64; 8]) -> bool
    ensures { IsTrue result ↔ Reaches row.now key.now }
{
    // For the proof: read one by one, the lanes are known to be in range.
    let [_r0, _r1, _r2, _r3, _r4, _r5, _r6, _r7] = *row;
    let [_k0, _k1, _k2, _k3, _k4, _k5, _k6, _k7] = *key;
    i64x8::from_array(*row)
        .simd_ge(i64x8::from_array(*key))
        .all()
}
