// Tests of tre_lanes.
use std::alloc::{AllocError, Global};
use std::test::Fail;
use tre_lanes::{and_into, first_cover, not_into, or_into};

type Row = [i64; 8];

const KEY: Row = [1, 1, -1, 3, -1, 3, 0, 0];

// At least the key in all lanes.
const ABOVE: Row = [1, 6, 0, 7, 0, 7, 0, 0];

// Below the key in one lane.
const BELOW: Row = [1, 6, -2, 7, 0, 7, 0, 0];

#[test]
fn first_cover_of_one_row(rt: HostRuntime) {
    let table = [
        ([ABOVE].as_slice(), KEY, Some(0)),
        ([KEY].as_slice(), ABOVE, None),
        ([].as_slice(), KEY, None),
    ];
    for (rows, key, place) in table {
        assert!(rt; first_cover(rows, &key) == place);
    }
}

// Rows of which only the last covers the key, behind this many others.
fn covered_last(alloc: Global, before: usize) -> Result<Vec<Row>, AllocError> {
    let mut rows = vec![in alloc; BELOW; before]?;
    rows.push(ABOVE)?;
    Ok(rows)
}

// The first place of the rows that covers the key, and of those before the last.
fn covers(alloc: Global, before: usize) -> Result<(Option<usize>, Option<usize>), AllocError> {
    let rows = covered_last(alloc, before)?;
    let (_, others) = rows.split_last().unwrap_or((&KEY, &[]));
    Ok((first_cover(&rows, &KEY), first_cover(others, &KEY)))
}

#[test]
fn first_cover_stands_last(rt: HostRuntime) -> Result<(), Fail> {
    for before in [0, 6, 7, 8, 32, 63, 64, 512] {
        assert!(rt;
            covers(rt.alloc(), before)? == (Some(before), None),
            "{before}"
        );
    }
    Ok(())
}

// Words with every bit in some of them.
fn words(alloc: Global, count: u64, step: u64) -> Result<Vec<u64>, AllocError> {
    let mut words = Vec::new(alloc);
    for i in 0..count {
        words.push(step.wrapping_mul(i + 1))?;
    }
    Ok(words)
}

// Whether each of the three is what a word of `a` and a word of `b` give, word by word.
fn agree(a: &[u64], b: &[u64], and: &[u64], or: &[u64], not: &[u64]) -> bool {
    for (i, (x, y)) in a.iter().zip(b).enumerate() {
        let is_and = and.get(i) == Some(&(x & y));
        if !is_and || or.get(i) != Some(&(x | y)) || not.get(i) != Some(&!y) {
            return false;
        }
    }
    true
}

// Whether the three calls give what they should over so many words.
fn combine(alloc: Global, count: u64) -> Result<bool, AllocError> {
    let a = words(alloc, count, 0x9e37_79b9_7f4a_7c15)?;
    let b = words(alloc, count, 0xc2b2_ae3d_27d4_eb4f)?;
    if a.len() != b.len() {
        return Ok(false);
    }
    let (mut and, mut or, mut not) = (a.clone()?, a.clone()?, a.clone()?);
    and_into(&mut and, &b);
    or_into(&mut or, &b);
    not_into(&mut not, &b);
    Ok(agree(&a, &b, &and, &or, &not))
}

#[test]
fn words_by_the_plain_loop(rt: HostRuntime) -> Result<(), Fail> {
    for count in [0, 1, 7, 8, 9, 33, 64, 65, 513] {
        assert!(rt; combine(rt.alloc(), count)?, "{count}");
    }
    Ok(())
}
