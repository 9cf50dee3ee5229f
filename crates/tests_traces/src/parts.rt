// Tests of tre_parts.
use std::alloc::{AllocError, Global};
use std::test::Fail;
use tests_support::names_of;
use tre_parts::find_name;
use tre_state::{Names, is_name};

// Whether the names, p and top.clk, are found, and no others.
fn are_found(names: &Names) -> bool {
    find_name(names, b"p") == Some(0)
        && find_name(names, b"top.clk") == Some(1)
        && find_name(names, b"top").is_none()
        && find_name(names, &[0xff]).is_none()
}

fn are_found_in(alloc: Global, text: &str) -> Result<bool, Fail> {
    let names = names_of(alloc, text)?;
    Ok(are_found(&names))
}

#[test]
fn names_of_a_list(rt: HostRuntime) -> Result<(), Fail> {
    assert!(rt; are_found_in(rt.alloc(), "p top.clk")?);
    Ok(())
}

// The names s0, s1 and so on, so many of them.
fn numbered(alloc: Global, count: u8) -> Result<Names, Fail> {
    let mut names = Names::new(alloc);
    for number in 0..count {
        let name = format!(in alloc; "s{number}")?;
        if is_name(&name) {
            names.number(&name)?;
        }
    }
    Ok(names)
}

// Whether the name of this number is found.
fn is_found(alloc: Global, names: &Names, number: u8) -> Result<bool, AllocError> {
    let name = format!(in alloc; "s{number}")?;
    Ok(find_name(names, name.as_bytes()) == Some(number))
}

fn is_each_found(alloc: Global, names: &Names) -> Result<bool, AllocError> {
    for number in 0..64u8 {
        if !is_found(alloc, names, number)? {
            return Ok(false);
        }
    }
    Ok(true)
}

fn is_no_other_found(names: &Names) -> bool {
    ["s", "s64", "s063", "s1 ", "t1", ""]
        .iter()
        .all(|other| find_name(names, other.as_bytes()).is_none())
}

fn are_many_found(alloc: Global) -> Result<bool, Fail> {
    let names = numbered(alloc, 64)?;
    Ok(is_each_found(alloc, &names)? && is_no_other_found(&names))
}

#[test]
fn each_of_many_names(rt: HostRuntime) -> Result<(), Fail> {
    assert!(rt; are_many_found(rt.alloc())?);
    Ok(())
}
