// The pattern of made runs.

use std::alloc::Global;
use std::test::Fail;
use tre_generate::fixed_pattern;
use tre_parse::parse;

fn spells_the_pattern(alloc: Global, text: &str) -> Result<bool, Fail> {
    let fixed = fixed_pattern(alloc)?;
    let spelt = parse(alloc, text, 0)?;
    Ok(fixed.expr() == spelt.expr())
}

#[test]
fn the_pattern_is_what_its_text_spells(rt: HostRuntime) -> Result<(), Fail> {
    assert!(rt; spells_the_pattern(rt.alloc(), "(<:p:>;(!p % [1,2]))+")?);
    Ok(())
}
