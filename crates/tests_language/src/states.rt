// Tests of tre_state.
ghost use Rattle.std.specs.Prelude.{IfOk};
ghost use Rattle.tre_state.specs.State.{tree_of};
ghost use Rattle.tre_state.specs.StateTree.{NumbersBelow};
ghost use Rattle.tre_state.specs.declared.names.TheConstants.{NAMES_MAX};

use std::alloc::{AllocError, Global};
use std::test::Fail;
use tre_state::{NAMES_MAX, NameFault, Names, State, is_name, is_word};

// Texts, whether each is a word, and whether it is a name.
const WORDS: [(&str, bool, bool); 16] = [
    ("p", true, true),
    ("_", true, true),
    ("req.valid_2", true, true),
    ("Rise", true, true),
    ("rise", true, false),
    ("event", true, false),
    ("eps", true, false),
    ("fall", true, false),
    ("inf", true, false),
    ("true", true, false),
    ("", false, false),
    ("2p", false, false),
    (".p", false, false),
    ("p-q", false, false),
    ("p q", false, false),
    ("é", false, false),
];

#[test]
fn names_are_told_from_words(rt: HostRuntime) {
    for (text, word, name) in &WORDS {
        let same = is_word(text.as_bytes()) == *word && is_name(text) == *name;
        assert!(rt; same, "{text}");
    }
}

// Whether the second of two names is q.
fn ends_with_q(names: &Names) -> bool {
    names.len() == 2 && names.name(1) == Some("q") && names.name(2).is_none()
}

// The number that the text gets, or why it gets none; None where it is no name.
fn numbered(names: &mut Names, text: &str) -> Option<Result<u8, NameFault>> {
    if is_name(text) {
        return Some(names.number(text));
    }
    None
}

// Whether p and q get their numbers, each once.
fn are_numbered(names: &mut Names) -> bool {
    numbered(names, "p") == Some(Ok(0))
        && numbered(names, "q") == Some(Ok(1))
        && numbered(names, "p") == Some(Ok(0))
        && names.find("r").is_none()
}

fn is_copied_with_q(names: &Names) -> Result<bool, AllocError> {
    Ok(ends_with_q(&names.try_clone()?))
}

fn is_each_numbered(alloc: Global) -> Result<bool, AllocError> {
    let mut names = Names::new(alloc);
    Ok(are_numbered(&mut names) && is_copied_with_q(&names)?)
}

#[test]
fn names_are_numbered_once(rt: HostRuntime) -> Result<(), Fail> {
    assert!(rt; is_each_numbered(rt.alloc())?);
    Ok(())
}

fn is_message(alloc: Global, text: &str) -> Result<bool, AllocError> {
    let message = format!(in alloc; "{}", NameFault::TooMany)?;
    Ok(message.as_str() == text)
}

#[test]
fn a_fault_has_its_name(rt: HostRuntime) -> Result<(), Fail> {
    assert!(rt; is_message(rt.alloc(), "TooMany")?);
    Ok(())
}

// `p && q`
fn both(alloc: Global) -> Result<State, AllocError>
    ensures { IfOk result (λ state. NumbersBelow NAMES_MAX (tree_of state)) }
{
    let p = Box::new(alloc, State::Prop(0))?;
    let q = Box::new(alloc, State::Prop(1))?;
    Ok(State::And(p, q))
}

// `!(p && q)`
fn not_both(alloc: Global) -> Result<State, AllocError>
    ensures { IfOk result (λ state. NumbersBelow NAMES_MAX (tree_of state)) }
{
    let both = both(alloc)?;
    let both = Box::new(alloc, both)?;
    Ok(State::Not(both))
}

// Whether a copy of the state is the same, and is false where both are true.
fn is_copied(alloc: Global, state: &State) -> Result<bool, AllocError>
    requires { NumbersBelow NAMES_MAX (tree_of state.now) }
{
    let copy = state.try_clone(alloc)?;
    let values = copy.eval(0b00) && copy.eval(0b01) && copy.eval(0b10) && !copy.eval(0b11);
    Ok(values && copy == *state)
}

fn is_copy_same(alloc: Global) -> Result<bool, AllocError> {
    let state = not_both(alloc)?;
    is_copied(alloc, &state)
}

#[test]
fn a_copy_of_a_state_is_the_state(rt: HostRuntime) -> Result<(), Fail> {
    assert!(rt; is_copy_same(rt.alloc())?);
    Ok(())
}
