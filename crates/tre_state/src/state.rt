ghost use Rattle.std.specs.Prelude.{◌≡◌, ◌↔◌, IsTrue, IfOk};
ghost use Rattle.tre_state.specs.StateTree.{HoldsOn, NumbersBelow};
ghost use Rattle.tre_state.specs.State.{tree_of};

use crate::names::NAMES_MAX;
use std::alloc::{AllocError, Global};

/// A Boolean combination of propositions, which go by their numbers from 0.
#[derive(Drop, PartialEq, Eq)]
pub enum State {
    /// True on every valuation.
    Yes,
    /// The proposition of this number.
    Prop(u8),
    Not(Box<State>),
    And(Box<State>, Box<State>),
    Or(Box<State>, Box<State>),
}

impl State {
    /// The truth of the state on a valuation, whose bit i is the value of proposition i.
    pub fn eval(&self, valuation: u64) -> bool
        requires numbers { NumbersBelow NAMES_MAX (tree_of self.now) }
        ensures holds { IsTrue result ↔ HoldsOn (tree_of self.now) valuation }
    {
        match self {
            State::Yes => true,
            State::Prop(number) => (valuation >> *number) & 1 == 1,
            State::Not(state) => !state.eval(valuation),
            State::And(left, right) => left.eval(valuation) && right.eval(valuation),
            State::Or(left, right) => left.eval(valuation) || right.eval(valuation),
        }
    }

    /// The same state once more. It goes as deep as the state does.
    pub fn try_clone(&self, alloc: Global) -> Result<State, AllocError>
        ensures same { IfOk result (λ copy. tree_of copy ≡ tree_of self.now) }
    {
        match self {
            State::Yes => Ok(State::Yes),
            State::Prop(number) => Ok(State::Prop(*number)),
            State::Not(state) => Ok(State::Not(Box::new(alloc, state.try_clone(alloc)?)?)),
            State::And(left, right) => {
                let left = Box::new(alloc, left.try_clone(alloc)?)?;
                let right = Box::new(alloc, right.try_clone(alloc)?)?;
                Ok(State::And(left, right))
            }
            State::Or(left, right) => {
                let left = Box::new(alloc, left.try_clone(alloc)?)?;
                let right = Box::new(alloc, right.try_clone(alloc)?)?;
                Ok(State::Or(left, right))
            }
        }
    }
}
