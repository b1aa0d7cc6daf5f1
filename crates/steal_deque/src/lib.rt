//! Stealing deques of numbers, each under a rule by which a pass knows what was pushed and what it took.
#![tactic(auto)]

mod deque;

pub use deque::{
    Cut, DequeRule, Knowledge, Owner, Puts, Takes, Task, Thief, Token, Total, filled, hand_out,
    pop_one, steal_one, take_back,
};
