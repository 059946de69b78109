// The activations of a day: their register, and the totals of energy over them.
#![tactic(auto)]

mod register;
mod register_calls;
pub mod totals;

pub use register::Register;
