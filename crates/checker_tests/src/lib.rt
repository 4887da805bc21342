//! Tests of the checker by texts, and of variables, types of expressions and look-ups.
#![tactic(auto)]

#[cfg(test)]
mod declarations;
#[cfg(test)]
mod expressions;
#[cfg(test)]
mod look_ups;
pub mod marked;
#[cfg(test)]
mod statements;
#[cfg(test)]
mod variables;
