//! What each call tests before it does anything: its refusals, in the papers' order. What each call promises stands in specs/Promises.
#![tactic(auto)]

pub mod refusals;
