//! Cuts a period of weighted transfers into slots in which no two share a sender or a receiver.
#![tactic(auto)]

mod choice;
mod columns;
mod search;
mod split;
mod square;
mod weights;

pub use split::slots;
pub use weights::{Edge, SlotPart, Weights};
