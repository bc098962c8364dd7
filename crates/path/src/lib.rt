// What the walk does with one path: an exit read and the path's end beyond it, what becomes of the path, the lower of a death, and the counts with it.
#![tactic(auto)]

pub mod counts;
pub mod deaths;
pub mod exits;
mod lower;
pub mod marks;
pub mod outcome;
pub mod prepared;
