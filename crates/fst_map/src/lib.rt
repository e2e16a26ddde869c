//! A sorted map from byte strings to numbers, machines that read byte strings, and which blocks may hold what one takes.
#![tactic(auto)]

mod automaton;
mod counting;
mod map;
mod opened;
mod walking;
mod within;

pub use automaton::{AlwaysMatch, Automaton, Exact, StartsWith, Union, always_match_laws};
pub use counting::Steps;
pub use map::{MapBuilder, MapError};
pub use opened::Fst;
pub use walking::Walk;
pub use within::may_take_within;
