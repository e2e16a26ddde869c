//! Maps in their bytes, look-ups, automata and blocks, by worked rows, as tests.
#![tactic(auto)]

#[cfg(test)]
mod automata;
#[cfg(test)]
mod blocks;
#[cfg(test)]
mod counts;
#[cfg(test)]
mod maps;
