//! Sets of document numbers, and how those of a clause are combined.
#![tactic(auto)]

mod document_set;
mod found;
mod joined;

pub use document_set::DocSet;
pub use found::FoundDocuments;
pub use joined::JoinedSets;
