// The commands, one in a file.
pub mod ask;
pub mod build;
pub mod search;
pub mod tree;
