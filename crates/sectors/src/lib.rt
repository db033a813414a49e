// Whole sectors as they are wanted: one of names, with records appended or moved there from a book, and the book that such records make.
#![tactic(auto)]

pub mod image;
pub mod moving;
pub mod returning;
