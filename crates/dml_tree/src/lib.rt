//! DML trees: how a text is read as a list of attributes, how such a list is printed, and how two are
//! joined.
//!
//! An attribute is a word, the key, and then a value: a word, a quoted text, or `[`, a list of attributes
//! and `]`. At most 128 lists are open at once.
#![tactic(auto)]

mod builder;
mod equality;
pub mod laws;
mod printing;
mod reading;
mod tree;

pub use printing::write;
pub use reading::{TreeFault, read};
pub use tree::{Attribute, Place, Tree, Value, join};
