//! Turns at the parts of a run: what lies in the table of turns, and how a worker brings values out of it and gives them
//! back.
//!
//! Contracts cite `specs/Shares.antt` (what lies in the table), `specs/Tables.antt` (the table), `specs/Rows.antt` (the
//! channels of each timeline), and `specs/Holdings.antt` (what a pass holds out).
#![tactic(auto)]

mod layout;
mod near;
mod share;
mod table;

pub use layout::Layout;
pub use near::Near;
pub use share::Share;
pub use table::RunTable;
