//! What the programs `replay_*` share: rows that are read word by word, files of rows, and texts that are written piece by piece. A row and
//! a text keep their first fault, and each is refused once, at its end.

mod files;
mod row;
mod told;

pub use files::{Rows, replay};
pub use row::{Row, components_of};
pub use told::Told;
