//! What all programs have in common: their arguments, version, standard streams and end, and the file of random octets.
//!
//! [`read_arguments`] are the program's arguments. [`read_front`] reads a file up to a length. [`Streams`] are standard input and output.
//! [`Process`] is what a program that serves is given.
//! [`say`] writes a line on standard error after the program's name, and [`stop_program`] the last one. [`open_words`] opens the file of
//! random octets.
//!
//! The exit code of `stop_program` is its status. No contract says what files, the program's arguments and the standard streams hold.
#![tactic(auto)]

mod arguments;
mod files;
mod output;
mod process;
mod streams;
mod version;
mod words;

pub use arguments::{ArgumentsFault, read_arguments};
pub use files::read_front;
pub use output::{say, stop_program};
pub use process::Process;
pub use streams::Streams;
pub use version::VERSION;
pub use words::open_words;
