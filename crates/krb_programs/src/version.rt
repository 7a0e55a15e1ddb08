//! The version of this repository's programs.

/// What `--version` of a program prints after the program's name: the newest version of the changelog, or what comes after it.
pub const VERSION: &str = "unreleased, after 0.9.0";
