//! Going over the rows of a file.

use picky_asn1_der::both;
use std::fs;
use test_support::{Row, Told};

/// What the rows of a file say.
pub(crate) trait Rows {
    /// The text between two rows.
    const SEPARATOR: &'static str = "\n";

    /// The text between two columns.
    const COLUMNS: &'static str = " | ";

    /// What the rows are, as it is printed.
    const NAME: &'static str;

    /// What is printed after the count of rows that differ.
    const WRONG: &'static str;

    /// Reads a row, and writes what comes out.
    fn tell(&self, rt: &HostRuntime, row: &mut Row<'_>, told: &mut Told) -> anyhow::Result<()>;
}

/// Replays the rows of a file. It prints each that differs, and how many there are. Empty rows and those that begin with `#` are
/// passed over.
pub(crate) fn replay<R: Rows + Drop>(rt: &HostRuntime, rows: R, file: &str) -> anyhow::Result<()> {
    let text = fs::read_to_string(rt, file)?;
    let mut replayed = 0u64;
    let mut differing = 0u64;
    for row in text.split(R::SEPARATOR) {
        if row.is_empty() || row.starts_with('#') {
            continue;
        }
        replayed = replayed.saturating_add(1);
        if differs(rt, &rows, row)? {
            differing = differing.saturating_add(1);
            println!(rt; "{file}: row {replayed} differs")?;
        }
    }
    println!(rt; "{file}: {replayed} {}, {differing} {}", R::NAME, R::WRONG)?;
    Ok(())
}

/// Whether something else comes out than the row wants. It is printed then.
fn differs<R: Rows>(rt: &HostRuntime, rows: &R, text: &str) -> anyhow::Result<bool> {
    let mut told = Told::new(rt.alloc());
    let mut row = Row::new(text, R::COLUMNS);
    let outcome = rows.tell(rt, &mut row, &mut told);
    both(row.ended(), outcome)?;
    let told = told.text()?;
    let is_other = told != row.wanted();
    if is_other {
        println!(rt; "{told} in place of {}", row.wanted())?;
    }
    Ok(is_other)
}
