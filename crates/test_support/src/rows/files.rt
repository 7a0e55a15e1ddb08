//! Going over the rows of a file.
use crate::rows::row::Row;
use std::fs;

/// What the rows of a file say, one after the other.
pub trait Rows {
    /// The text between two columns.
    const COLUMNS: &'static str = " ";

    /// What a row is, in the plural, as it is printed.
    const NAME: &'static str = "rows";

    /// Replays a row, and returns whether it has the expected outcome. It has to read the row to its end.
    fn agrees(&mut self, rt: &HostRuntime, row: &mut Row<'_>) -> anyhow::Result<bool>;
}

/// Replays the rows of a file. It prints each that differs, and how many there are. It passes over empty rows and those that begin
/// with `#`.
pub fn replay<R: Rows>(rt: &HostRuntime, rows: &mut R, file: &str) -> anyhow::Result<()> {
    let text = fs::read_to_string(rt, file)?;
    let mut replayed = 0u64;
    let mut differing = 0u64;
    for line in text.lines() {
        if line.is_empty() || line.starts_with('#') {
            continue;
        }
        replayed = replayed.saturating_add(1);
        if !agrees(rt, rows, line)? {
            differing = differing.saturating_add(1);
            println!(rt; "{file} differs: row {replayed}: {line}")?;
        }
    }
    println!(rt; "{file}: {replayed} {}, {differing} differ", R::NAME)?;
    Ok(())
}

/// Replays a row.
fn agrees<R: Rows>(rt: &HostRuntime, rows: &mut R, line: &str) -> anyhow::Result<bool> {
    let mut row = Row::new(line, R::COLUMNS);
    let outcome = rows.agrees(rt, &mut row);
    row.ended()?;
    outcome
}
