//! Going over a file.
use std::alloc::Global;
use std::fs;

/// What the lines of a file say.
pub trait Lines {
    /// What a line tells of, in the plural, as it is printed.
    const NAME: &'static str;

    /// Whether what is made or read is what the line says.
    fn agrees(&self, alloc: Global, line: &str) -> anyhow::Result<bool>;
}

/// Replays a file, and prints how many of its lines say something else than what is read. A line that begins with `#`
/// says nothing.
pub fn replay<L: Lines>(rt: &HostRuntime, lines: &L, file: &str) -> anyhow::Result<()> {
    let text = fs::read_to_string(rt, file)?;
    let mut read = 0u64;
    let mut differing = 0u64;
    for line in text.lines() {
        if line.starts_with('#') {
            continue;
        }
        read = read.saturating_add(1);
        if !lines.agrees(rt.alloc(), line)? {
            differing = differing.saturating_add(1);
            println!(rt; "{file}: otherwise: {line}")?;
        }
    }
    println!(rt; "{file}: {read} {}, {differing} read otherwise", L::NAME)?;
    Ok(())
}
