//! Octets as text.

/// Prints octets in hexadecimal, on a line of their own.
pub fn print_bytes(rt: &HostRuntime, bytes: &[u8]) -> anyhow::Result<()> {
    println!(rt; "{}", hex::encode(rt.alloc(), bytes)?)?;
    Ok(())
}
