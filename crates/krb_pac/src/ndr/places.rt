//! Places of values.
ghost use Rattle.std.specs.Prelude.{◌≡◌, ◌+◌, ◌≤◌, ◌<◌, length, IfOk};
ghost use Rattle.krb_pac.specs.Places.{gap, start_at};

use crate::error::PacFault;

/// Returns how many octets there are from a place to the next multiple of `size`.
#[tactic(auto, unfolding(crate::specs::Places::gap))]
pub(crate) fn gap(place: usize, size: usize) -> usize
    requires { 0 < size }
    ensures value { result ≡ gap size place }
    ensures small { result < size }
{
    (size - place % size) % size
}

/// Returns where a value of `size` octets begins: at the first multiple of `size` from `place` on. It refuses as `Short` if the octets end
/// before the value does.
#[tactic(auto, unfolding(crate::specs::Places::start_at))]
pub(crate) fn start(bytes: &[u8], place: usize, size: usize) -> Result<usize, PacFault>
    requires some { 0 < size }
    requires small { size ≤ 8 }
    ensures exact { result ≡ start_at size place bytes.now }
    ensures inside { IfOk result (λ at. at + size ≤ length bytes.now) }
{
    let skipped = gap(place, size);
    if bytes.len().saturating_sub(place) < skipped + size {
        return Err(PacFault::Short);
    }
    Ok(place + skipped)
}
