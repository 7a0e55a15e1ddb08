//! The checksum of an initiator's authenticator (RFC 4121, section 4.1.1).
ghost use Rattle.std.specs.Prelude.{◌≡◌, not, nat_eq};
ghost use Rattle.std.specs.Int.Bits.{bit_and};
ghost use Rattle.gss_acceptor.specs.Checksum.{bound_by, initial_in, initial_of, initial_sum};

use crate::refusal::AcceptRefusal;
use byte_streams::{array_at, u32_le};
use krb_constants::cksum_types::GSS_API;
use krb_messages::data_types::Checksum;
use krb_messages::is_number;

/// The length of the hash of the channel bindings: 16 octets (RFC 4121, section 4.1.1).
pub const BINDINGS: u32 = 16;

/// The length of the checksum without the octets of delegation: 24 octets.
const SIZE: usize = 24;

/// The flags of a context, by the constants of [`context_flags`](crate::context_flags) (RFC 4121, section 4.1.1.1).
#[derive(Clone, Copy, Debug, PartialEq, Eq)]
pub struct ContextFlags(pub u32);

impl ContextFlags {
    /// Whether one of these flags is set.
    pub fn is_set(self, flag: u32) -> bool
        ensures { result ≡ not (nat_eq (bit_and self.0 flag) 0) }
    {
        self.0 & flag != 0
    }
}

/// The channel bindings and flags that the initiator chose for the context, of its authenticator's checksum (RFC 4121, section 4.1.1).
#[derive(Clone, Copy, Debug, PartialEq, Eq)]
pub struct InitialChecksum {
    /// The hash of the channel bindings, or zeros (RFC 4121, section 4.1.1.2).
    pub bindings: [u8; 16],
    /// The flags.
    pub flags: ContextFlags,
}

/// Reads the authenticator's checksum, which has to be of type 0x8003. The octets after the flags aren't read here.
pub(crate) fn initial_in(checksum: &Option<Checksum>) -> Result<InitialChecksum, AcceptRefusal>
    ensures { result ≡ initial_in checksum.now }
{
    match checksum {
        Some(checksum) => initial_of(checksum),
        None => Err(AcceptRefusal::NoChecksum),
    }
}

// Reads a checksum by its type.
fn initial_of(checksum: &Checksum) -> Result<InitialChecksum, AcceptRefusal>
    ensures { result ≡ initial_of checksum.now }
{
    if !is_number(&checksum.cksumtype.0, GSS_API as u32) {
        return Err(AcceptRefusal::NoChecksum);
    }
    initial_sum(checksum.checksum.0.as_bytes())
}

// Reads the octets of a checksum of this type.
fn initial_sum(octets: &[u8]) -> Result<InitialChecksum, AcceptRefusal>
    ensures { result ≡ initial_sum octets.now }
{
    if octets.len() < SIZE {
        return Err(AcceptRefusal::OtherChecksum);
    }
    if u32_le(octets, 0) != BINDINGS {
        return Err(AcceptRefusal::OtherChecksum);
    }
    let bindings = array_at::<16>(octets, 4);
    let flags = ContextFlags(u32_le(octets, 20));
    Ok(InitialChecksum { bindings, flags })
}

/// Judges the initiator's channel bindings by the acceptor's. They have to be the same where both sides have some.
pub(crate) fn bound_by(
    bindings: &Option<[u8; 16]>,
    initial: InitialChecksum,
) -> Result<InitialChecksum, AcceptRefusal>
    ensures { result ≡ bound_by bindings.now initial }
{
    let Some(bindings) = bindings else {
        return Ok(initial);
    };
    let own = initial.bindings.as_slice();
    if own == [0; 16].as_slice() || own == bindings.as_slice() {
        return Ok(initial);
    }
    Err(AcceptRefusal::OtherBindings)
}
