//! The checksum of an initiator's authenticator (RFC 4121, section 4.1.1).
ghost use Rattle.std.specs.Prelude.{◌≡◌, ◌<◌, length, pos, IfOk};
ghost use Rattle.krb_constants.specs.declared.cksum_types.TheConstants.{GSS_API};
ghost use Rattle.gss_initiator.specs.Checksums.{bindings_of, initial_checksum, is_beyond};
ghost use Rattle.gss_initiator.specs.Delegating.{delegating_checksum};

use crate::delegating::delegation_octets;
use byte_streams::u32_le_bytes;
use gss_acceptor::context_flags::DELEGATION;
use gss_acceptor::{BINDINGS, ContextFlags, InitialChecksum};
use krb_constants::cksum_types::GSS_API;
use krb_messages::data_types::Checksum;
use md5::{Digest, Md5};
use picky_asn1::wrapper::{IntegerAsn1, OctetStringAsn1};
use picky_asn1_der::ExplicitContextTag;
use std::alloc::{AllocError, Global};

/// The hash of no channel bindings: zeros (RFC 4121, section 4.1.1.2).
pub const NO_BINDINGS: [u8; 16] = [0; 16];

/// The type and the length of each of two addresses that there aren't.
const NO_ADDRESSES: [u8; 16] = [0; 16];

/// The least flag that isn't offered, but for delegation.
pub(crate) const BEYOND: u32 = 64;

/// The MD5 hash of channel bindings that are application data without addresses, as those of TLS are (RFC 4121, section 4.1.1.2; RFC
/// 5929). There is none for data of 2^32 octets and more.
pub fn bindings_of(application: &[u8]) -> Option<[u8; 16]>
    ensures { result ≡ bindings_of application.now }
{
    let Ok(length) = u32::try_from(application.len()) else {
        return None;
    };
    let mut hasher = Md5::new();
    hasher.update(&NO_ADDRESSES);
    hasher.update(&u32_le_bytes(length));
    hasher.update(application);
    Some(hasher.finalize())
}

/// Whether a flag asks for what isn't offered.
pub(crate) fn is_beyond(flags: ContextFlags) -> bool
    ensures { result ≡ is_beyond flags }
{
    flags.is_set(DELEGATION) || flags.0 >= BEYOND
}

/// The checksum of these channel bindings and flags.
pub(crate) fn initial_checksum(
    alloc: Global,
    initial: InitialChecksum,
) -> Result<Checksum, AllocError>
    ensures { IfOk result (λ sum. sum ≡ initial_checksum initial) }
{
    let mut octets = Vec::from_slice(alloc, &u32_le_bytes(BINDINGS))?;
    octets.extend_from_slice(&initial.bindings)?;
    octets.extend_from_slice(&u32_le_bytes(initial.flags.0))?;
    checksum_of(alloc, octets)
}

/// The checksum of these channel bindings and flags, with a delegation.
pub(crate) fn delegating_checksum(
    alloc: Global,
    initial: InitialChecksum,
    deleg: &[u8],
) -> Result<Checksum, AllocError>
    requires { length deleg.now < 65536 }
    ensures { IfOk result (λ sum. sum ≡ delegating_checksum initial deleg.now) }
{
    let mut octets = Vec::from_slice(alloc, &u32_le_bytes(BINDINGS))?;
    octets.extend_from_slice(&initial.bindings)?;
    octets.extend_from_slice(&u32_le_bytes(initial.flags.0))?;
    octets.extend_from_slice(&delegation_octets(alloc, deleg)?)?;
    checksum_of(alloc, octets)
}

// The checksum with these octets.
fn checksum_of(alloc: Global, octets: Vec<u8>) -> Result<Checksum, AllocError>
    ensures { IfOk result (λ sum. sum ≡ record { cksumtype = record { 0 = pos GSS_API }; checksum = record { 0 = octets.items } }) }
{
    let kind = IntegerAsn1::from_u64(alloc, GSS_API as u64)?;
    Ok(Checksum {
        cksumtype: ExplicitContextTag(kind),
        checksum: ExplicitContextTag(OctetStringAsn1::from(octets)),
    })
}
