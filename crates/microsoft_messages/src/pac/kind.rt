//! The types of buffers of a PAC (MS-PAC, section 2.4).
ghost use Rattle.std.specs.Prelude.{◌≡◌};
ghost use Rattle.microsoft_messages.specs.Kinds.{kind_number, kind_judged};

use crate::pac::PacError;

/// The type of a buffer (ulType).
#[derive(Clone, Copy, Debug, PartialEq, Eq)]
pub enum PacBufferType {
    /// Logon information.
    KerbValidationInfo,

    /// Credentials.
    Credentials,

    /// The server's signature.
    ServerChecksum,

    /// The KDC's signature.
    KdcChecksum,

    /// The client's name and the time of its ticket.
    ClientInfo,

    /// Constrained delegation information.
    ConstrainedDelegationInformation,

    /// The user's principal name and the domain's DNS name.
    UpnDnsInfo,

    /// The client's claims.
    ClientClaimsInfo,

    /// The device.
    DeviceInfo,

    /// The device's claims.
    DeviceClaimsInfo,

    /// The ticket's signature.
    TicketChecksum,

    /// Whether the client asked for a PAC.
    AttributesInfo,

    /// The account that asked for the ticket.
    Requestor,

    /// The KDC's signature over the whole PAC.
    ExtendedKdcChecksum,
}

/// The type's number.
impl From<PacBufferType> for u32 {
    ghost from_gives = { λ kind number. number ≡ kind_number kind };

    fn from(kind: PacBufferType) -> u32 {
        match kind {
            PacBufferType::KerbValidationInfo => 1,
            PacBufferType::Credentials => 2,
            PacBufferType::ServerChecksum => 6,
            PacBufferType::KdcChecksum => 7,
            PacBufferType::ClientInfo => 10,
            PacBufferType::ConstrainedDelegationInformation => 11,
            PacBufferType::UpnDnsInfo => 12,
            PacBufferType::ClientClaimsInfo => 13,
            PacBufferType::DeviceInfo => 14,
            PacBufferType::DeviceClaimsInfo => 15,
            PacBufferType::TicketChecksum => 16,
            PacBufferType::AttributesInfo => 17,
            PacBufferType::Requestor => 18,
            PacBufferType::ExtendedKdcChecksum => 19,
        }
    }
}

/// The type that has this number.
impl TryFrom<u32> for PacBufferType {
    type Error = PacError;

    ghost try_from_gives = { λ number result. result ≡ kind_judged number };

    fn try_from(number: u32) -> Result<PacBufferType, PacError> {
        match number {
            1 => Ok(PacBufferType::KerbValidationInfo),
            2 => Ok(PacBufferType::Credentials),
            6 => Ok(PacBufferType::ServerChecksum),
            7 => Ok(PacBufferType::KdcChecksum),
            10 => Ok(PacBufferType::ClientInfo),
            11 => Ok(PacBufferType::ConstrainedDelegationInformation),
            12 => Ok(PacBufferType::UpnDnsInfo),
            13 => Ok(PacBufferType::ClientClaimsInfo),
            14 => Ok(PacBufferType::DeviceInfo),
            15 => Ok(PacBufferType::DeviceClaimsInfo),
            16 => Ok(PacBufferType::TicketChecksum),
            17 => Ok(PacBufferType::AttributesInfo),
            18 => Ok(PacBufferType::Requestor),
            19 => Ok(PacBufferType::ExtendedKdcChecksum),
            other => Err(PacError::PacBufferType(other)),
        }
    }
}
