//! What the messages of SPNEGO hold beside the state of the negotiation, and what the MICs of the list of mechanisms go by (RFC 4178,
//! section 5).
ghost use Rattle.std.specs.Prelude.{◌≡◌};
ghost use Rattle.gss_acceptor.specs.Responses.{due_mic};

use crate::established::Established;
use crate::mechanism::Mechanism;
use crate::refusal::AcceptRefusal;
use picky_asn1::wrapper::OctetStringAsn1;

/// The tokens of a message.
#[derive(Drop)]
pub(crate) struct Tokens {
    /// The mechanism's token.
    pub(crate) mechanism: Option<OctetStringAsn1>,
    /// The MIC of the list of mechanisms.
    pub(crate) mic: Option<OctetStringAsn1>,
}

/// The list that MICs are over, and whether they are due.
#[derive(Drop)]
pub(crate) struct Terms {
    /// The DER encoding of the list of mechanisms.
    pub(crate) list: OctetStringAsn1,
    /// Whether each side has to send a MIC: Kerberos isn't the first of the mechanisms.
    pub(crate) required: bool,
}

/// The message of SPNEGO around a token of Kerberos.
#[derive(Drop)]
pub(crate) struct Exchange {
    /// The mechanism that the answer has to name, which the first one does.
    pub(crate) supported: Option<Mechanism>,
    pub(crate) terms: Terms,
    /// The initiator's MIC, if it came with the token.
    pub(crate) mic: Option<OctetStringAsn1>,
}

/// A context whose initiator's MIC is due, and the list that it is over.
#[derive(Drop)]
pub(crate) struct Unverified {
    pub(crate) established: Established,
    pub(crate) list: OctetStringAsn1,
}

/// The MIC of a message that has to have it, and no token of the mechanism.
pub(crate) fn due_mic(tokens: Tokens) -> Result<OctetStringAsn1, AcceptRefusal>
    ensures { result ≡ due_mic tokens }
{
    let Tokens { mechanism, mic } = tokens;
    if mechanism.is_some() {
        return Err(AcceptRefusal::NotAToken);
    }
    match mic {
        Some(mic) => Ok(mic),
        None => Err(AcceptRefusal::NoMic),
    }
}
