//! What an answer says.

use gss_contexts::Context;
use picky_asn1::wrapper::OctetStringAsn1;

/// What an answer says: the context, whether a further token of the initiator is due, and the acceptor's MIC of the list of mechanisms, if
/// it sent one.
#[derive(Drop)]
pub(crate) struct Heard {
    pub(crate) context: Context,
    pub(crate) is_due: bool,
    pub(crate) mic: Option<OctetStringAsn1>,
}
