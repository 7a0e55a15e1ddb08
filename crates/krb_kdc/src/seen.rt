//! What a KDC sees of a request that it answers.
use krb_kdc_exchanges::GrantedTicket;
use krb_messages::data_types::EncTicketPartInner;
use krb_messages::messages::KdcReq;
use krb_realm_accounts::Accounts;

/// What a KDC sees of a request that it answers.
#[derive(Clone, Copy)]
pub struct Seen<'a> {
    /// The request as it was read.
    pub request: SeenRequest<'a>,
    /// The accounts that were looked up for it.
    pub accounts: &'a Accounts,
    /// The outcome of the reply: the ticket that was granted, or the code of the KRB-ERROR.
    pub outcome: Result<GrantedTicket, u32>,
}

/// A request as it was read.
#[derive(Clone, Copy)]
pub enum SeenRequest<'a> {
    /// An AS request.
    As(&'a KdcReq),
    /// A TGS request, and the part of the ticket that it presents, if the key of the ticket-granting service opens it.
    Tgs(&'a KdcReq, Option<&'a EncTicketPartInner>),
}
