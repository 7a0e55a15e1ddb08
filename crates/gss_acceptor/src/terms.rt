//! What an acceptor goes by beside its service.
ghost use Rattle.std.specs.Prelude.{◌≡◌, ◌≤◌};
ghost use Rattle.krb_service.specs.ApReply.{random_size};
ghost use Rattle.gss_acceptor.specs.Contexts.{fields_of};

use krb_service::ReplyFields;

/// What an acceptor goes by beside its service.
#[derive(Clone, Copy, Debug)]
pub struct AcceptorTerms {
    /// Whether an AP-REP has a subkey and a first sequence number of the acceptor. The subkey then protects the context, whatever subkey the
    /// initiator has (RFC 4121, section 2).
    pub with_subkey: bool,
    /// The hash of the acceptor's channel bindings, if it has any (RFC 4121, section 4.1.1.2).
    pub bindings: Option<[u8; 16]>,
}

impl AcceptorTerms {
    /// An AP-REP has the authenticator's time alone, and there are no channel bindings.
    pub const PLAIN: AcceptorTerms = AcceptorTerms {
        with_subkey: false,
        bindings: None,
    };

    /// What an AP-REP has beside the authenticator's time.
    pub(crate) fn fields(self) -> ReplyFields
        ensures fields { result ≡ fields_of self }
        ensures small { random_size result ≤ 64 }
    {
        if self.with_subkey {
            return ReplyFields::SubkeyAndNumber;
        }
        ReplyFields::TimeAlone
    }
}
