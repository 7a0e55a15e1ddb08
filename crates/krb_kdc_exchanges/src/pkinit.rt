//! How a realm authenticates clients by certificate.
ghost use Rattle.std.specs.Prelude.{◌≡◌};
ghost use Rattle.krb_time.specs.Skew.{IsWithinDay};
ghost use Rattle.krb_messages.specs.RandomBytes.{AreEnoughForReply};
ghost use Rattle.krb_messages.specs.Refusals.{IsJudged};
ghost use Rattle.krb_kdc_exchanges.specs.PkinitCalls.{agreed_as, call_of};

use crate::pkinit_call::{Agreed, PkinitCall};
use krb_messages::Refusal;
use std::alloc::Global;

/// How a realm authenticates clients by certificate (RFC 4556). Its model is the rows of the AS exchange's table that judge
/// PA-PK-AS-REQ.
pub trait Pkinit {
    ghost use Rattle.krb_kdc_exchanges.specs.Rows.{PkinitRows};

    ghost rows: { Self → PkinitRows };

    /// Whether METHOD-DATA offers PA-PK-AS-REQ to a client that has to authenticate first.
    fn is_offered(&self) -> bool
        ensures { result ≡ (rows self.now).offered };

    /// Judges the data of PA-PK-AS-REQ: what client and realm agree on, or the error code of the first row that refuses it (RFC
    /// 4556, section 3.2.2).
    fn judge(&self, alloc: Global, call: &PkinitCall<'_>, padata: &[u8]) -> Result<Agreed, Refusal>
        requires long { AreEnoughForReply call.now.words.now }
        requires near { IsWithinDay call.now.skew }
        ensures { IsJudged ((rows self.now).judges (call_of call.now) padata.now).gives (agreed_as result) };
}
