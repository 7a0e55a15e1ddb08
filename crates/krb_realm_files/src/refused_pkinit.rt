//! A realm that judges no request by certificate.
ghost use Rattle.std.specs.Prelude.{◌≡◌};

use krb_constants::error_codes::KDC_ERR_PADATA_TYPE_NOSUPP;
use krb_kdc_exchanges::{Agreed, Pkinit, PkinitCall};
use krb_messages::Refusal;
use std::alloc::Global;

/// A realm that refuses each request by certificate with KDC_ERR_PADATA_TYPE_NOSUPP (RFC 4120, section 7.5.9). It may offer logins by
/// certificate all the same: it represents each realm that does, as long as no request is by certificate.
#[derive(Clone, Copy, Debug)]
pub struct RefusedPkinit {
    /// Whether METHOD-DATA offers PA-PK-AS-REQ.
    pub is_offered: bool,
}

impl Pkinit for RefusedPkinit {
    ghost use Rattle.krb_realm_files.specs.RefusedPkinit.{refused_rows};

    ghost rows = { λ own. refused_rows own.is_offered };

    fn is_offered(&self) -> bool {
        self.is_offered
    }

    fn judge(
        &self,
        _alloc: Global,
        _call: &PkinitCall<'_>,
        _padata: &[u8],
    ) -> Result<Agreed, Refusal> {
        Err(Refusal::Krb(KDC_ERR_PADATA_TYPE_NOSUPP))
    }
}
