//! A realm that authenticates clients by certificate.
ghost use Rattle.std.specs.Prelude.{◌≡◌};
ghost use Rattle.krb_time.specs.Skew.{IsWithinDay};
ghost use Rattle.krb_messages.specs.RandomBytes.{AreEnoughForReply};
ghost use Rattle.krb_messages.specs.Refusals.{IsJudged};
ghost use Rattle.krb_kdc_exchanges.specs.PkinitCalls.{agreed_as, call_of};
ghost use Rattle.pkinit_validation.specs.PkinitTable.{pkinit_table};
ghost use Rattle.pkinit_validation.specs.Trust.{trust_of};

use crate::judging::Judging;
use crate::table::judge_request;
use crate::{Anchor, ExpectedSigner};
use krb_constants::error_codes;
use krb_kdc_exchanges::{Agreed, Pkinit, PkinitCall};
use krb_messages::Refusal;
use std::alloc::Global;
use x509_keys::KeyFunctions;

/// The settings and the keys by which a realm authenticates clients by certificate. Without an anchor or without a certificate of
/// its own it refuses each request by certificate (RFC 4120, section 7.5.9).
#[derive(Drop)]
pub struct RealmPkinit<'a, K: KeyFunctions> {
    /// The authority that the realm trusts to issue its clients' certificates.
    pub anchor: Option<&'a Anchor>,
    /// The realm's own certificate.
    pub certificate: Option<&'a [u8]>,
    /// The realm's key functions.
    pub keys: &'a K,
}

impl<'a, K: KeyFunctions> Pkinit for RealmPkinit<'a, K> {
    ghost use Rattle.pkinit_validation.specs.PkinitRows.{pkinit_rows};
    ghost use Rattle.pkinit_validation.specs.Trust.{trust_of};

    ghost rows = { λ own. pkinit_rows (trust_of own.anchor own.certificate) (K.functions own.keys.now) };

    fn is_offered(&self) -> bool {
        match self.anchor {
            Some(_) => true,
            None => false,
        }
    }

    fn judge(
        &self,
        alloc: Global,
        call: &PkinitCall<'_>,
        padata: &[u8],
    ) -> Result<Agreed, Refusal> {
        judge_pk_as_req(alloc, self, call, padata)
    }
}

// Judges a PA-PK-AS-REQ: only a realm with an anchor and a certificate takes it.
#[tactic(auto, unfolding(crate::specs::PkinitTable::pkinit_table))]
fn judge_pk_as_req<K: KeyFunctions>(
    alloc: Global,
    own: &RealmPkinit<'_, K>,
    call: &PkinitCall<'_>,
    padata: &[u8],
) -> Result<Agreed, Refusal>
    requires long { AreEnoughForReply call.now.words.now }
    requires near { IsWithinDay call.now.skew }
    ensures { IsJudged (pkinit_table (K.functions own.now.keys.now) (trust_of own.now.anchor own.now.certificate) (call_of call.now) padata.now).gives (agreed_as result) }
{
    let Some(anchor) = own.anchor else {
        return Err(Refusal::Krb(error_codes::KDC_ERR_PADATA_TYPE_NOSUPP));
    };
    let Some(certificate) = own.certificate else {
        return Err(Refusal::Krb(error_codes::KDC_ERR_PADATA_TYPE_NOSUPP));
    };
    let judging = Judging {
        expected: ExpectedSigner {
            realm: call.realm,
            name: call.client,
            anchor,
            moment: call.moment,
        },
        certificate,
        skew: call.skew,
        body: call.body,
        words: call.words,
    };
    judge_request(alloc, own.keys, &judging, padata)
}
