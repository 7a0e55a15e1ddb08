//! A realm that authenticates clients by certificate, with a policy.
ghost use Rattle.krb_time.specs.Skew.{IsWithinDay};
ghost use Rattle.krb_messages.specs.RandomBytes.{AreEnoughForReply};
ghost use Rattle.krb_messages.specs.Refusals.{IsJudged};
ghost use Rattle.krb_kdc_exchanges.specs.PkinitCalls.{agreed_as, call_of};
ghost use Rattle.pkinit_validation.specs.Trust.{trust_of};
ghost use Rattle.pkinit_validation.specs.GeneralTable.{general_table};

use crate::judging::Judging;
use crate::policies::policy::GeneralPolicy;
use crate::policies::table::judge_request;
use crate::{ExpectedSigner, RealmPkinit};
use krb_constants::error_codes;
use krb_kdc_exchanges::{Agreed, Pkinit, PkinitCall};
use krb_messages::Refusal;
use std::alloc::Global;
use x509_keys::KeyFunctions;

/// A realm that authenticates clients by certificate, and takes what its policy says beyond the rows of RFC 4556.
#[derive(Drop)]
pub struct PolicyPkinit<'a, K: KeyFunctions> {
    /// The realm's settings and keys.
    pub own: RealmPkinit<'a, K>,
    /// The policy. Without one the rows are those of the realm alone.
    pub policy: Option<GeneralPolicy>,
}

impl<'a, K: KeyFunctions> Pkinit for PolicyPkinit<'a, K> {
    ghost use Rattle.pkinit_validation.specs.PolicyRows.{policy_rows};
    ghost use Rattle.pkinit_validation.specs.Trust.{trust_of};

    ghost rows = { λ this. policy_rows this.policy (trust_of this.own.anchor this.own.certificate) (K.functions this.own.keys.now) };

    fn is_offered(&self) -> bool {
        self.own.is_offered()
    }

    fn judge(
        &self,
        alloc: Global,
        call: &PkinitCall<'_>,
        padata: &[u8],
    ) -> Result<Agreed, Refusal> {
        match self.policy {
            Some(policy) => judge_general(alloc, &self.own, policy, call, padata),
            None => self.own.judge(alloc, call, padata),
        }
    }
}

// Judges a PA-PK-AS-REQ by the policy: only a realm with an anchor and a certificate takes it.
#[tactic(auto, unfolding(crate::specs::GeneralTable::general_table))]
fn judge_general<K: KeyFunctions>(
    alloc: Global,
    own: &RealmPkinit<'_, K>,
    policy: GeneralPolicy,
    call: &PkinitCall<'_>,
    padata: &[u8],
) -> Result<Agreed, Refusal>
    requires long { AreEnoughForReply call.now.words.now }
    requires near { IsWithinDay call.now.skew }
    ensures { IsJudged (general_table (K.functions own.now.keys.now) policy (trust_of own.now.anchor own.now.certificate) (call_of call.now) padata.now).gives (agreed_as result) }
{
    let Some(anchor) = own.anchor else {
        return Err(Refusal::Krb(error_codes::KDC_ERR_PADATA_TYPE_NOSUPP));
    };
    let Some(certificate) = own.certificate else {
        return Err(Refusal::Krb(error_codes::KDC_ERR_PADATA_TYPE_NOSUPP));
    };
    let judging = Judging {
        expected: ExpectedSigner {
            realm: call.realm,
            name: call.client,
            anchor,
            moment: call.moment,
        },
        certificate,
        skew: call.skew,
        body: call.body,
        words: call.words,
    };
    judge_request(alloc, own.keys, policy, &judging, padata)
}
