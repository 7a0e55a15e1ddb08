//! What a realm of a file judges a request by certificate by.
ghost use Rattle.krb_time.specs.Skew.{IsWithinDay};
ghost use Rattle.krb_messages.specs.RandomBytes.{AreEnoughForReply};
ghost use Rattle.krb_messages.specs.Refusals.{IsJudged};
ghost use Rattle.krb_kdc_exchanges.specs.PkinitCalls.{agreed_as, call_of};
ghost use Rattle.krb_realm_files.specs.Means.{rows_of};

use crate::means::PkinitMeans;
use crate::refused_pkinit::RefusedPkinit;
use krb_kdc_exchanges::{Agreed, Pkinit, PkinitCall};
use krb_messages::Refusal;
use pkinit_validation::policies::{GeneralPolicy, PolicyPkinit};
use std::alloc::Global;

// What a realm of a file judges a request by certificate by.
#[derive(Drop)]
pub(crate) enum FilePkinit {
    // By nothing: it refuses each.
    Refused(RefusedPkinit),
    // By what its record has, and by its policy.
    Means(PkinitMeans, Option<GeneralPolicy>),
}

impl Pkinit for FilePkinit {
    ghost use Rattle.krb_realm_files.specs.Sources.{file_rows};

    ghost rows = { file_rows };

    fn is_offered(&self) -> bool {
        match self {
            FilePkinit::Refused(own) => own.is_offered,
            FilePkinit::Means(_, _) => true,
        }
    }

    fn judge(
        &self,
        alloc: Global,
        call: &PkinitCall<'_>,
        padata: &[u8],
    ) -> Result<Agreed, Refusal> {
        match self {
            FilePkinit::Refused(own) => own.judge(alloc, call, padata),
            FilePkinit::Means(means, policy) => judge_by(alloc, means, *policy, call, padata),
        }
    }
}

// Judges a request by certificate by these means and this policy.
fn judge_by(
    alloc: Global,
    means: &PkinitMeans,
    policy: Option<GeneralPolicy>,
    call: &PkinitCall<'_>,
    padata: &[u8],
) -> Result<Agreed, Refusal>
    requires long { AreEnoughForReply call.now.words.now }
    requires near { IsWithinDay call.now.skew }
    ensures { IsJudged ((rows_of policy means.now).judges (call_of call.now) padata.now).gives (agreed_as result) }
{
    let own = means.pkinit();
    let realm = PolicyPkinit { own, policy };
    realm.judge(alloc, call, padata)
}
