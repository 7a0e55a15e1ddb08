//! What gives a realm of a file what it judges a request by certificate by.
ghost use Rattle.std.specs.Prelude.{◌≡◌, Some, MatchResult};
ghost use Rattle.std.specs.Option.{is_some};
ghost use Rattle.krb_constants.specs.declared.padata_types.TheConstants.{PA_PK_AS_REQ};
ghost use Rattle.krb_kdc.specs.Faults.{MayFail};
ghost use Rattle.krb_kdc.specs.Sources.{IsByCertificate};
ghost use Rattle.krb_messages.specs.Padata.{padata_in};
ghost use Rattle.krb_messages.specs.Padata.{first_of};
ghost use Rattle.krb_realm_files.specs.Faults.{lookup_fault_of};
ghost use Rattle.krb_realm_files.specs.Lacks.{FailsMeans};
ghost use Rattle.krb_realm_files.specs.Means.{general_policy};
ghost use Rattle.krb_realm_files.specs.Sources.{IsGivenBy};

use crate::file_pkinit::FilePkinit;
use crate::means::means_in;
use crate::pkinit_fault::PkinitFault;
use crate::realm_parameters::RealmParameters;
use crate::refused_pkinit::RefusedPkinit;
use krb_constants::padata_types::PA_PK_AS_REQ;
use krb_kdc::{LookupFault, PkinitSource};
use krb_messages::first_in;
use krb_messages::messages::KdcReq;
use krb_realm_accounts::Policy;
use pkinit_validation::policies::GeneralPolicy;
use std::alloc::Global;

// The realm of a file, whose certificate, key and anchor are read for a request by certificate alone.
#[derive(Clone, Copy)]
pub(crate) struct RealmSource<'a> {
    // The realm.
    pub(crate) realm: &'a RealmParameters,
}

impl<'a> PkinitSource for RealmSource<'a> {
    ghost use Rattle.krb_realm_files.specs.Lacks.{FailsMeans};
    ghost use Rattle.krb_realm_files.specs.Sources.{IsGiven};

    type Given = FilePkinit;

    ghost gives = { λ own. IsGiven own.realm.now.settings.policy own.realm.now.pkinit };

    ghost may_fail = { λ own. FailsMeans own.realm.now.pkinit };

    fn pkinit_for(&self, alloc: Global, request: &KdcReq) -> Result<FilePkinit, LookupFault> {
        match &self.realm.pkinit {
            Some(octets) => {
                let policy = self.realm.settings.policy();
                given_by(alloc, policy, octets.as_bytes(), request)
            }
            None => Ok(FilePkinit::Refused(RefusedPkinit { is_offered: false })),
        }
    }
}

// Returns what judges this request, where logins by certificate are answered by these octets and this policy.
fn given_by(
    alloc: Global,
    policy: Policy,
    octets: &[u8],
    request: &KdcReq,
) -> Result<FilePkinit, LookupFault>
    ensures { MatchResult result (IsGivenBy policy octets.now request.now) (MayFail (λ fault. IsByCertificate request.now × FailsMeans (Some octets.now) fault)) }
{
    if !is_by_certificate(request) {
        return Ok(FilePkinit::Refused(RefusedPkinit { is_offered: true }));
    }
    match means_in(alloc, octets) {
        Ok(means) => Ok(FilePkinit::Means(means, general_policy(policy))),
        Err(fault) => Err(lookup_fault_of(fault)),
    }
}

// Returns what the realm takes beyond the rows of RFC 4556.
fn general_policy(policy: Policy) -> Option<GeneralPolicy>
    ensures { result ≡ general_policy policy }
{
    if !policy.pkinit_agility {
        return None;
    }
    Some(GeneralPolicy {
        takes_sha1: policy.pkinit_sha1,
    })
}

// Whether a request is by certificate: it has PA-PK-AS-REQ (RFC 4556, section 3.2.1).
fn is_by_certificate(request: &KdcReq) -> bool
    ensures { result ≡ is_some (first_of PA_PK_AS_REQ (padata_in request.now)) }
{
    first_in(request, PA_PK_AS_REQ).is_some()
}

// Returns the fault of a file whose octets are refused so.
fn lookup_fault_of(fault: PkinitFault) -> LookupFault
    ensures { result ≡ lookup_fault_of fault }
{
    match fault {
        PkinitFault::Memory => LookupFault::Memory,
        PkinitFault::NotThree
        | PkinitFault::Certificate
        | PkinitFault::Key
        | PkinitFault::Refused(_)
        | PkinitFault::OtherKey
        | PkinitFault::Anchor => LookupFault::Damaged,
    }
}
