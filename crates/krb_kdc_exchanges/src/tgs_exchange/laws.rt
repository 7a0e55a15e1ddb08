//! Laws of every TGS request.
ghost use Rattle.std.specs.Prelude.{◌≡◌, ◌≢◌, ℤ, false, true, List, [], ◌∷◌, Option, Some, IsSome};
ghost use Rattle.std.specs.List.{find};
ghost use Rattle.std.specs.Option.{is_some};
ghost use Rattle.krb_realm_accounts.specs.Account.{AccountRecord};
ghost use Rattle.krb_realm_accounts.specs.declared.policy.Policy.{Policy};
ghost use Rattle.krb_realm_accounts.specs.declared.policy.TheConstants.{NO_POLICY};
ghost use Rattle.krb_crypto.specs.declared.suite.CipherSuite.TheVariants.{Des3CbcSha1Kd};
ghost use Rattle.krb_kdc_exchanges.specs.TgsTable.{first_granted, has_des3_key, holds_back_des3, suite_numbered, suite_of_first};
ghost use Rattle.krb_kdc_exchanges.specs.Requests.{body_of};
ghost use Rattle.krb_messages.specs.Bodies.{body_bytes};
ghost use Rattle.krb_messages.specs.Messages.{IsTgsReq};
ghost use Rattle.krb_messages.specs.declared.messages.kdc_req.KdcReq.{KdcReq};
ghost use Rattle.picky_asn1.specs.Bytes.{Bytes};
ghost use Rattle.picky_asn1_der.specs.Parts.{IsPart};

/// The bytes that a request's checksum is computed over, its body's DER encoding, are in the request's own bytes. In a request
/// with padata they are in the SEQUENCE's element number 3, counted from 0, under its tag (RFC 4120, section 5.4.1). This place
/// has no other bytes. It does nothing when it runs: its contract is the law.
pub fn body_is_part()
    ensures part { (bytes : Bytes) (request : KdcReq) → IsTgsReq bytes request → IsSome request.padata.0
        → IsPart bytes (0 ∷ 3 ∷ 0 ∷ []) (body_bytes (body_of request)) }
    ensures one { (bytes part : Bytes) (request : KdcReq) → IsTgsReq bytes request → IsSome request.padata.0
        → IsPart bytes (0 ∷ 3 ∷ 0 ∷ []) part → part ≡ body_bytes (body_of request) }
{}

/// Where a realm sets no policy, the session key of a service ticket is of the first known encryption type that the client lists, whatever
/// keys the accounts have. It does nothing when it runs: its contract is the law.
pub fn as_before()
    ensures { (client : Option AccountRecord) (service : AccountRecord) (numbers : List ℤ)
        → first_granted (holds_back_des3 NO_POLICY client service) numbers ≡ suite_of_first (find (λ number. is_some (suite_numbered number)) numbers) }
{}

/// Where the policy limits triple DES, and neither the client's account nor the service's has a key of triple DES, no session key is of it,
/// whatever the client lists. It does nothing when it runs: its contract is the law.
pub fn no_des3()
    ensures { (policy : Policy) (client : Option AccountRecord) (service : AccountRecord) (numbers : List ℤ)
        → policy.limits_des3 ≡ true → has_des3_key client ≡ false → has_des3_key (Some service) ≡ false
        → first_granted (holds_back_des3 policy client service) numbers ≢ Some Des3CbcSha1Kd }
{}
