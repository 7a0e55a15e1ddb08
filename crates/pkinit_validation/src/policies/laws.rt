//! What holds of each realm with or without a policy.
ghost use Rattle.std.specs.Prelude.{◌≡◌, ◌↔◌, None, Ok, Result};
ghost use Rattle.std.specs.Option.{is_some};
ghost use Rattle.picky_asn1.specs.Bytes.{Bytes};
ghost use Rattle.picky_asn1_der.specs.Raw.{Raw};
ghost use Rattle.krb_messages.specs.Refusals.{Code};
ghost use Rattle.krb_messages.specs.declared.messages.kdc_req_body.KdcReqBody.{KdcReqBody};
ghost use Rattle.krb_kdc_exchanges.specs.PkinitCalls.{AgreedRecord, PkinitCallRecord};
ghost use Rattle.x509_keys.specs.KeyFunctions.{KeysRecord};
ghost use Rattle.pkinit_messages.specs.declared.auth_pack.AuthPack.{AuthPack};
ghost use Rattle.pkinit_messages.specs.AuthPacks.{IsExtensibleAuthPack};
ghost use Rattle.pkinit_validation.specs.AuthPackFields.{AuthPackFieldsRecord};
ghost use Rattle.pkinit_validation.specs.AuthPacks.{IsAuthPack};
ghost use Rattle.pkinit_validation.specs.Judging.{JudgingRecord};
ghost use Rattle.pkinit_validation.specs.PkinitTable.{agreed_on, auth_pack_fields, pkinit_table};
ghost use Rattle.pkinit_validation.specs.Trust.{TrustRecord};
ghost use Rattle.pkinit_validation.specs.GeneralFields.{general_fields};
ghost use Rattle.pkinit_validation.specs.GeneralTable.{general_agreed, general_table};
ghost use Rattle.pkinit_validation.specs.PolicyRows.{policy_rows};
ghost use Rattle.pkinit_validation.specs.Widened.{fields_widened, pack_widened};
ghost use Rattle.pkinit_validation.specs.declared.policies.policy.GeneralPolicy.{GeneralPolicy};

/// Without a policy a realm offers PA-PK-AS-REQ as before, and its rows judge each request as before. It does nothing when it runs: its
/// contract is the law.
pub fn as_before()
    ensures offered { (trust : TrustRecord) (keys : KeysRecord) → (policy_rows None trust keys).offered ≡ is_some trust.anchor }
    ensures judged { (trust : TrustRecord) (keys : KeysRecord) (call : PkinitCallRecord) (padata : Bytes) (result : Result AgreedRecord Code)
        → ((policy_rows None trust keys).judges call padata).gives result ↔ (pkinit_table keys trust call padata).gives result }
{}

/// An AuthPack of RFC 4556 alone is an extensible one that has no further fields: it is read from the same bytes, a policy takes its fields
/// where the rows without one do, and what they agree on is the same. It does nothing when it runs: its contract is the law.
pub fn auth_pack_is_extensible()
    ensures spelled { (bytes : Bytes) (pack : AuthPack Raw) → IsAuthPack bytes pack → IsExtensibleAuthPack bytes (pack_widened pack) }
    ensures judged { (body : KdcReqBody) (pack : AuthPack Raw) (fields : AuthPackFieldsRecord) → (auth_pack_fields body pack).gives (Ok fields)
        → (general_fields body (pack_widened pack)).gives (Ok (fields_widened fields)) }
    ensures agreed { (keys : KeysRecord) (judging : JudgingRecord) (fields : AuthPackFieldsRecord) (result : Result AgreedRecord Code)
        → (agreed_on keys judging fields).gives result → (general_agreed keys judging (fields_widened fields)).gives result }
{}

/// What is granted without a policy is granted with one, with the same secret and the same reply, and the reply key is made without a key
/// derivation function. It does nothing when it runs: its contract is the law.
pub fn takes_no_less()
    ensures { (keys : KeysRecord) (policy : GeneralPolicy) (trust : TrustRecord) (call : PkinitCallRecord) (padata : Bytes) (agreed : AgreedRecord)
        → (pkinit_table keys trust call padata).gives (Ok agreed) → (general_table keys policy trust call padata).gives (Ok agreed) }
{}
