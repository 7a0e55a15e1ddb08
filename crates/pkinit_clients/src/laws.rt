//! What holds of all replies by certificate.
ghost use Rattle.std.specs.Prelude.{◌≡◌, Some};
ghost use Rattle.cms_signed_data.specs.SignedContents.{IsSignedContent};
ghost use Rattle.cms_signed_data.specs.SignedParts.{SignedParts};
ghost use Rattle.krb_messages.specs.Messages.{IsAsRep};
ghost use Rattle.krb_messages.specs.declared.messages.kdc_rep.KdcRep.{KdcRep};
ghost use Rattle.picky_asn1.specs.Bytes.{Bytes};
ghost use Rattle.pkinit_messages.specs.declared.pa_pk_as_rep.PaPkAsRep.{PaPkAsRep};
ghost use Rattle.picky_asn1_der.specs.Raw.{Raw};
ghost use Rattle.pkinit_messages.specs.AuthPacks.{IsExtensibleAuthPack};
ghost use Rattle.pkinit_messages.specs.declared.pk_authenticator.PkAuthenticator.{PkAuthenticator};
ghost use Rattle.pkinit_clients.specs.AgilePacks.{IsAgilePack, agile_pack_of, asked_widened};
ghost use Rattle.pkinit_clients.specs.Means.{pk_as_rep_in};
ghost use Rattle.pkinit_clients.specs.Replies.{IsPaPkAsRep, signed_in};
ghost use Rattle.pkinit_clients.specs.Verified.{IsVerifiedPart};

/// What a client verifies of a reply by certificate is in the reply's own bytes: the signed data in the first padata
/// PA-PK-AS-REP, its certificate, what the certificate's issuer signed, and the signed attributes (RFC 4556, section 3.2.3.1). The
/// certificate may have any spelling. It does nothing when it runs: its contract is the law.
pub fn reply_verified_is_part()
    ensures { (bytes padata signed : Bytes) (reply : KdcRep) (told : PaPkAsRep) (content : SignedParts) → IsAsRep bytes reply → pk_as_rep_in reply ≡ Some padata
        → IsPaPkAsRep padata told → signed_in told ≡ Some signed → IsSignedContent signed content
        → IsVerifiedPart bytes signed content }
{}

/// What a client with algorithm agility signs is an AuthPack that a realm with algorithm agility reads, from the same bytes. It does
/// nothing when it runs: its contract is the law.
pub fn agile_pack_is_extensible()
    ensures { (authenticator : PkAuthenticator) (value : Raw) (bytes : Bytes) → IsAgilePack bytes (agile_pack_of authenticator value)
        → IsExtensibleAuthPack bytes (asked_widened authenticator value) }
{}
