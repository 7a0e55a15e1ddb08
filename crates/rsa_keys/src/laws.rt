//! What holds of all keys. Each is a function that does nothing when it runs: its contract is the law.
ghost use Rattle.std.specs.Prelude.{◌≡◌, Ok, Some};
ghost use Rattle.picky_asn1_der.specs.Raw.{Raw};
ghost use Rattle.picky_asn1.specs.Bytes.{Bytes};
ghost use Rattle.x509_keys.specs.declared.functions.Signed.{Signed};
ghost use Rattle.x509_keys.specs.declared.rsa_private_key.RsaPrivateKey.{RsaPrivateKey};
ghost use Rattle.x509_keys.specs.declared.subject_public_key_info.SubjectPublicKeyInfo.{SubjectPublicKeyInfo};
ghost use Rattle.x509_keys.specs.KeyFunctions.TheirValue.{WholeValue};
ghost use Rattle.x509_keys.specs.SignedBy.{signed_by};
ghost use Rattle.rsa_keys.specs.Agreements.{IsAgreed, IsOfGroup, agreed, own_value};
ghost use Rattle.rsa_keys.specs.Functions.{IsPublicPart, signed_by_own};
ghost use Rattle.rsa_keys.specs.PrivateKeys.{IsOwnKeyOf};
ghost use Rattle.rsa_keys.specs.PrivateNumbers.{IsRightKey, signature_by};
ghost use Rattle.rsa_keys.specs.Signatures.{checked};

use crate::own_key::OwnKey;
use public_key_cryptography::Group;

/// Each signature that a key makes is valid under its public key, whether the key is a pair or not.
pub fn signed_is_verified(own: &OwnKey)
    ensures { (key : SubjectPublicKeyInfo) (text : Bytes) (made : Signed)
        → IsPublicPart own.now key → signed_by_own own.now text ≡ Some made → checked key made.algorithm text made.signature ≡ Ok tt }
{
    let _public = own.public();
}

/// The own key of a right private key signs each text, with its primes or without them: the signature is that of modulus and private
/// exponent (RFC 8017, section 8.2.1).
pub fn right_key_signs(own: &OwnKey)
    ensures { (key : RsaPrivateKey) (text : Bytes) → IsOwnKeyOf key own.now → IsRightKey key
        → signed_by_own own.now text ≡ Some (signed_by own.now.algorithm (signature_by key text)) }
{
    let _public = own.public();
}

/// Two parties of one group come to one secret, each by the other's value. One has the whole of it, and the other its bits, as a KDC
/// and a client do (RFC 4556, sections 3.2.1 and 3.2.3.1).
pub fn one_secret(group: Group)
    ensures { (ours theirs : Bytes) (our_value their_value : Raw)
        → own_value group ours ≡ Some our_value → own_value group theirs ≡ Some their_value → IsAgreed group ours theirs their_value }
{
    public_key_cryptography::agree(group);
}

/// Who comes to a secret by a peer's whole value has an own value of the same group, as a KDC that replies to a client (RFC 4556, section
/// 3.2.3.1).
pub fn reply_in_group(group: Group)
    ensures { (theirs ours : Raw) (words secret : Bytes) → agreed group (WholeValue theirs) words ≡ Some secret → own_value group words ≡ Some ours
        → IsOfGroup group theirs × IsOfGroup group ours }
{}
