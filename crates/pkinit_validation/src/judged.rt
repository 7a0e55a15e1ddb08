//! What is judged of signed content.
ghost use Rattle.std.specs.Prelude.{◌≡◌};

use cms_signed_data::SignedContent;
use picky_asn1::wrapper::IntegerAsn1;
use x509_algorithms::AlgorithmIdentifier;
use x509_fields::Name;

/// The parts of signed content that show who signed it (RFC 5652, section 5).
#[derive(Clone, Copy)]
pub struct JudgedContent<'a> {
    /// The content's octets.
    pub content: &'a [u8],
    /// The signer's certificate, in any of the accepted spellings.
    pub certificate: &'a [u8],
    /// The issuer of the signer's certificate, as the signer names it.
    pub issuer: &'a Name,
    /// The serial number of the signer's certificate, as the signer names it.
    pub serial: &'a IntegerAsn1,
    /// The digest that the signed attributes have.
    pub digest: &'a [u8],
    /// The bytes that the signature covers: the signed attributes with the tag of a SET OF.
    pub covered: &'a [u8],
    /// The signature's algorithm.
    pub algorithm: &'a AlgorithmIdentifier,
    /// The signature.
    pub signature: &'a [u8],
}

impl<'a> From<&'a SignedContent<'a>> for JudgedContent<'a> {
    ghost use Rattle.pkinit_validation.specs.SignedContents.{judged_in};
    ghost use Rattle.pkinit_validation.specs.Judged.{judged_of};

    ghost from_gives = { λ content judged. judged_of judged ≡ judged_in content.now };

    fn from(content: &'a SignedContent<'a>) -> JudgedContent<'a> {
        JudgedContent {
            content: content.content(),
            certificate: content.certificate(),
            issuer: content.issuer(),
            serial: content.serial(),
            digest: content.digest(),
            covered: content.covered(),
            algorithm: content.algorithm(),
            signature: content.signature(),
        }
    }
}
