//! What holds of all signed data of the general form.
ghost use Rattle.std.specs.Prelude.{◌≡◌};
ghost use Rattle.picky_asn1.specs.Bytes.{Bytes};
ghost use Rattle.cms_signed_data.specs.SignedContents.{IsSignedContent};
ghost use Rattle.cms_signed_data.specs.SignedParts.{SignedParts};
ghost use Rattle.cms_signed_data.specs.GeneralContents.{GeneralParts, IsGeneralContent};
ghost use Rattle.cms_signed_data.specs.OneForm.{IsSameData};

/// Bytes are one signed data of the general form at most, with one digest algorithm and one digest. It does nothing when it runs: its
/// contract is the law.
pub fn one_general_content()
    ensures { (bytes : Bytes) (parts other : GeneralParts) → IsGeneralContent bytes parts → IsGeneralContent bytes other → parts ≡ other }
{}

/// Signed data of the one form of `cms_signed_data` is signed data of the general form, with the same content, digest, signed attributes,
/// signer and signature. It does nothing when it runs: its contract is the law.
pub fn one_form_is_general()
    ensures { (bytes : Bytes) (parts : SignedParts) → IsSignedContent bytes parts
        → (general : GeneralParts) × IsGeneralContent bytes general × IsSameData parts general }
{}
