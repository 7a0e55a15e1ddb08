//! Certificates (RFC 5280, section 4.1).
ghost use Rattle.std.specs.Cmp.{signed_Decides};
ghost use Rattle.std.specs.Cmp.Lexicographic.{pointwise_decides};
ghost use Rattle.equality_and_copies.specs.Equalities.{told_by, fields, both, last, options};
ghost use Rattle.equality_and_copies.specs.WrappedEquality.{optional, explicit};
ghost use Rattle.equality_and_copies.specs.contracts.equality.extensions.ExtensionEquality.TheImpl.Laws.{is_equality-law as extension};
ghost use Rattle.equality_and_copies.specs.contracts.equality.parts.VersionEquality.TheImpl.Laws.{is_equality-law as version};
ghost use Rattle.equality_and_copies.specs.contracts.equality.algorithms.AlgorithmIdentifierEquality.TheImpl.Laws.{is_equality-law as algorithm_identifier};
ghost use Rattle.equality_and_copies.specs.contracts.equality.names.NameEquality.TheImpl.Laws.{is_equality-law as name};
ghost use Rattle.equality_and_copies.specs.contracts.equality.parts.ValidityEquality.TheImpl.Laws.{is_equality-law as validity};
ghost use Rattle.equality_and_copies.specs.contracts.equality.keys.SubjectPublicKeyInfoEquality.TheImpl.Laws.{is_equality-law as public_key_info};
ghost use Rattle.equality_and_copies.specs.contracts.equality.leaves.BitStringAsn1Equality.TheImpl.Laws.{is_equality-law as bits};

use crate::equality::Equality;
use x509_certificates::{Certificate, CertificateExtensions, TbsCertificate};

impl Equality for CertificateExtensions {
    ghost use Rattle.x509_certificates.specs.ExtensionsLaws.{same_parts};

    ghost is_equality = { told_by (λ v. v.tagged) (optional (options (explicit (pointwise_decides extension)))) (λ v w e. same_parts v w e) };
}

impl Equality for TbsCertificate {
    ghost use Rattle.equality_and_copies.specs.contracts.equality.certificates.CertificateExtensionsEquality.TheImpl.Laws.{is_equality-law as certificate_extensions};
    ghost use Rattle.x509_certificates.specs.contracts.tbs_certificate.TbsCertificate.{the_type};

    ghost is_equality = { fields the_type
        (both version (both signed_Decides (both algorithm_identifier (both name (both validity (both name
        (both public_key_info (last certificate_extensions)))))))) };
}

impl Equality for Certificate {
    ghost use Rattle.equality_and_copies.specs.contracts.equality.certificates.TbsCertificateEquality.TheImpl.Laws.{is_equality-law as tbs_certificate};
    ghost use Rattle.x509_certificates.specs.contracts.certificate.Certificate.{the_type};

    ghost is_equality = { fields the_type (both tbs_certificate (both algorithm_identifier (last bits))) };
}
