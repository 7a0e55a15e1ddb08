//! Certification requests (RFC 2986, section 4).
ghost use Rattle.equality_and_copies.specs.Equalities.{fields, both, last};
ghost use Rattle.equality_and_copies.specs.WrappedEquality.{fixed_number};
ghost use Rattle.equality_and_copies.specs.contracts.equality.names.NameEquality.TheImpl.Laws.{is_equality-law as name};
ghost use Rattle.equality_and_copies.specs.contracts.equality.keys.SubjectPublicKeyInfoEquality.TheImpl.Laws.{is_equality-law as public_key_info};
ghost use Rattle.equality_and_copies.specs.contracts.equality.attributes.OpenSslAttributesEquality.TheImpl.Laws.{is_equality-law as open_ssl_attributes};
ghost use Rattle.equality_and_copies.specs.contracts.equality.algorithms.AlgorithmIdentifierEquality.TheImpl.Laws.{is_equality-law as algorithm_identifier};
ghost use Rattle.equality_and_copies.specs.contracts.equality.leaves.BitStringAsn1Equality.TheImpl.Laws.{is_equality-law as bits};
ghost use Rattle.x509_certificates.specs.contracts.certification_request_info.CertificationRequestInfo.{the_type as certification_request_info_type};

use crate::equality::Equality;
use x509_certificates::{CertificationRequest, CertificationRequestInfo};

impl Equality for CertificationRequestInfo {
    ghost is_equality = { fields certification_request_info_type (both fixed_number (both name (both public_key_info (last open_ssl_attributes)))) };
}

impl Equality for CertificationRequest {
    ghost use Rattle.equality_and_copies.specs.contracts.equality.requests.CertificationRequestInfoEquality.TheImpl.Laws.{is_equality-law as request_info};
    ghost use Rattle.x509_certificates.specs.contracts.certification_request.CertificationRequest.{the_type};

    ghost is_equality = { fields the_type (both request_info (both algorithm_identifier (last bits))) };
}
