//! Preauthentication by certificate (RFC 4556), and PKU2U.
ghost use Rattle.equality_and_copies.specs.Copied.{equal, told_by, fields, both, last, end, options, lists};
ghost use Rattle.equality_and_copies.specs.WrappedCopies.{optional, optional_tag, explicit_tag, implicit_tag};
ghost use Rattle.equality_and_copies.specs.contracts.copies.data_types.ChecksumCopies.TheImpl.Laws.{is_copy-law as checksum};
ghost use Rattle.equality_and_copies.specs.contracts.copies.data_types.PrincipalNameCopies.TheImpl.Laws.{is_copy-law as principal_name};
ghost use Rattle.equality_and_copies.specs.contracts.copies.leaves.ObjectIdentifierAsn1Copies.TheImpl.Laws.{is_copy-law as oid};
ghost use Rattle.pkinit_messages.specs.contracts.pk_authenticator.PkAuthenticator.{the_type as pk_authenticator_type};
ghost use Rattle.pkinit_messages.specs.contracts.validation_params.ValidationParams.{the_type as validation_params_type};
ghost use Rattle.pkinit_messages.specs.contracts.dh_domain_parameters.DhDomainParameters.{the_type as dh_domain_parameters_type};
ghost use Rattle.pkinit_messages.specs.contracts.dh_rep_info.DhRepInfo.{the_type as dh_rep_info_type};
ghost use Rattle.pkinit_messages.specs.contracts.dh_req_key_info.DhReqKeyInfo.{the_type as dh_req_key_info_type};
ghost use Rattle.pkinit_messages.specs.contracts.dh_req_info.DhReqInfo.{the_type as dh_req_info_type};
ghost use Rattle.pkinit_messages.specs.contracts.external_principal_identifier.ExternalPrincipalIdentifier.{the_type as external_principal_identifier_type};
ghost use Rattle.pkinit_messages.specs.contracts.kdc_dh_key_info.KdcDhKeyInfo.{the_type as kdc_dh_key_info_type};
ghost use Rattle.pkinit_messages.specs.contracts.krb_finished.KrbFinished.{the_type as krb_finished_type};
ghost use Rattle.equality_and_copies.specs.PkAsReps.{pa_pk_as_rep};
ghost use Rattle.pkinit_messages.specs.contracts.pa_pk_as_req.PaPkAsReq.{the_type as pa_pk_as_req_type};
ghost use Rattle.pkinit_messages.specs.contracts.pku2u_nego_body.Pku2uNegoBody.{the_type as pku2u_nego_body_type};
ghost use Rattle.pkinit_messages.specs.contracts.pku2u_nego_req_metadata.Pku2uNegoReqMetadata.{the_type as pku2u_nego_req_metadata_type};
ghost use Rattle.pkinit_messages.specs.contracts.pku2u_nego_rep.Pku2uNegoRep.{the_type as pku2u_nego_rep_type};
ghost use Rattle.pkinit_messages.specs.contracts.pku2u_nego_req.Pku2uNegoReq.{the_type as pku2u_nego_req_type};

use crate::copies::Copies;
use pkinit_messages::{
    AuthPack, ClientPublicValue, DhDomainParameters, DhRepInfo, DhReqInfo, DhReqKeyInfo,
    ExternalPrincipalIdentifier, KdcDhKeyInfo, KrbFinished, PaPkAsRep, PaPkAsReq, PkAuthenticator,
    Pku2uNegoBody, Pku2uNegoRep, Pku2uNegoReq, Pku2uNegoReqMetadata, ValidationParams,
};
use x509_algorithms::AlgorithmIdentifier;
use x509_keys::SubjectPublicKeyInfo;

impl Copies for PkAuthenticator {
    ghost is_copy = { fields pk_authenticator_type
        (both (explicit_tag equal) (both (explicit_tag equal) (both (explicit_tag equal) (both (optional_tag equal) end)))) };
}

impl<V: ClientPublicValue + Copies> Copies for AuthPack<V> {
    ghost use Rattle.equality_and_copies.specs.contracts.copies.pkinit.PkAuthenticatorCopies.TheImpl.Laws.{is_copy-law as pk_authenticator};

    ghost is_copy = { told_by
        (λ v. (v.pk_authenticator, (v.client_public_value, (v.supported_cms_types, (v.client_dh_nonce, tt)))))
        (both (explicit_tag pk_authenticator) (both (optional_tag V.is_copy) (both (optional_tag (lists equal))
        (both (optional_tag equal) end))))
        (λ v w e i. record {
          pk_authenticator = (e i).0;
          client_public_value = (e i).1.0;
          supported_cms_types = (e i).1.1.0;
          client_dh_nonce = (e i).1.1.1.0;
        }) };
}

impl Copies for ValidationParams {
    ghost is_copy = { fields validation_params_type (both equal (last equal)) };
}

impl Copies for DhDomainParameters {
    ghost use Rattle.equality_and_copies.specs.contracts.copies.pkinit.ValidationParamsCopies.TheImpl.Laws.{is_copy-law as validation_params};

    ghost is_copy = { fields dh_domain_parameters_type
        (both equal (both equal (both equal (both (optional (options equal))
        (both (optional (options validation_params)) end))))) };
}

impl Copies for DhRepInfo {
    ghost is_copy = { fields dh_rep_info_type (both (implicit_tag equal) (last (optional_tag equal))) };
}

impl Copies for DhReqKeyInfo {
    ghost use Rattle.equality_and_copies.specs.contracts.copies.pkinit.DhDomainParametersCopies.TheImpl.Laws.{is_copy-law as dh_domain_parameters};

    ghost is_copy = { fields dh_req_key_info_type (both oid (last dh_domain_parameters)) };
}

impl Copies for DhReqInfo {
    ghost use Rattle.equality_and_copies.specs.contracts.copies.pkinit.DhReqKeyInfoCopies.TheImpl.Laws.{is_copy-law as dh_req_key_info};

    ghost is_copy = { fields dh_req_info_type (both dh_req_key_info (last equal)) };
}

impl Copies for ExternalPrincipalIdentifier {
    ghost is_copy = { fields external_principal_identifier_type
        (both (optional (options (implicit_tag equal))) (both (optional (options (implicit_tag equal)))
        (last (optional (options (implicit_tag equal)))))) };
}

impl Copies for KdcDhKeyInfo {
    ghost is_copy = { fields kdc_dh_key_info_type (both (explicit_tag equal) (both (explicit_tag equal) (last (optional_tag equal)))) };
}

impl Copies for KrbFinished {
    ghost is_copy = { fields krb_finished_type (last (explicit_tag checksum)) };
}

impl Copies for PaPkAsRep {
    ghost use Rattle.equality_and_copies.specs.contracts.copies.pkinit.DhRepInfoCopies.TheImpl.Laws.{is_copy-law as dh_rep_info};

    ghost is_copy = { pa_pk_as_rep (explicit_tag dh_rep_info) (implicit_tag equal) };
}

impl Copies for PaPkAsReq {
    ghost use Rattle.equality_and_copies.specs.contracts.copies.pkinit.ExternalPrincipalIdentifierCopies.TheImpl.Laws.{is_copy-law as external_principal_identifier};

    ghost is_copy = { fields pa_pk_as_req_type
        (both (implicit_tag equal) (both (optional_tag (lists external_principal_identifier))
        (last (optional (options (implicit_tag equal)))))) };
}

impl Copies for Pku2uNegoBody {
    ghost is_copy = { fields pku2u_nego_body_type (both (explicit_tag equal) (last (explicit_tag principal_name))) };
}

impl Copies for Pku2uNegoReqMetadata {
    ghost is_copy = { fields pku2u_nego_req_metadata_type (last (implicit_tag equal)) };
}

impl Copies for Pku2uNegoRep {
    ghost use Rattle.equality_and_copies.specs.contracts.copies.pkinit.Pku2uNegoReqMetadataCopies.TheImpl.Laws.{is_copy-law as pku2u_nego_req_metadata};

    ghost is_copy = { fields pku2u_nego_rep_type (last (explicit_tag (lists pku2u_nego_req_metadata))) };
}

impl Copies for Pku2uNegoReq {
    ghost use Rattle.equality_and_copies.specs.contracts.copies.pkinit.Pku2uNegoBodyCopies.TheImpl.Laws.{is_copy-law as pku2u_nego_body};
    ghost use Rattle.equality_and_copies.specs.contracts.copies.pkinit.Pku2uNegoReqMetadataCopies.TheImpl.Laws.{is_copy-law as pku2u_nego_req_metadata};

    ghost is_copy = { fields pku2u_nego_req_type (both (explicit_tag (lists pku2u_nego_req_metadata)) (last (explicit_tag pku2u_nego_body))) };
}

impl Copies for AlgorithmIdentifier {
    ghost is_copy = { equal };
}

impl Copies for SubjectPublicKeyInfo {
    ghost is_copy = { equal };
}
