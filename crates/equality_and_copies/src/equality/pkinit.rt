//! Preauthentication by certificate (RFC 4556), and PKU2U.
ghost use Rattle.std.specs.Cmp.{signed_Decides};
ghost use Rattle.std.specs.Cmp.Lexicographic.{bytes_decides, pointwise_decides};
ghost use Rattle.equality_and_copies.specs.Equalities.{told_by, fields, both, last, options, variants, or_field};
ghost use Rattle.equality_and_copies.specs.WrappedEquality.{optional, optional_tag, explicit_tag, implicit_tag};
ghost use Rattle.equality_and_copies.specs.contracts.equality.algorithms.AlgorithmIdentifierEquality.TheImpl.Laws.{is_equality-law as algorithm_identifier};
ghost use Rattle.equality_and_copies.specs.contracts.equality.data_types.ChecksumEquality.TheImpl.Laws.{is_equality-law as checksum};
ghost use Rattle.equality_and_copies.specs.contracts.equality.data_types.PrincipalNameEquality.TheImpl.Laws.{is_equality-law as principal_name};
ghost use Rattle.equality_and_copies.specs.contracts.equality.leaves.BitStringAsn1Equality.TheImpl.Laws.{is_equality-law as bits};
ghost use Rattle.equality_and_copies.specs.contracts.equality.leaves.GeneralizedTimeAsn1Equality.TheImpl.Laws.{is_equality-law as time};
ghost use Rattle.equality_and_copies.specs.contracts.equality.leaves.ObjectIdentifierAsn1Equality.TheImpl.Laws.{is_equality-law as oid};
ghost use Rattle.pkinit_messages.specs.contracts.pk_authenticator.PkAuthenticator.{the_type as pk_authenticator_type};
ghost use Rattle.pkinit_messages.specs.contracts.validation_params.ValidationParams.{the_type as validation_params_type};
ghost use Rattle.pkinit_messages.specs.contracts.dh_domain_parameters.DhDomainParameters.{the_type as dh_domain_parameters_type};
ghost use Rattle.pkinit_messages.specs.contracts.dh_rep_info.DhRepInfo.{the_type as dh_rep_info_type};
ghost use Rattle.pkinit_messages.specs.contracts.dh_req_key_info.DhReqKeyInfo.{the_type as dh_req_key_info_type};
ghost use Rattle.pkinit_messages.specs.contracts.dh_req_info.DhReqInfo.{the_type as dh_req_info_type};
ghost use Rattle.pkinit_messages.specs.contracts.external_principal_identifier.ExternalPrincipalIdentifier.{the_type as external_principal_identifier_type};
ghost use Rattle.pkinit_messages.specs.contracts.kdc_dh_key_info.KdcDhKeyInfo.{the_type as kdc_dh_key_info_type};
ghost use Rattle.pkinit_messages.specs.contracts.krb_finished.KrbFinished.{the_type as krb_finished_type};
ghost use Rattle.pkinit_messages.specs.contracts.pa_pk_as_rep.PaPkAsRep.{«enum» as pa_pk_as_rep_enum};
ghost use Rattle.pkinit_messages.specs.contracts.pa_pk_as_req.PaPkAsReq.{the_type as pa_pk_as_req_type};
ghost use Rattle.pkinit_messages.specs.contracts.pku2u_nego_body.Pku2uNegoBody.{the_type as pku2u_nego_body_type};
ghost use Rattle.pkinit_messages.specs.contracts.pku2u_nego_req_metadata.Pku2uNegoReqMetadata.{the_type as pku2u_nego_req_metadata_type};
ghost use Rattle.pkinit_messages.specs.contracts.pku2u_nego_rep.Pku2uNegoRep.{the_type as pku2u_nego_rep_type};
ghost use Rattle.pkinit_messages.specs.contracts.pku2u_nego_req.Pku2uNegoReq.{the_type as pku2u_nego_req_type};

use crate::equality::Equality;
use pkinit_messages::{
    AuthPack, ClientPublicValue, DhDomainParameters, DhRepInfo, DhReqInfo, DhReqKeyInfo,
    ExternalPrincipalIdentifier, KdcDhKeyInfo, KrbFinished, PaPkAsRep, PaPkAsReq, PkAuthenticator,
    Pku2uNegoBody, Pku2uNegoRep, Pku2uNegoReq, Pku2uNegoReqMetadata, ValidationParams,
};

impl Equality for PkAuthenticator {
    ghost is_equality = { fields pk_authenticator_type
        (both (explicit_tag signed_Decides) (both (explicit_tag time) (both (explicit_tag signed_Decides)
        (last (optional_tag bytes_decides))))) };
}

impl<V: ClientPublicValue + Equality> Equality for AuthPack<V> {
    ghost use Rattle.equality_and_copies.specs.contracts.equality.pkinit.PkAuthenticatorEquality.TheImpl.Laws.{is_equality-law as pk_authenticator};

    ghost is_equality = { told_by
        (λ v. (v.pk_authenticator, (v.client_public_value, (v.supported_cms_types, v.client_dh_nonce))))
        (both (explicit_tag pk_authenticator) (both (optional_tag V.is_equality)
        (both (optional_tag (pointwise_decides algorithm_identifier)) (optional_tag bytes_decides))))
        (λ v w e i. record {
          pk_authenticator = (e i).0;
          client_public_value = (e i).1.0;
          supported_cms_types = (e i).1.1.0;
          client_dh_nonce = (e i).1.1.1;
        }) };
}

impl Equality for ValidationParams {
    ghost is_equality = { fields validation_params_type (both bits (last signed_Decides)) };
}

impl Equality for DhDomainParameters {
    ghost use Rattle.equality_and_copies.specs.contracts.equality.pkinit.ValidationParamsEquality.TheImpl.Laws.{is_equality-law as validation_params};

    ghost is_equality = { fields dh_domain_parameters_type
        (both signed_Decides (both signed_Decides (both signed_Decides (both (optional (options signed_Decides))
        (last (optional (options validation_params))))))) };
}

impl Equality for DhRepInfo {
    ghost is_equality = { fields dh_rep_info_type (both (implicit_tag bytes_decides) (last (optional_tag bytes_decides))) };
}

impl Equality for DhReqKeyInfo {
    ghost use Rattle.equality_and_copies.specs.contracts.equality.pkinit.DhDomainParametersEquality.TheImpl.Laws.{is_equality-law as dh_domain_parameters};

    ghost is_equality = { fields dh_req_key_info_type (both oid (last dh_domain_parameters)) };
}

impl Equality for DhReqInfo {
    ghost use Rattle.equality_and_copies.specs.contracts.equality.pkinit.DhReqKeyInfoEquality.TheImpl.Laws.{is_equality-law as dh_req_key_info};

    ghost is_equality = { fields dh_req_info_type (both dh_req_key_info (last bits)) };
}

impl Equality for ExternalPrincipalIdentifier {
    ghost is_equality = { fields external_principal_identifier_type
        (both (optional (options (implicit_tag bytes_decides))) (both (optional (options (implicit_tag bytes_decides)))
        (last (optional (options (implicit_tag bytes_decides)))))) };
}

impl Equality for KdcDhKeyInfo {
    ghost is_equality = { fields kdc_dh_key_info_type (both (explicit_tag bits) (both (explicit_tag signed_Decides) (last (optional_tag time)))) };
}

impl Equality for KrbFinished {
    ghost is_equality = { fields krb_finished_type (last (explicit_tag checksum)) };
}

impl Equality for PaPkAsRep {
    ghost use Rattle.equality_and_copies.specs.contracts.equality.pkinit.DhRepInfoEquality.TheImpl.Laws.{is_equality-law as dh_rep_info};

    ghost is_equality = { variants pa_pk_as_rep_enum (or_field (explicit_tag dh_rep_info) (or_field (implicit_tag bytes_decides) tt)) };
}

impl Equality for PaPkAsReq {
    ghost use Rattle.equality_and_copies.specs.contracts.equality.pkinit.ExternalPrincipalIdentifierEquality.TheImpl.Laws.{is_equality-law as external_principal_identifier};

    ghost is_equality = { fields pa_pk_as_req_type
        (both (implicit_tag bytes_decides) (both (optional_tag (pointwise_decides external_principal_identifier))
        (last (optional (options (implicit_tag bytes_decides)))))) };
}

impl Equality for Pku2uNegoBody {
    ghost is_equality = { fields pku2u_nego_body_type (both (explicit_tag bytes_decides) (last (explicit_tag principal_name))) };
}

impl Equality for Pku2uNegoReqMetadata {
    ghost is_equality = { fields pku2u_nego_req_metadata_type (last (implicit_tag bytes_decides)) };
}

impl Equality for Pku2uNegoRep {
    ghost use Rattle.equality_and_copies.specs.contracts.equality.pkinit.Pku2uNegoReqMetadataEquality.TheImpl.Laws.{is_equality-law as pku2u_nego_req_metadata};

    ghost is_equality = { fields pku2u_nego_rep_type (last (explicit_tag (pointwise_decides pku2u_nego_req_metadata))) };
}

impl Equality for Pku2uNegoReq {
    ghost use Rattle.equality_and_copies.specs.contracts.equality.pkinit.Pku2uNegoBodyEquality.TheImpl.Laws.{is_equality-law as pku2u_nego_body};
    ghost use Rattle.equality_and_copies.specs.contracts.equality.pkinit.Pku2uNegoReqMetadataEquality.TheImpl.Laws.{is_equality-law as pku2u_nego_req_metadata};

    ghost is_equality = { fields pku2u_nego_req_type (both (explicit_tag (pointwise_decides pku2u_nego_req_metadata)) (last (explicit_tag pku2u_nego_body))) };
}
