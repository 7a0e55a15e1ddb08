//! Credentials that CredSSP delegates (MS-CSSP).
ghost use Rattle.std.specs.Cmp.{signed_Decides};
ghost use Rattle.std.specs.Cmp.Lexicographic.{bytes_decides, pointwise_decides};
ghost use Rattle.equality_and_copies.specs.Equalities.{fields, both, last};
ghost use Rattle.equality_and_copies.specs.WrappedEquality.{optional_tag, explicit_tag};
ghost use Rattle.microsoft_messages.specs.contracts.ts_credentials.TsCredentials.{the_type as ts_credentials_type};
ghost use Rattle.microsoft_messages.specs.contracts.ts_csp_data_detail.TsCspDataDetail.{the_type as ts_csp_data_detail_type};
ghost use Rattle.microsoft_messages.specs.contracts.ts_password_creds.TsPasswordCreds.{the_type as ts_password_creds_type};
ghost use Rattle.microsoft_messages.specs.contracts.ts_remote_guard_package_cred.TsRemoteGuardPackageCred.{the_type as ts_remote_guard_package_cred_type};
ghost use Rattle.microsoft_messages.specs.contracts.ts_remote_guard_creds.TsRemoteGuardCreds.{the_type as ts_remote_guard_creds_type};
ghost use Rattle.microsoft_messages.specs.contracts.ts_smart_card_creds.TsSmartCardCreds.{the_type as ts_smart_card_creds_type};

use crate::equality::Equality;
use microsoft_messages::{
    TsCredentials, TsCspDataDetail, TsPasswordCreds, TsRemoteGuardCreds, TsRemoteGuardPackageCred,
    TsSmartCardCreds,
};

impl Equality for TsCredentials {
    ghost is_equality = { fields ts_credentials_type (both (explicit_tag signed_Decides) (last (explicit_tag bytes_decides))) };
}

impl Equality for TsCspDataDetail {
    ghost is_equality = { fields ts_csp_data_detail_type
        (both (explicit_tag signed_Decides) (both (optional_tag bytes_decides) (both (optional_tag bytes_decides)
        (both (optional_tag bytes_decides) (last (optional_tag bytes_decides)))))) };
}

impl Equality for TsPasswordCreds {
    ghost is_equality = { fields ts_password_creds_type
        (both (explicit_tag bytes_decides) (both (explicit_tag bytes_decides) (last (explicit_tag bytes_decides)))) };
}

impl Equality for TsRemoteGuardPackageCred {
    ghost is_equality = { fields ts_remote_guard_package_cred_type (both (explicit_tag bytes_decides) (last (explicit_tag bytes_decides))) };
}

impl Equality for TsRemoteGuardCreds {
    ghost use Rattle.equality_and_copies.specs.contracts.equality.delegated.TsRemoteGuardPackageCredEquality.TheImpl.Laws.{is_equality-law as ts_remote_guard_package_cred};

    ghost is_equality = { fields ts_remote_guard_creds_type
        (both (explicit_tag ts_remote_guard_package_cred)
        (last (optional_tag (pointwise_decides ts_remote_guard_package_cred)))) };
}

impl Equality for TsSmartCardCreds {
    ghost use Rattle.equality_and_copies.specs.contracts.equality.delegated.TsCspDataDetailEquality.TheImpl.Laws.{is_equality-law as ts_csp_data_detail};

    ghost is_equality = { fields ts_smart_card_creds_type
        (both (explicit_tag bytes_decides) (both (explicit_tag ts_csp_data_detail) (both (optional_tag bytes_decides)
        (last (optional_tag bytes_decides))))) };
}
