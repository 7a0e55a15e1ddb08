//! Credentials that CredSSP delegates (MS-CSSP).
ghost use Rattle.equality_and_copies.specs.Copied.{equal, fields, both, last, end, lists};
ghost use Rattle.equality_and_copies.specs.WrappedCopies.{optional_tag, explicit_tag};
ghost use Rattle.microsoft_messages.specs.contracts.ts_credentials.TsCredentials.{the_type as ts_credentials_type};
ghost use Rattle.microsoft_messages.specs.contracts.ts_csp_data_detail.TsCspDataDetail.{the_type as ts_csp_data_detail_type};
ghost use Rattle.microsoft_messages.specs.contracts.ts_password_creds.TsPasswordCreds.{the_type as ts_password_creds_type};
ghost use Rattle.microsoft_messages.specs.contracts.ts_remote_guard_package_cred.TsRemoteGuardPackageCred.{the_type as ts_remote_guard_package_cred_type};
ghost use Rattle.microsoft_messages.specs.contracts.ts_remote_guard_creds.TsRemoteGuardCreds.{the_type as ts_remote_guard_creds_type};
ghost use Rattle.microsoft_messages.specs.contracts.ts_smart_card_creds.TsSmartCardCreds.{the_type as ts_smart_card_creds_type};

use crate::copies::Copies;
use microsoft_messages::{
    TsCredentials, TsCspDataDetail, TsPasswordCreds, TsRemoteGuardCreds, TsRemoteGuardPackageCred,
    TsSmartCardCreds,
};

impl Copies for TsCredentials {
    ghost is_copy = { fields ts_credentials_type (both (explicit_tag equal) (last (explicit_tag equal))) };
}

impl Copies for TsCspDataDetail {
    ghost is_copy = { fields ts_csp_data_detail_type
        (both (explicit_tag equal) (both (optional_tag equal) (both (optional_tag equal) (both (optional_tag equal)
        (both (optional_tag equal) end))))) };
}

impl Copies for TsPasswordCreds {
    ghost is_copy = { fields ts_password_creds_type (both (explicit_tag equal) (both (explicit_tag equal) (last (explicit_tag equal)))) };
}

impl Copies for TsRemoteGuardPackageCred {
    ghost is_copy = { fields ts_remote_guard_package_cred_type (both (explicit_tag equal) (last (explicit_tag equal))) };
}

impl Copies for TsRemoteGuardCreds {
    ghost use Rattle.equality_and_copies.specs.contracts.copies.delegated.TsRemoteGuardPackageCredCopies.TheImpl.Laws.{is_copy-law as ts_remote_guard_package_cred};

    ghost is_copy = { fields ts_remote_guard_creds_type
        (both (explicit_tag ts_remote_guard_package_cred) (last (optional_tag (lists ts_remote_guard_package_cred)))) };
}

impl Copies for TsSmartCardCreds {
    ghost use Rattle.equality_and_copies.specs.contracts.copies.delegated.TsCspDataDetailCopies.TheImpl.Laws.{is_copy-law as ts_csp_data_detail};

    ghost is_copy = { fields ts_smart_card_creds_type
        (both (explicit_tag equal) (both (explicit_tag ts_csp_data_detail) (both (optional_tag equal)
        (both (optional_tag equal) end)))) };
}
