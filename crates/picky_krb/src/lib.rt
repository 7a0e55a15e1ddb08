//! The front of the Kerberos crates: what is in the crates below, under the paths of the ported `picky-krb`.
//!
//! Nothing is made here. A program that wants one crate and these paths stands on it; what is built inside this
//! repository stands on the crates below, each on what it needs.
//!
//! Two calls are named `from_bytes`, and one writes:
//!
//! | Call | Reads or writes | Octets after the value |
//! |---|---|---|
//! | `picky_krb::from_bytes` | the message that is the whole input | are refused |
//! | `picky_asn1_der::from_bytes` | the value whose encoding begins the input | stay unread |
//! | `picky_asn1_der::to_vec` | writes any of these types but tokens, PACs and NEGOEX, which have calls of their own | |
//!
//! This crate has no contract of its own. Each item is one of a crate below, with its contract there.
#![tactic(auto)]

pub use krb_messages::from_bytes;
pub use krb_tickets::{OpenFault, open_part, open_whole};
pub use picky_asn1_der::read_whole;

/// Numbers of the standards.
pub mod constants {
    pub use krb_constants::{
        cksum_types, cred_ssp, error_codes, etypes, gss_api, key_usages, krb_priv, types,
    };
}

/// Credentials that CredSSP delegates (MS-CSSP).
pub mod credssp {
    pub use microsoft_messages::{
        TsCredentials, TsCspDataDetail, TsPasswordCreds, TsRemoteGuardCreds,
        TsRemoteGuardPackageCred, TsSmartCardCreds,
    };
}

/// The suites: keys, sealing, checksums (RFC 3961, RFC 3962); `des` is that of triple DES.
pub mod crypto {
    pub use krb_crypto::{
        Checksum, ChecksumSuite, Cipher, CipherSuite, DecryptWithoutChecksum,
        EncryptWithoutChecksum, KERBEROS, KerberosCryptoError, KerberosCryptoResult, Key, aes,
        aes_sha2, des, hmac_sha1, n_fold, usage_kc, usage_ke, usage_ki,
    };

    /// Keys that a Diffie-Hellman exchange agrees on (RFC 4556, section 3.2.3.1).
    pub mod diffie_hellman {
        pub use krb_crypto::diffie_hellman::{
            DhNonce, DiffieHellmanError, DiffieHellmanResult, generate_key_from_shared_secret,
        };
    }
}

/// What messages hold, and the record of a process's integrity level.
pub mod data_types {
    pub use gss_contexts::{
        LsapTokenInfoIntegrity, LsapTokenInfoIntegrityError, MACHINE_ID_LENGTH,
    };
    pub use krb_messages::data_types::{
        ApOptions, Authenticator, AuthenticatorInner, AuthorizationData, AuthorizationDataInner,
        Checksum, EncApRepPart, EncApRepPartInner, EncTicketPart, EncTicketPartInner,
        EncryptedData, EncryptionKey, EtypeInfo2, EtypeInfo2Entry, HostAddress, HostAddresses,
        KerberosFlags, KerberosStringAsn1, KerberosTime, LastReq, LastReqInner, Microseconds,
        PaData, PaEncTimestamp, PaEncTsEnc, PrincipalName, Realm, Ticket, TicketInner,
        TransitedEncoding,
    };
    pub use krb_messages::{
        EncKrbCredPart, EncKrbCredPartInner, KrbCredInfo, KrbResult, ResultExt,
    };
    pub use microsoft_messages::{
        ChangePasswdData, EncKrbPrivPart, EncKrbPrivPartInner, KerbAdRestrictionEntry,
        KerbErrorData, KerbPaPacRequest, PaPacOptions,
    };
}

/// Tokens of the GSS-API mechanism (RFC 4121), and those by which a mechanism is negotiated (RFC 4178).
pub mod gss_api {
    pub use gss_contexts::{
        ApplicationTag0, GssApiMessageError, GssApiNegInit, IAKerbProxyMessage, KrbMessage,
        MechType, MechTypeList, MicToken, NegTokenInit, NegTokenTarg, NegTokenTarg1, TokenSequence,
        WrapToken,
    };
}

/// Messages (RFC 4120, section 5), and the exchange that changes a password (RFC 3244).
pub mod messages {
    pub use gss_contexts::{IAKerbCookie, IAKerbHeader};
    pub use krb_messages::messages::{
        ApRep, ApRepInner, ApReq, ApReqInner, AsRep, AsReq, EncAsRepPart, EncKdcRepPart,
        EncTgsRepPart, KdcRep, KdcReq, KdcReqBody, KrbError, KrbErrorInner, TgsRep, TgsReq,
    };
    pub use krb_messages::{KrbCred, KrbCredInner};
    pub use microsoft_messages::{
        ApMessage, KdcProxyMessage, KrbPriv, KrbPrivFrame, KrbPrivFrameError, KrbPrivInner,
        KrbPrivMessage, TgtRep, TgtReq,
    };
}

/// Messages of NEGOEX (MS-NEGOEX).
pub mod negoex {
    pub use negoex_messages::{
        CHECKSUM_SCHEME_RFC3961, Laid, NEGOEXTS_MESSAGE_SIGNATURE, NegoexDataType, NegoexError,
        NegoexMessage, PROTOCOL_VERSION, RANDOM_ARRAY_SIZE, Wide, written_is_read,
    };

    /// What messages hold (MS-NEGOEX, section 2.2.5).
    pub mod data_types {
        pub use negoex_messages::{
            AuthScheme, AuthSchemeVector, ByteVector, Checksum, ConversationId, Extension,
            ExtensionVector, Guid, MessageHeader, MessageType,
        };
    }

    /// Its messages (MS-NEGOEX, section 2.2.6).
    pub mod messages {
        pub use negoex_messages::{Exchange, Nego, Verify};
    }
}

/// PACs (MS-PAC).
pub mod pac {
    pub use microsoft_messages::pac::written_is_read;
    pub use microsoft_messages::{Pac, PacBuffer, PacBufferType, PacError, PacInfoBuffer};
}

/// Preauthentication by certificate (RFC 4556), and PKU2U, which negotiates on certificates between peers.
pub mod pkinit {
    pub use pkinit_messages::{
        AuthPack, ClientPublicValue, DhAuthPack, DhDomainParameters, DhNonce, DhRepInfo, DhReqInfo,
        DhReqKeyInfo, EcAuthPack, ExternalPrincipalIdentifier, KdcDhKeyInfo, KrbFinished,
        PaPkAsRep, PaPkAsReq, PkAuthenticator, Pku2uNegoBody, Pku2uNegoRep, Pku2uNegoReq,
        Pku2uNegoReqMetadata, ValidationParams,
    };
}
