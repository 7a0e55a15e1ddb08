//! The object identifiers of keys, each of which denotes a kind.
ghost use Rattle.std.specs.Prelude.{◌≡◌};
ghost use Rattle.x509_keys.specs.KeyIdentifiers.{is_rsa, is_elliptic, is_named_curve, is_mldsa};

use x509_spelling::Identifiers;

/// The identifier of RSA keys (RFC 3279, section 2.3.1).
pub struct RsaIdentifiers;

/// The identifier of keys on an elliptic curve, which is their parameter (RFC 5480, section 2.1.1).
pub struct EcIdentifiers;

/// The identifiers of keys on the curves of RFC 8410, section 3.
pub struct EdIdentifiers;

/// The identifiers of keys of ML-DSA (RFC 9881, section 2).
pub struct MldsaIdentifiers;

impl Identifiers for RsaIdentifiers {
    ghost are_told = { is_rsa };

    fn tell(content: &[u8]) -> bool {
        content == [0x2A, 0x86, 0x48, 0x86, 0xF7, 0x0D, 1, 1, 1].as_slice()
    }
}

impl Identifiers for EcIdentifiers {
    ghost are_told = { is_elliptic };

    fn tell(content: &[u8]) -> bool {
        content == [0x2A, 0x86, 0x48, 0xCE, 0x3D, 2, 1].as_slice()
    }
}

impl Identifiers for EdIdentifiers {
    ghost are_told = { is_named_curve };

    fn tell(content: &[u8]) -> bool {
        content == [0x2B, 0x65, 110].as_slice()
            || content == [0x2B, 0x65, 111].as_slice()
            || content == [0x2B, 0x65, 112].as_slice()
            || content == [0x2B, 0x65, 113].as_slice()
    }
}

impl Identifiers for MldsaIdentifiers {
    ghost are_told = { is_mldsa };

    fn tell(content: &[u8]) -> bool {
        content == [0x60, 0x86, 0x48, 1, 0x65, 3, 4, 3, 17].as_slice()
            || content == [0x60, 0x86, 0x48, 1, 0x65, 3, 4, 3, 18].as_slice()
            || content == [0x60, 0x86, 0x48, 1, 0x65, 3, 4, 3, 19].as_slice()
    }
}
