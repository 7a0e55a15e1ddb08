//! The constants that the keys of a usage are derived from (RFC 3961, section 5.3). A usage's number has four bytes, a
//! negative one those of its two's complement.

ghost use Rattle.std.specs.Prelude.{◌≡◌, [], ◌∷◌, ◌++◌};
ghost use Rattle.std.specs.Int.{cast_unsigned, to_be_bytes, w32};
ghost use Rattle.encryption_profiles.specs.Derivation.{usage_constant};

/// The constant of Ke, which encrypts.
#[tactic(auto, unfolding(crate::specs::Derivation::usage_constant))]
pub fn usage_ke(usage: i32) -> [u8; 5]
    ensures { result ≡ usage_constant (cast_unsigned w32 usage) 0xAA }
{
    with_kind(usage, 0xAA)
}

/// The constant of Kc, the key of a checksum alone.
#[tactic(auto, unfolding(crate::specs::Derivation::usage_constant))]
pub fn usage_kc(usage: i32) -> [u8; 5]
    ensures { result ≡ usage_constant (cast_unsigned w32 usage) 0x99 }
{
    with_kind(usage, 0x99)
}

/// The constant of Ki, the key of an encryption's checksum.
#[tactic(auto, unfolding(crate::specs::Derivation::usage_constant))]
pub fn usage_ki(usage: i32) -> [u8; 5]
    ensures { result ≡ usage_constant (cast_unsigned w32 usage) 0x55 }
{
    with_kind(usage, 0x55)
}

/// The constant of the kind of key that the byte `kind` names.
fn with_kind(usage: i32, kind: u8) -> [u8; 5]
    ensures { result ≡ to_be_bytes w32 (cast_unsigned w32 usage) ++ kind ∷ [] }
{
    let [first, second, third, fourth] = usage.cast_unsigned().to_be_bytes();
    [first, second, third, fourth, kind]
}
