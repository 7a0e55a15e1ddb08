//! What is tested of names, passwords and keys: each test beside what is warned of where it holds.
ghost use Rattle.std.specs.Prelude.{◌≡◌, ◌<◌, nat_eq, length, map, IfSome};
ghost use Rattle.std.specs.Cmp.Lexicographic.{pointwise};
ghost use Rattle.std.specs.List.{list_all, list_any, position_from};
ghost use Rattle.krb_settings.specs.Written.{shown_account, shown_secret};
ghost use Rattle.krb_settings.specs.Warnings.{ends_in_break, has_blank_end, has_many_rounds, holder_case, is_control, is_des3, is_lower, is_repeated, is_secret, key_cases, name_cases, password_cases, realm_cases, shared_cases};

use crate::des3::{has_odd_parity, has_weak_part};
use crate::warning::Warning;
use crate::{AccountSettings, Secret};
use krb_crypto::CipherSuite;

/// How many octets a password is to have.
const PASSWORD_LEAST: usize = 12;

/// The password of `examples/settings.toml`.
pub(crate) const EXAMPLE_PASSWORD: &str = "correct horse battery staple";

/// The keys of `examples/settings.toml`.
#[rattlefmt::skip]
pub(crate) const EXAMPLE_KEYS: [[u8; 32]; 3] = [
    [
        0x1b, 0x2f, 0x3a, 0x64, 0xc0, 0xd9, 0x5e, 0x88, 0x77, 0xa1, 0xc3, 0xe2, 0xf4, 0xb6, 0xd8, 0x09,
        0x1a, 0x2b, 0x3c, 0x4d, 0x5e, 0x6f, 0x70, 0x81, 0x92, 0xa3, 0xb4, 0xc5, 0xd6, 0xe7, 0xf8, 0x09,
    ],
    [
        0x9f, 0x3c, 0x5b, 0xe1, 0xa7, 0xd2, 0x40, 0x68, 0xb1, 0xc9, 0x2e, 0x5f, 0x7a, 0x80, 0xd3, 0x41,
        0x6c, 0x8e, 0x0f, 0x2b, 0x4d, 0x6a, 0x8c, 0x1e, 0x3f, 0x50, 0x71, 0x92, 0xb4, 0xd6, 0xf8, 0xa0,
    ],
    [
        0x5d, 0x0e, 0x7c, 0x1f, 0x83, 0xa9, 0x4b, 0x26, 0xe7, 0xf0, 0xc5, 0xd1, 0xa8, 0xb3, 0x92, 0x4e,
        0x6f, 0x17, 0xc8, 0xd0, 0x5b, 0x2a, 0x93, 0xe4, 0xf6, 0xd7, 0xc8, 0xb9, 0xa0, 0xe1, 0xf2, 0x03,
    ],
];

/// The tests of a realm's name.
pub(crate) fn realm_cases(name: &[u8]) -> [(bool, Warning); 4]
    ensures { result ≡ realm_cases name.now }
{
    [
        (has_control(name), Warning::RealmControl),
        (name.contains(&b'@'), Warning::RealmAt),
        (name.contains(&b' '), Warning::RealmBlank),
        (has_lower(name), Warning::RealmLower),
    ]
}

/// The tests of a principal's name.
pub(crate) fn name_cases(name: &[Vec<u8>]) -> [(bool, Warning); 4]
    ensures { result ≡ name_cases (map (λ part. part.items) name.now) }
{
    [
        (has_octet(name, b'/'), Warning::NameSlash),
        (has_octet(name, b'@'), Warning::NameAt),
        (has_control_part(name), Warning::NameControl),
        (has_blank_part(name), Warning::NameBlank),
    ]
}

fn has_octet(name: &[Vec<u8>], octet: u8) -> bool
    ensures { result ≡ list_any (λ part. list_any (λ other. nat_eq other octet) part.items) name.now }
{
    name.iter().any(|part| part.contains(&octet))
}

fn has_control_part(name: &[Vec<u8>]) -> bool
    ensures { result ≡ list_any (λ part. list_any is_control part.items) name.now }
{
    name.iter().any(|part| has_control(part))
}

fn has_blank_part(name: &[Vec<u8>]) -> bool
    ensures { result ≡ list_any (λ part. has_blank_end part.items) name.now }
{
    name.iter().any(|part| has_blank_end(part))
}

/// The tests of a password.
pub(crate) fn password_cases(suite: CipherSuite, text: &[u8]) -> [(bool, Warning); 5]
    ensures { result ≡ password_cases suite text.now }
{
    let count = text.len();
    [
        (count == 0, Warning::PasswordEmpty),
        (0 < count && count < PASSWORD_LEAST, Warning::PasswordShort),
        (ends_in_break(text), Warning::PasswordBreak),
        (
            text == EXAMPLE_PASSWORD.as_bytes(),
            Warning::PasswordExample,
        ),
        (has_many_rounds(suite), Warning::PasswordRounds),
    ]
}

/// The tests of a key.
pub(crate) fn key_cases(suite: CipherSuite, octets: &[u8]) -> [(bool, Warning); 4]
    ensures { result ≡ key_cases suite octets.now }
{
    let is_des3 = is_des3(suite);
    let is_odd = has_odd_parity(octets);
    [
        (is_example(octets), Warning::KeyExample),
        (is_repeated(octets), Warning::KeyRepeated),
        (is_des3 && !is_odd, Warning::KeyParity),
        (
            is_des3 && (is_odd && has_weak_part(octets)),
            Warning::KeyWeak,
        ),
    ]
}

/// The tests of an account's key beside the realm's and those of the accounts before it.
#[tactic(auto, using(crate::proofs::Mapped::position_shown))]
pub(crate) fn shared_cases(
    realm_key: &[u8],
    earlier: &[AccountSettings],
    octets: &[u8],
) -> [(bool, Warning); 2]
    ensures { result ≡ shared_cases realm_key.now (map shown_account earlier.now) octets.now }
{
    [
        (octets == realm_key, Warning::KeyOfRealm),
        holder_case(earlier, octets),
    ]
}

fn holder_case(earlier: &[AccountSettings], octets: &[u8]) -> (bool, Warning)
    ensures { result ≡ holder_case (position_from (λ account. is_secret octets.now (shown_secret account.secret)) 0 earlier.now) }
{
    match holder_of(earlier, octets) {
        Some(index) => (true, Warning::KeyOfAccount(index + 1)),
        None => (false, Warning::KeyOfAccount(0)),
    }
}

// The first account with this key.
fn holder_of(accounts: &[AccountSettings], octets: &[u8]) -> Option<usize>
    ensures first { result ≡ position_from (λ account. is_secret octets.now (shown_secret account.secret)) 0 accounts.now }
    ensures within { IfSome result (λ index. index < length accounts.now) }
{
    accounts
        .iter()
        .position(|account| is_secret(octets, &account.secret))
}

fn is_secret(octets: &[u8], secret: &Secret) -> bool
    ensures { result ≡ is_secret octets.now (shown_secret secret.now) }
{
    match secret {
        Secret::Password(_) => false,
        Secret::Key(other) => octets == other.as_slice(),
    }
}

fn is_example(octets: &[u8]) -> bool
    ensures { result ≡ list_any (λ example. pointwise nat_eq octets.now example) EXAMPLE_KEYS }
{
    EXAMPLE_KEYS.iter().any(|example| octets == &example[..])
}

fn is_repeated(octets: &[u8]) -> bool
    ensures { result ≡ is_repeated octets.now }
{
    if octets.is_empty() {
        return false;
    }
    are_all(octets, octets[0])
}

fn are_all(octets: &[u8], first: u8) -> bool
    ensures { result ≡ list_all (λ octet. nat_eq octet first) octets.now }
{
    octets.iter().all(|octet| *octet == first)
}

fn has_control(text: &[u8]) -> bool
    ensures { result ≡ list_any is_control text.now }
{
    text.iter()
        .any(|character| *character < 32 || *character == 127)
}

fn has_lower(text: &[u8]) -> bool
    ensures { result ≡ list_any is_lower text.now }
{
    text.iter()
        .any(|character| b'a' <= *character && *character <= b'z')
}

fn has_blank_end(part: &[u8]) -> bool
    ensures { result ≡ has_blank_end part.now }
{
    let [first, ..] = part else {
        return false;
    };
    *first == b' ' || part[part.len() - 1] == b' '
}

fn ends_in_break(text: &[u8]) -> bool
    ensures { result ≡ ends_in_break text.now }
{
    if text.is_empty() {
        return false;
    }
    let last = text[text.len() - 1];
    last == b'\n' || last == b'\r'
}

// A password's key of AES with SHA-2 takes eight times the rounds of AES with SHA-1.
fn has_many_rounds(suite: CipherSuite) -> bool
    ensures { result ≡ has_many_rounds suite }
{
    match suite {
        CipherSuite::Aes128CtsHmacSha256128 | CipherSuite::Aes256CtsHmacSha384192 => true,
        CipherSuite::Aes128CtsHmacSha196
        | CipherSuite::Aes256CtsHmacSha196
        | CipherSuite::Des3CbcSha1Kd => false,
    }
}

fn is_des3(suite: CipherSuite) -> bool
    ensures { result ≡ is_des3 suite }
{
    match suite {
        CipherSuite::Des3CbcSha1Kd => true,
        CipherSuite::Aes128CtsHmacSha196
        | CipherSuite::Aes256CtsHmacSha196
        | CipherSuite::Aes128CtsHmacSha256128
        | CipherSuite::Aes256CtsHmacSha384192 => false,
    }
}
