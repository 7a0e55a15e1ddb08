//! The suites that a client takes.
ghost use Rattle.std.specs.Prelude.{◌≡◌};
ghost use Rattle.krb_client_exchanges.specs.Suites.{is_one_of, suites_of};

use krb_crypto::CipherSuite;

/// The suites that a client takes if its user names none: those of AES, in the order in which a request lists them. Triple DES isn't among
/// them, since it makes a key of a password without rounds (RFC 3961, section 6.3.1), and is deprecated (RFC 8429).
pub const USUAL_SUITES: [CipherSuite; 4] = [
    CipherSuite::Aes256CtsHmacSha196,
    CipherSuite::Aes128CtsHmacSha196,
    CipherSuite::Aes256CtsHmacSha384192,
    CipherSuite::Aes128CtsHmacSha256128,
];

/// The suites that a client takes, and the salts that it takes with them.
///
/// No error of a KDC is authenticated: whoever is on the network can name any of the suites, and any salt. So another salt than the
/// default one counts only in a suite that the user named.
#[derive(Clone, Copy, Debug)]
pub enum Wanted<'a> {
    /// Those of `USUAL_SUITES`, with the default salt alone: the user named none.
    Usual,
    /// Those that the user named, with any salt. A request lists them in this order.
    Chosen(&'a [CipherSuite]),
}

impl<'a> Wanted<'a> {
    /// The suites, in the order in which a request lists them.
    pub fn suites(self) -> &'a [CipherSuite]
        ensures { result.now ≡ suites_of self.entry }
    {
        match self {
            Wanted::Usual => &USUAL_SUITES,
            Wanted::Chosen(suites) => suites,
        }
    }
}

/// Whether the suite is one of these.
pub fn is_one_of(suites: &[CipherSuite], suite: CipherSuite) -> bool
    ensures { result ≡ is_one_of suites.now suite }
{
    suites.iter().any(|own| u8::from(own) == u8::from(suite))
}
