//! The entries of ETYPE-INFO2.
ghost use Rattle.std.specs.Prelude.{◌≡◌};
ghost use Rattle.std.specs.Option.{option_copied};
ghost use Rattle.krb_client_exchanges.specs.Hints.{first_entry, suite_among};

use krb_crypto::CipherSuite;
use krb_messages::data_types::EtypeInfo2Entry;
use krb_messages::is_number;
use picky_asn1::wrapper::IntegerAsn1;

/// The first entry whose etype is one of the suites.
#[tactic(auto, unfolding(crate::specs::Hints::first_entry))]
pub(crate) fn first_entry<'a>(
    suites: &[CipherSuite],
    entries: &'a [EtypeInfo2Entry],
) -> Option<&'a EtypeInfo2Entry>
    ensures { option_copied result ≡ first_entry suites.now entries.now }
{
    entries
        .iter()
        .find(|entry| suite_among(suites, &entry.etype.0).is_some())
}

/// The suite among these that has the number.
#[tactic(auto, unfolding(crate::specs::Hints::suite_among))]
pub(crate) fn suite_among(suites: &[CipherSuite], number: &IntegerAsn1) -> Option<CipherSuite>
    ensures { result ≡ suite_among suites.now number.now }
{
    suites
        .iter()
        .copied()
        .find(|suite| is_number(number, u32::from(suite)))
}
