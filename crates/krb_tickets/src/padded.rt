//! Reads a value whose encoding a suite's padding may follow.
ghost use Rattle.krb_tickets.specs.Padded.{ReadsPadded};

use asn1_codec::{Deserialize, from_reader_with_max_len};
use asn1_der::Asn1DerError;
use krb_crypto::CipherSuite;
use std::alloc::Global;

/// The value whose encoding, as the suite pads it, is the text.
pub(crate) fn read_padded<T: Deserialize + Drop>(
    alloc: Global,
    suite: CipherSuite,
    text: &[u8],
) -> Result<T, Asn1DerError>
    ensures { ReadsPadded T.tree suite text.now result }
{
    let mut rest = text;
    match from_reader_with_max_len(alloc, &mut rest, text.len()) {
        Ok(value) => {
            let (encoding, padding) = text.split_at(text.len() - rest.len());
            if suite.is_padding(encoding, padding) {
                Ok(value)
            } else {
                Err(Asn1DerError::InvalidData)
            }
        }
        Err(fault) => Err(fault),
    }
}
