//! How clients authenticate themselves.
ghost use Rattle.std.specs.Prelude.{◌≡◌};

use krb_client::{AsAsked, AskRefusal, ByKey, Client, Means, TakeRefusal};
use krb_crypto::Key;
use krb_messages::data_types::PaData;
use krb_messages::messages::{KdcRep, KdcReqBody};
use krb_time::Moment;
use pkinit_clients::ByCertificate;
use pkinit_validation::Anchor;
use std::alloc::Global;
use x509_keys::KeyFunctions;

/// What a client authenticates itself by.
#[derive(Drop)]
pub(crate) enum Held {
    /// A key that it shares with its realm.
    Key(ByKey),
    /// A certificate, and the authority that it trusts to issue the realm's.
    Certificate(Vec<u8>, Anchor),
}

/// What a client authenticates itself by, with its key functions.
#[derive(Clone, Copy)]
pub(crate) struct ClientMeans<'a, K: KeyFunctions> {
    pub held: &'a Held,
    pub keys: &'a K,
}

impl<'a, K: KeyFunctions> Means for ClientMeans<'a, K> {
    ghost use Rattle.krb_realm.specs.Clients.{means_by};
    ghost use Rattle.krb_realm.specs.HeldClients.{client_by};

    ghost means = { λ own. means_by (client_by own.held.now) (K.functions own.keys.now) };

    fn padata(
        &self,
        alloc: Global,
        body: &KdcReqBody,
        moment: Moment,
        words: &[u8],
    ) -> Result<PaData, AskRefusal> {
        match self.held {
            Held::Key(own) => own.padata(alloc, body, moment, words),
            Held::Certificate(certificate, anchor) => {
                let own = by_certificate(certificate, anchor, self.keys);
                own.padata(alloc, body, moment, words)
            }
        }
    }

    fn reply_key(
        &self,
        alloc: Global,
        client: &Client,
        asked: &AsAsked,
        reply: &KdcRep,
    ) -> Result<Key, TakeRefusal> {
        match self.held {
            Held::Key(own) => own.reply_key(alloc, client, asked, reply),
            Held::Certificate(certificate, anchor) => {
                let own = by_certificate(certificate, anchor, self.keys);
                own.reply_key(alloc, client, asked, reply)
            }
        }
    }
}

/// Makes the means of a client that has a certificate.
pub(crate) fn by_certificate<'a, K: KeyFunctions>(
    certificate: &'a Vec<u8>,
    anchor: &'a Anchor,
    keys: &'a K,
) -> ByCertificate<'a, K>
    ensures certificate { result.certificate.now ≡ certificate.now.items }
    ensures anchor { result.anchor.now ≡ anchor.now }
    ensures keys { result.keys.now ≡ keys.now }
{
    ByCertificate {
        certificate: certificate.as_slice(),
        anchor,
        keys,
    }
}
