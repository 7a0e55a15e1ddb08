//! What a file says of its realm.
use krb_realm_accounts::Settings;
use picky_asn1::wrapper::{GeneralStringAsn1, OctetStringAsn1};

/// A realm's name, its settings, and what it answers logins by certificate by. A file has them beside the accounts.
#[derive(Drop)]
pub struct RealmParameters {
    /// The realm's name.
    pub name: GeneralStringAsn1,
    /// Its clock skew and the greatest lifetime of a ticket.
    pub settings: Settings,
    /// What logins by certificate are answered by, if there are any: DER of the KDC's certificate, of its private key and of the anchor.
    /// They are not judged here. They have from 1 to [`PKINIT_ROOM`](crate::PKINIT_ROOM) octets.
    pub pkinit: Option<OctetStringAsn1>,
}
