//! Lines of a text of accounts.
ghost use Rattle.std.specs.Prelude.{◌≡◌, IfOk, pos};

use krb_constants::types::NT_PRINCIPAL;
use krb_messages::data_types::PrincipalName;
use krb_realm_accounts::{Account, Settings};
use picky_asn1::wrapper::{Asn1SequenceOf, GeneralStringAsn1, IntegerAsn1, OctetStringAsn1};
use picky_asn1_der::ExplicitContextTag;
use std::alloc::{AllocError, Global};

/// The line of the realm.
#[derive(Drop)]
pub struct RealmLine {
    /// The realm's name.
    pub name: GeneralStringAsn1,
    /// Its clock skew and the greatest lifetime of a ticket.
    pub settings: Settings,
    /// Whether it guards passwords: there is no ticket as a service for an account that is given a key of a password.
    pub guards_passwords: bool,
    /// What logins by certificate are answered by, if there are any: DER of the KDC's certificate, of its private key and of the anchor.
    pub pkinit: Option<OctetStringAsn1>,
}

/// The line of an account.
#[derive(Drop)]
pub struct AccountLine {
    /// The name. Its components count alone.
    pub name: PrincipalName,
    /// The account.
    pub account: Account,
    /// Whether the account is disabled: the text has its line, and the database no record of it.
    pub is_disabled: bool,
}

/// A line of a text of accounts.
#[derive(Drop)]
pub enum Line {
    /// A comment, with the `#` that it begins with.
    Comment(String),
    /// The realm.
    Realm(RealmLine),
    /// An account.
    Account(AccountLine),
}

/// A name of these components, of the type NT-PRINCIPAL (RFC 4120, section 6.2).
pub fn principal_name(
    alloc: Global,
    components: Vec<GeneralStringAsn1>,
) -> Result<PrincipalName, AllocError>
    ensures components { IfOk result (λ name. name.name_string.0 ≡ components.items) }
    ensures kind { IfOk result (λ name. name.name_type.0 ≡ pos NT_PRINCIPAL) }
{
    let name_type = IntegerAsn1::from_u64(alloc, u64::from(NT_PRINCIPAL))?;
    Ok(PrincipalName {
        name_type: ExplicitContextTag(name_type),
        name_string: ExplicitContextTag(Asn1SequenceOf::from(components)),
    })
}
