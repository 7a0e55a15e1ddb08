//! The name of a service.

use krb_commands::{Stop, principal_in, usage};
use krb_file_formats::CachePrincipal;
use krb_messages::{PrincipalText, is_same_name, is_same_realm};
use krb_realm_accounts::{RealmRefusal, components_of, realm_name_of};
use picky_asn1::wrapper::GeneralStringAsn1;
use std::alloc::Global;

/// A service's name, with the argument that says it, and its realm where that is said.
#[derive(Drop)]
pub(crate) struct ServiceName<'a> {
    pub(crate) argument: &'a str,
    components: Vec<GeneralStringAsn1>,
    realm: Option<GeneralStringAsn1>,
}

/// The service that an argument names: a principal, or `host@server.example.com`, which is `host/server.example.com` in any realm (RFC
/// 1964, section 2.1.2).
pub(crate) fn service_name_of<'a>(
    alloc: Global,
    argument: &'a str,
) -> Result<ServiceName<'a>, Stop> {
    let PrincipalText {
        mut components,
        mut realm,
    } = principal_in(alloc, argument)?;
    if components.len() == 1 {
        if let Some(host) = realm.take() {
            components.push(host)?;
        }
    }
    match named(alloc, argument, &components, realm) {
        Ok(service) => Ok(service),
        Err(RealmRefusal::Memory) => Err(Stop::Memory),
        Err(_) => Err(usage(
            alloc,
            format_args!(
                "{argument}: expected a service, as host@server.example.com or host/server.example.com@EXAMPLE.COM"
            ),
        )),
    }
}

fn named<'a>(
    alloc: Global,
    argument: &'a str,
    components: &[Vec<u8>],
    realm: Option<Vec<u8>>,
) -> Result<ServiceName<'a>, RealmRefusal> {
    let components = components_of(alloc, components)?;
    let realm = match realm {
        Some(realm) => Some(realm_name_of(alloc, &realm)?),
        None => None,
    };
    Ok(ServiceName {
        argument,
        components,
        realm,
    })
}

impl ServiceName<'_> {
    /// Whether a principal is the service.
    pub(crate) fn is_of(&self, principal: &CachePrincipal) -> bool {
        let has_realm = match &self.realm {
            Some(realm) => is_same_realm(realm, &principal.realm),
            None => true,
        };
        has_realm && is_same_name(&self.components, &principal.components)
    }
}
