//! What the environment says where the arguments leave it out: the cache and the realm.

use crate::arguments::named_cache;
use krb_commands::{FileKind, Stop, default_realm_in, failed, octets_of, usage};
use std::env::{self, VarError};
use std::fs;
use std::os::unix::fs::MetadataExt;

/// The variable that names a cache.
const CACHE: &str = "KRB5CCNAME";

/// The variable that names the configuration of Kerberos programs.
const CONFIGURATION: &str = "KRB5_CONFIG";

/// The configuration, if no variable names one.
const USUAL_CONFIGURATION: &str = "/etc/krb5.conf";

/// The path of the cache that stock programs use: that of `KRB5CCNAME`, or else /tmp/krb5cc_UID.
pub(crate) fn default_cache(rt: &HostRuntime) -> Result<String, Stop> {
    match variable(rt, CACHE)? {
        Some(cache) => named_cache(rt.alloc(), CACHE, cache.as_str()),
        None => usual_cache(rt),
    }
}

// The cache of a user without the variable.
fn usual_cache(rt: &HostRuntime) -> Result<String, Stop> {
    match fs::metadata(rt, "/proc/self") {
        Ok(own) => {
            let uid = own.uid();
            Ok(format!(in rt.alloc(); "/tmp/krb5cc_{uid}")?)
        }
        Err(fault) => Err(failed(
            rt.alloc(),
            format_args!("/proc/self can't be read: {fault}: expected -c CACHE"),
        )),
    }
}

/// The realm of the configuration of Kerberos programs, for a user who is named without one.
pub(crate) fn default_realm(rt: &HostRuntime, user: &str) -> Result<String, Stop> {
    let paths = match variable(rt, CONFIGURATION)? {
        Some(paths) => paths,
        None => String::from_str(rt.alloc(), USUAL_CONFIGURATION)?,
    };
    for path in paths.split(':') {
        if let Some(realm) = realm_in(rt, path)? {
            return Ok(realm);
        }
    }
    Err(usage(
        rt.alloc(),
        format_args!("{user}: expected USER@REALM, or default_realm in {paths:?}"),
    ))
}

// The default realm of a file, if it can be read, is text, and names one.
fn realm_in(rt: &HostRuntime, path: &str) -> Result<Option<String>, Stop> {
    let octets = match octets_of(rt, path, FileKind::Settings) {
        Ok(octets) => octets,
        Err(Stop::Memory) => return Err(Stop::Memory),
        Err(_) => return Ok(None),
    };
    let Ok(text) = str::from_utf8(&octets) else {
        return Ok(None);
    };
    match default_realm_in(rt.alloc(), text)? {
        Some(realm) => Ok(Some(String::from_str(rt.alloc(), realm)?)),
        None => Ok(None),
    }
}

// The value of a variable, if it is set, isn't empty and is text.
fn variable(rt: &HostRuntime, name: &str) -> Result<Option<String>, Stop> {
    match env::var(rt, name) {
        Ok(value) if value.is_empty() => Ok(None),
        Ok(value) => Ok(Some(value)),
        Err(VarError::OutOfMemory) => Err(Stop::Memory),
        Err(_) => Ok(None),
    }
}
