//! Which entries are chosen.

use krb_account_texts::suite_named;
use krb_commands::{Stop, given_of, principal_in, refused, usage};
use krb_file_formats::KeytabRecord;
use krb_messages::PrincipalText;
use picky_asn1::wrapper::GeneralStringAsn1;
use std::alloc::Global;

/// The entries of this kvno, this etype and these principals. What isn't given chooses all.
#[derive(Drop)]
pub(crate) struct Choice<'a> {
    kvno: Option<u32>,
    etype: Option<u16>,
    principals: Vec<Principal<'a>>,
}

/// A principal, with the argument that names it.
#[derive(Drop)]
struct Principal<'a> {
    argument: &'a str,
    name: PrincipalText,
}

/// The choice of these arguments.
pub(crate) fn choice_of<'a>(alloc: Global, words: &'a [String]) -> Result<Choice<'a>, Stop> {
    let given = given_of(alloc, &["--kvno", "--etype"], words)?;
    let kvno = match given.value(alloc, "--kvno")? {
        Some(word) => Some(kvno_of(alloc, word)?),
        None => None,
    };
    let etype = match given.value(alloc, "--etype")? {
        Some(word) => Some(etype_of(alloc, word)?),
        None => None,
    };
    let principals = principals_of(alloc, given.words())?;
    Ok(Choice {
        kvno,
        etype,
        principals,
    })
}

fn principals_of<'a>(alloc: Global, words: &[&'a str]) -> Result<Vec<Principal<'a>>, Stop> {
    let mut principals = Vec::new(alloc);
    for word in words {
        let name = principal_in(alloc, *word)?;
        principals.push(Principal {
            argument: *word,
            name,
        })?;
    }
    Ok(principals)
}

fn kvno_of(alloc: Global, word: &str) -> Result<u32, Stop> {
    match word.parse::<u32>() {
        Ok(kvno) => Ok(kvno),
        Err(_) => Err(usage(
            alloc,
            "--kvno: expected a whole number from 0 to 4294967295",
        )),
    }
}

fn etype_of(alloc: Global, word: &str) -> Result<u16, Stop> {
    if let Some(suite) = suite_named(word) {
        return Ok(u16::from(u8::from(suite)));
    }
    match word.parse::<u16>() {
        Ok(etype) => Ok(etype),
        Err(_) => Err(usage(
            alloc,
            "--etype: expected a name, as aes256-cts-hmac-sha1-96, or a number from 0 to 65535",
        )),
    }
}

impl<'a> Choice<'a> {
    /// Whether an entry is chosen.
    pub(crate) fn takes(&self, record: &KeytabRecord) -> bool {
        let is_named = self.principals.is_empty()
            || self.principals.iter().any(|own| is_of(&own.name, record));
        is_named && self.fits_key(record)
    }

    fn fits_key(&self, record: &KeytabRecord) -> bool {
        self.kvno.is_none_or(|kvno| kvno == record.kvno())
            && self.etype.is_none_or(|etype| etype == record.etype())
    }

    /// Refuses a principal of which no entry is chosen.
    pub(crate) fn check_each(&self, alloc: Global, records: &[KeytabRecord]) -> Result<(), Stop> {
        for principal in &self.principals {
            if !has_entry(&principal.name, records) {
                return Err(refused(
                    alloc,
                    format_args!("{}: no entry fits: see list", principal.argument),
                ));
            }
        }
        Ok(())
    }
}

// Whether one of the entries is the principal's.
fn has_entry(name: &PrincipalText, records: &[KeytabRecord]) -> bool {
    records.iter().any(|record| is_of(name, record))
}

// Whether an entry is the principal's, by the characters of the components, and of the realm if one is given.
fn is_of(name: &PrincipalText, record: &KeytabRecord) -> bool {
    let has_realm = match &name.realm {
        Some(realm) => realm.as_slice() == record.realm().as_bytes(),
        None => true,
    };
    has_realm && has_components(record.components(), name.components.as_slice())
}

fn has_components(name: &[GeneralStringAsn1], components: &[Vec<u8>]) -> bool {
    name.len() == components.len()
        && name
            .iter()
            .zip(components)
            .all(|(own, other)| own.as_bytes() == other.as_slice())
}
