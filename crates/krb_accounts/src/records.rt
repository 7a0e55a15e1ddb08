//! The records of a text of accounts. Each line is read, and its record made, before the next: a text may have many.

use crate::accounts::service_name;
use crate::warner::Warner;
use crate::warnings::is_service;
use cdb::{Record, WriteFault};
use krb_account_texts::{
    AccountLine, Line, LineFault, RealmLine, TextFault, check_next, read_line,
};
use krb_commands::{FileKind, Stop, octets_of, refused, stop_of, text_in};
use krb_realm_files::{PKINIT_ROOM, RealmParameters, record_of_account};
use picky_asn1::wrapper::GeneralStringAsn1;
use std::alloc::Global;

/// The realm of a text, and the records of its accounts in the order of their names.
#[derive(Drop)]
pub(crate) struct RealmRecords {
    /// The realm.
    pub(crate) realm: RealmParameters,
    /// The records of the accounts.
    pub(crate) records: Vec<Record>,
    /// What warned of the lines, and warns of their keys.
    pub(crate) warner: Option<Warner>,
}

/// The records of the text in a file. Where there is a `warner`, it warns of the lines.
pub(crate) fn records_in(
    rt: &HostRuntime,
    path: &str,
    warner: Option<Warner>,
) -> Result<RealmRecords, Stop> {
    let octets = octets_of(rt, path, FileKind::Accounts)?;
    let text = text_in(rt, path, &octets)?;
    let mut made = Made {
        realm: None,
        last: None,
        has_service: false,
        records: Vec::new(rt.alloc()),
        warner,
    };
    let count = made.take_lines(rt, path, text)?;
    made.finish(rt, path, count)
}

// What is made of the lines so far.
#[derive(Drop)]
struct Made {
    realm: Option<RealmLine>,
    // The last account.
    last: Option<AccountLine>,
    // Whether there was the account of the realm's ticket-granting service.
    has_service: bool,
    records: Vec<Record>,
    warner: Option<Warner>,
}

impl Made {
    // Takes each line of a text, and returns how many there are.
    fn take_lines(&mut self, rt: &HostRuntime, path: &str, text: &str) -> Result<usize, Stop> {
        if text.is_empty() {
            return Ok(0);
        }
        let Some(front) = text.strip_suffix('\n') else {
            let number = text.split('\n').count();
            return Err(stop_of(rt, path, TextFault::NoEnd(number)));
        };
        let mut number = 0usize;
        for line in front.split('\n') {
            number = number.saturating_add(1);
            self.take_line(rt, path, number, line)?;
        }
        Ok(number)
    }

    fn take_line(
        &mut self,
        rt: &HostRuntime,
        path: &str,
        number: usize,
        text: &str,
    ) -> Result<(), Stop> {
        match self.line_in(rt.alloc(), text) {
            Ok(Line::Comment(_)) => Ok(()),
            Ok(Line::Realm(realm)) => self.put_realm(rt, realm),
            Ok(Line::Account(own)) => self.put_account(rt, path, number, own),
            Err(LineFault::Memory) => Err(Stop::Memory),
            Err(fault) => Err(stop_of(rt, path, TextFault::Line(number, fault))),
        }
    }

    // The line that a text writes, if it may follow the lines so far.
    fn line_in(&self, alloc: Global, text: &str) -> Result<Line, LineFault> {
        let line = read_line(alloc, text)?;
        check_next(self.realm.is_some(), self.last_name(), &line)?;
        Ok(line)
    }

    fn last_name(&self) -> &[GeneralStringAsn1] {
        match &self.last {
            Some(own) => own.name.name_string.0.as_slice(),
            None => &[],
        }
    }

    fn put_realm(&mut self, rt: &HostRuntime, realm: RealmLine) -> Result<(), Stop> {
        if let Some(warner) = &mut self.warner {
            warner.see_realm(rt, &realm)?;
        }
        self.realm = Some(realm);
        Ok(())
    }

    fn put_account(
        &mut self,
        rt: &HostRuntime,
        path: &str,
        number: usize,
        own: AccountLine,
    ) -> Result<(), Stop> {
        let put = self.put_record(rt, path, number, &own);
        self.last = Some(own);
        put
    }

    // Whether a name is that of the realm's ticket-granting service.
    fn is_service(&self, own: &AccountLine) -> bool {
        match &self.realm {
            Some(realm) => is_service(realm.name.as_bytes(), &own.name),
            None => false,
        }
    }

    fn put_record(
        &mut self,
        rt: &HostRuntime,
        path: &str,
        number: usize,
        own: &AccountLine,
    ) -> Result<(), Stop> {
        let is_service = self.is_service(own);
        self.has_service = self.has_service || is_service;
        if own.is_disabled {
            return check_disabled(rt.alloc(), path, number, is_service);
        }
        if let Some(warner) = &mut self.warner {
            warner.see_account(rt, number, self.records.len(), own)?;
        }
        let record = record_in(rt.alloc(), path, own)?;
        self.records.push(record)?;
        Ok(())
    }

    // The records of all lines, of which there are so many.
    fn finish(self, rt: &HostRuntime, path: &str, count: usize) -> Result<RealmRecords, Stop> {
        let Made {
            realm,
            last: _,
            has_service,
            records,
            warner,
        } = self;
        let Some(realm) = realm else {
            let fault = TextFault::Line(count.saturating_add(1), LineFault::NoRealm);
            return Err(stop_of(rt, path, fault));
        };
        if !has_service {
            return Err(no_service(rt.alloc(), path, &realm.name));
        }
        let realm = RealmParameters {
            name: realm.name,
            settings: realm.settings,
            pkinit: realm.pkinit,
        };
        Ok(RealmRecords {
            realm,
            records,
            warner,
        })
    }
}

// A disabled account has no record. That of the ticket-granting service is never one.
fn check_disabled(alloc: Global, path: &str, number: usize, is_service: bool) -> Result<(), Stop> {
    if is_service {
        return Err(refused(
            alloc,
            format_args!(
                "{path}:{number}: the account of the ticket-granting service is disabled: expected no #disabled before its name"
            ),
        ));
    }
    Ok(())
}

// The stop of a text without the account of the realm's ticket-granting service.
fn no_service(alloc: Global, path: &str, realm: &GeneralStringAsn1) -> Stop {
    match service_name(alloc, realm) {
        Ok(name) => refused(
            alloc,
            format_args!(
                "{path}: expected a line of {name}, the account of the ticket-granting service, as add -k random TEXT {name} writes it"
            ),
        ),
        Err(_) => Stop::Memory,
    }
}

fn record_in(alloc: Global, path: &str, own: &AccountLine) -> Result<Record, Stop> {
    match record_of_account(alloc, own.name.name_string.0.as_slice(), &own.account) {
        Ok(record) => Ok(record),
        Err(fault) => Err(unwritten(alloc, path, fault)),
    }
}

/// The stop where no database is made of a text.
pub(crate) fn unwritten(alloc: Global, path: &str, fault: WriteFault) -> Stop {
    match fault {
        WriteFault::Memory => Stop::Memory,
        WriteFault::Large => refused(
            alloc,
            format_args!(
                "{path}: its database would have 2^32 octets or more: expected fewer accounts"
            ),
        ),
        WriteFault::Unsound => refused(
            alloc,
            format_args!(
                "{path}: expected salts of at most 7500 octets, and at most {PKINIT_ROOM} octets behind pkinit"
            ),
        ),
    }
}
