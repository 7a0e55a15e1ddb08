//! Changing the text and its database.

use crate::admins::admins_of;
use crate::database::database_of;
use crate::desk::Desk;
use krb_account_texts::is_krbtgt;
use krb_commands::{FileKind, NewFile, Stop, begin, lines_of, whole_text};
use krb_password_changes::messages::ResultCode;
use krb_password_changes::{Admitted, ChangeRefusal, Granted, change_password};

/// The octets of the text and of its database after a change.
#[derive(Drop)]
struct Changed {
    text: String,
    database: Vec<u8>,
}

/// Changes the text and its database as an admitted request asks for, and returns the result code. No other run writes the text meanwhile.
/// What is refused changes neither. The text is replaced first: where that of the database fails, `krb_accounts make` makes it of the
/// text.
pub(crate) fn change(
    rt: &HostRuntime,
    desk: &mut Desk<'_>,
    admitted: &Admitted<'_>,
) -> Result<ResultCode, Stop> {
    let new_text = begin(rt, desk.text, FileKind::Accounts, &[])?;
    match files_after(rt, desk, admitted) {
        Ok(Ok(changed)) => {
            put(rt, desk, new_text, &changed)?;
            Ok(ResultCode::Success)
        }
        Ok(Err(code)) => {
            new_text.discard(rt);
            Ok(code)
        }
        Err(stop) => {
            new_text.discard(rt);
            Err(stop)
        }
    }
}

// What the files are after a granted change, or the code of a refused one.
fn files_after(
    rt: &HostRuntime,
    desk: &mut Desk<'_>,
    admitted: &Admitted<'_>,
) -> Result<Result<Changed, ResultCode>, Stop> {
    let alloc = rt.alloc();
    let mut lines = lines_of(rt, desk.text)?;
    desk.rules.admins = admins_of(rt, desk.text, &lines)?;
    let outcome = change_password(
        alloc,
        &mut lines,
        &desk.rules,
        admitted.version,
        &admitted.admission,
        admitted.krb_priv,
    );
    match outcome {
        Ok(granted) => {
            if is_kept(desk, &granted) {
                return Ok(Err(ResultCode::AccessDenied));
            }
            let text = whole_text(rt, &lines)?;
            let database = database_of(alloc, desk.text, lines)?;
            Ok(Ok(Changed { text, database }))
        }
        Err(ChangeRefusal::Refused(code)) => Ok(Err(code)),
        Err(ChangeRefusal::Memory) => Err(Stop::Memory),
    }
}

// Whether the account is that of the ticket-granting service, whose key is never of a password.
fn is_kept(desk: &Desk<'_>, granted: &Granted) -> bool {
    is_krbtgt(
        desk.rules.realm.as_bytes(),
        granted.name.name_string.0.as_slice(),
    )
}

// Puts the text into its place, and then the database.
fn put(
    rt: &HostRuntime,
    desk: &Desk<'_>,
    new_text: NewFile,
    changed: &Changed,
) -> Result<(), Stop> {
    let new_database = match begin(rt, desk.database, FileKind::Database, &[desk.text]) {
        Ok(new_database) => new_database,
        Err(stop) => {
            new_text.discard(rt);
            return Err(stop);
        }
    };
    if let Err(stop) = new_text.finish(rt, changed.text.as_bytes()) {
        new_database.discard(rt);
        return Err(stop);
    }
    new_database.finish(rt, &changed.database)
}
