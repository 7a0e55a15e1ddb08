//! The administrators that a text of accounts names.

use krb_account_texts::{Line, LineFault, read_name};
use krb_commands::{Stop, refused};
use krb_messages::data_types::PrincipalName;

/// What the line of the administrators begins with. Other programs read it as a comment.
const ADMINS: &str = "#admins\t";

/// The names of the lines of administrators.
pub(crate) fn admins_of(
    rt: &HostRuntime,
    path: &str,
    lines: &[Line],
) -> Result<Vec<PrincipalName>, Stop> {
    let mut admins = Vec::new(rt.alloc());
    for line in lines {
        if let Line::Comment(text) = line
            && let Some(names) = text.as_str().strip_prefix(ADMINS)
        {
            put_admins(rt, path, names, &mut admins)?;
        }
    }
    Ok(admins)
}

// Puts the names of one line behind the others.
fn put_admins(
    rt: &HostRuntime,
    path: &str,
    names: &str,
    admins: &mut Vec<PrincipalName>,
) -> Result<(), Stop> {
    for name in names.split('\t') {
        admins.push(admin_of(rt, path, name)?)?;
    }
    Ok(())
}

fn admin_of(rt: &HostRuntime, path: &str, name: &str) -> Result<PrincipalName, Stop> {
    match read_name(rt.alloc(), name) {
        Ok(name) => Ok(name),
        Err(LineFault::Memory) => Err(Stop::Memory),
        Err(_) => Err(refused(
            rt.alloc(),
            format_args!("{path}: {name}: expected names behind #admins, with a tab before each"),
        )),
    }
}
