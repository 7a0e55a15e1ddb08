//! Names in a line.
ghost use Rattle.std.specs.Prelude.{◌≡◌, IfOk, string_bytes};
ghost use Rattle.krb_messages.specs.Names.{components};
ghost use Rattle.krb_log.specs.NameText.{shown_name, shown_text};

use krb_messages::data_types::{NameInRealm, PrincipalName, Realm};
use std::alloc::{AllocError, Global};
use std::fmt;

/// How many octets the text of a name has at most in a line.
pub const NAME_ROOM: usize = 512;

/// What is shown in place of a longer name. The text of a name has an `@`, so that it is none of a name.
pub const LONG_NAME: &str = "(long)";

/// Returns the text of a name in its realm, as a line has it.
pub(crate) fn shown_name(
    alloc: Global,
    name: &PrincipalName,
    realm: &Realm,
) -> Result<String, AllocError>
    ensures { IfOk result (λ text. string_bytes text ≡ shown_name (components name.now) realm.now) }
{
    let principal = NameInRealm { name, realm };
    let text = format!(in alloc; "{principal}")?;
    let shown = shown_text(alloc, text.as_str().as_bytes());
    drop(text);
    let shown = shown?;
    if shown.as_str().len() <= NAME_ROOM {
        return Ok(shown);
    }
    drop(shown);
    LONG_NAME.to_string(alloc)
}

// Returns a text in printable ASCII without a blank.
fn shown_text(alloc: Global, text: &[u8]) -> Result<String, AllocError>
    ensures { IfOk result (λ shown. string_bytes shown ≡ shown_text text.now) }
{
    let text = ShownText(text);
    let shown = format!(in alloc; "{text}")?;
    Ok(shown)
}

// The octets of a text, which print in printable ASCII without a blank.
#[derive(Clone, Copy)]
struct ShownText<'a>(&'a [u8]);

impl<'a> fmt::Display for ShownText<'a> {
    ghost use Rattle.std.specs.Prelude.{Some};
    ghost use Rattle.krb_log.specs.NameText.{shown_text};

    ghost output = { λ text. Some (shown_text text.0.now) };

    fn fmt<W: fmt::Write>(&self, f: &mut fmt::Formatter<W>) -> fmt::Result {
        for octet in self.0 {
            let octet = ShownOctet(*octet);
            write!(f, "{octet}")?;
        }
        Ok(())
    }
}

// An octet of a text.
#[derive(Clone, Copy)]
struct ShownOctet(u8);

impl fmt::Display for ShownOctet {
    ghost use Rattle.std.specs.Prelude.{Some};
    ghost use Rattle.krb_log.specs.NameText.{shown_octet};

    ghost output = { λ octet. Some (shown_octet octet.0) };

    fn fmt<W: fmt::Write>(&self, f: &mut fmt::Formatter<W>) -> fmt::Result {
        if self.0.is_ascii_graphic() {
            let character = char::from(self.0);
            return write!(f, "{character}");
        }
        let high = self.0 / 16;
        let low = self.0 % 16;
        write!(f, "\\x{high:x}{low:x}")
    }
}
