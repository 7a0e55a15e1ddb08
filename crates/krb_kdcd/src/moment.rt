//! The moment at which all messages are answered.
ghost use Rattle.std.specs.Prelude.{IfOk, IfErr};
ghost use Rattle.std.specs.Option.{option_copied};
ghost use Rattle.krb_kdcd.specs.Commands.{IsGivenMoment, NamesNoMoment};

use crate::stop::Stop;
use krb_time::Moment;

/// Returns the moment that a text names (UTC, as 20261128040000Z), if a text is given. Else each message has the moment of the clock.
pub(crate) fn moment_of<'a>(text: Option<&'a str>) -> Result<Option<Moment>, Stop<'a>>
    ensures given { IfOk result (IsGivenMoment (option_copied text.entry)) }
    ensures none { IfErr result (λ _. NamesNoMoment (option_copied text.entry)) }
{
    let Some(named) = text else {
        return Ok(None);
    };
    match Moment::from_text(named.as_bytes()) {
        Some(moment) => Ok(Some(moment)),
        None => Err(Stop::Moment(named)),
    }
}
