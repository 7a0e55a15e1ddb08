//! Why the program stops before the end of its input.
ghost use Rattle.std.specs.Prelude.{◌≡◌};
ghost use Rattle.krb_settings_kdc.specs.Stops.{fault_name};
ghost use Rattle.krb_settings_kdc.specs.declared.stop.Stop.TheVariants.{BadArguments, Fault};
ghost use Rattle.krb_frames.specs.declared.fault.ServeFault.TheVariants as serve_fault;

use crate::fault::RealmFault;
use krb_frames::ServeFault;
use krb_programs::ArgumentsFault;
use std::alloc::AllocError;
use std::fmt;

/// Why the program stops before the end of its input. It is displayed as what the line on standard error says after the program's name.
#[derive(Clone, Copy, Debug, PartialEq, Eq)]
pub enum Stop {
    /// The arguments are none that the program takes.
    BadArguments,
    /// The settings are no realm's.
    BadSettings,
    /// Serving stopped, or memory ran out before it.
    Fault(ServeFault),
}

impl Stop {
    ghost use Rattle.krb_settings_kdc.specs.Stops.{status_of};

    /// Returns the program's status: 1 if nothing was served, 2 if serving stopped early, or if memory ran out before it.
    pub fn status(self) -> u8
        ensures { result ≡ status_of self }
    {
        match self {
            Stop::BadArguments | Stop::BadSettings => 1,
            Stop::Fault(_) => 2,
        }
    }
}

impl From<ServeFault> for Stop {
    ghost from_gives = { λ fault stop. stop ≡ Fault fault };

    fn from(fault: ServeFault) -> Stop {
        Stop::Fault(fault)
    }
}

impl From<RealmFault> for Stop {
    ghost use Rattle.krb_settings_kdc.specs.Stops.{stop_of_realm};

    ghost from_gives = { λ fault stop. stop ≡ stop_of_realm fault };

    fn from(fault: RealmFault) -> Stop {
        match fault {
            RealmFault::Memory => Stop::Fault(ServeFault::Memory),
            _ => Stop::BadSettings,
        }
    }
}

impl From<ArgumentsFault> for Stop {
    ghost use Rattle.krb_settings_kdc.specs.Stops.{stop_of_arguments};

    ghost from_gives = { λ fault stop. stop ≡ stop_of_arguments fault };

    fn from(fault: ArgumentsFault) -> Stop {
        match fault {
            ArgumentsFault::NotText => Stop::BadArguments,
            ArgumentsFault::Memory => Stop::Fault(ServeFault::Memory),
        }
    }
}

impl From<AllocError> for Stop {
    ghost from_gives = { λ _ stop. stop ≡ Fault serve_fault.Memory };

    fn from(_fault: AllocError) -> Stop {
        Stop::Fault(ServeFault::Memory)
    }
}

impl fmt::Display for Stop {
    ghost use Rattle.std.specs.Prelude.{Some};
    ghost use Rattle.krb_settings_kdc.specs.Stops.{stop_text};

    ghost output = { λ stop. Some (stop_text stop) };

    fn fmt<W: fmt::Write>(&self, f: &mut fmt::Formatter<W>) -> fmt::Result {
        match self {
            Stop::BadArguments => f.write_str("bad arguments"),
            Stop::BadSettings => f.write_str("bad settings"),
            Stop::Fault(fault) => f.write_str(fault_name(*fault)),
        }
    }
}

// The name of a fault.
fn fault_name(fault: ServeFault) -> &'static str
    ensures { result.now ≡ fault_name fault }
{
    match fault {
        ServeFault::Truncated => "Truncated",
        ServeFault::FrameTooLong => "FrameTooLong",
        ServeFault::NoRequest => "NoRequest",
        ServeFault::Read => "Read",
        ServeFault::Write => "Write",
        ServeFault::NoWords => "NoWords",
        ServeFault::NoMoment => "NoMoment",
        ServeFault::ReplyTooLong => "ReplyTooLong",
        ServeFault::Memory => "Memory",
        ServeFault::Accounts => "Accounts",
    }
}
