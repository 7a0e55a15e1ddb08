//! The KDC at the other end of standard input and output.
ghost use Rattle.std.specs.Prelude.{None};

use crate::PROGRAM;
use crate::arguments::{Flags, Settings};
use crate::reports::{Expected, hint_text, outcome_text};
use krb_client::TicketOptions;
use krb_client_exchanges::{HintRefusal, Kdc, Occasion, hint_in_answer};
use krb_commands::{RandomFile, Stop, failed, moment_or_now};
use krb_crypto::CipherSuite;
use krb_frames::{FRAME_LIMIT, ServeFault, read_frame, write_frame};
use krb_programs::{Streams, say};
use krb_time::{MICROSECONDS_IN_SECOND, Moment};
use std::alloc::Global;
use std::fmt;

/// The streams to and from a KDC, and a file of random octets.
#[derive(Drop)]
pub(crate) struct KdcPipe<'a> {
    rt: &'a HostRuntime,
    streams: Streams,
    words: RandomFile<'a>,
    /// The moment of each request, if it isn't the clock's.
    set_moment: Option<Moment>,
    /// For how many seconds tickets are asked for.
    lifetime: u64,
    /// For how many seconds the ticket-granting ticket is to be renewable, if it is to be.
    renew_life: Option<u64>,
    /// What else is asked of it, and whether the program says what it asks.
    flags: Flags,
    /// The argument that names the user or the service of the next request.
    name: &'a str,
    /// The next request.
    expected: Expected<'a>,
}

impl<'a> KdcPipe<'a> {
    /// The KDC at standard input and output, with random octets, moments and the lifetime as the settings say. The next request is one of
    /// this name.
    pub(crate) fn open(
        rt: &'a HostRuntime,
        settings: &Settings<'a>,
        name: &'a str,
        expected: Expected<'a>,
    ) -> Result<KdcPipe<'a>, Stop> {
        let words = RandomFile::open(rt, settings.words)?;
        let streams = Streams::open(rt)?;
        Ok(KdcPipe {
            rt,
            streams,
            words,
            set_moment: settings.moment,
            lifetime: settings.lifetime,
            renew_life: settings.renew_life,
            flags: settings.flags,
            name,
            expected,
        })
    }

    /// The next request is this one of this name.
    pub(crate) fn expect(&mut self, name: &'a str, expected: Expected<'a>) {
        self.name = name;
        self.expected = expected;
    }

    // What an AS request at this moment asks of the ticket-granting ticket.
    fn options_at(&self, alloc: Global, moment: Moment) -> Result<TicketOptions, Stop> {
        let rtime = match self.renew_life {
            Some(seconds) => Some(end_after(alloc, moment, seconds, "-L")?.second()),
            None => None,
        };
        Ok(TicketOptions {
            forwardable: self.flags.is_forwardable,
            proxiable: self.flags.is_proxiable,
            renewable: rtime.is_some(),
            renews: false,
            forwards: false,
            rtime,
        })
    }

    // Says a line on standard error. It shows no secret.
    fn say<D: fmt::Display + Drop>(&self, line: D) {
        say(self.rt, PROGRAM, line);
    }

    // Says what was asked and answered, and what the first answer says of the client's key.
    fn report(&mut self, alloc: Global, answer: &[u8]) -> Result<(), Stop> {
        let expected = self.expected;
        let suites = expected.suites_text(alloc)?;
        let outcome = outcome_text(alloc, answer)?;
        let title = expected.title();
        let name = self.name;
        self.say(format_args!("{title} for {name:?}, etypes {suites}: {outcome}"));
        match expected {
            Expected::First(suites) => self.report_hint(alloc, suites, answer),
            _ => Ok(()),
        }
    }

    fn report_hint(
        &mut self,
        alloc: Global,
        suites: &[CipherSuite],
        answer: &[u8],
    ) -> Result<(), Stop> {
        match hint_in_answer(alloc, suites, answer) {
            Ok(answer) => {
                let text = hint_text(alloc, &answer.hint)?;
                self.say(text.as_str());
                self.expected = Expected::Timestamp(answer.hint.suite);
                Ok(())
            }
            Err(HintRefusal::Memory) => Err(Stop::Memory),
            Err(_) => Ok(()),
        }
    }

    // The KDC's reply to a request.
    fn reply(&mut self, alloc: Global, request: &[u8]) -> Result<Vec<u8>, Stop> {
        if FRAME_LIMIT < request.len() {
            return Err(failed(alloc, "the request has more than 65536 octets"));
        }
        let replied = match write_frame(alloc, &mut self.streams.writer, request) {
            Ok(()) => read_frame(alloc, &mut self.streams.reader),
            Err(fault) => Err(fault),
        };
        match replied {
            Ok(Some(reply)) => Ok(reply),
            Ok(None) => Err(failed(
                alloc,
                "standard input: ended before a reply: expected a KDC over TCP",
            )),
            Err(fault) => Err(stop_of(self.rt, fault)),
        }
    }
}

impl<'a> Kdc for KdcPipe<'a> {
    type Fault = Stop;

    ghost events = { λ _. None };

    fn occasion(&mut self, alloc: Global) -> Result<Occasion, Stop> {
        let moment = moment_or_now(self.rt, self.set_moment)?;
        let words = self.words.take_words(alloc, "request")?;
        let till = end_after(alloc, moment, self.lifetime, "-l")?.second();
        let options = self.options_at(alloc, moment)?;
        Ok(Occasion {
            moment,
            till,
            options,
            words,
        })
    }

    fn ask(&mut self, alloc: Global, request: &[u8]) -> Result<Vec<u8>, Stop> {
        let reply = self.reply(alloc, request)?;
        if self.flags.is_verbose {
            self.report(alloc, &reply)?;
        }
        Ok(reply)
    }
}

// The moment that is so many seconds after this one. The option says how many.
fn end_after(alloc: Global, moment: Moment, seconds: u64, option: &str) -> Result<Moment, Stop> {
    let micros = seconds.saturating_mul(MICROSECONDS_IN_SECOND);
    match Moment::new(moment.micros().saturating_add(micros)) {
        Some(end) => Ok(end),
        None => Err(failed(
            alloc,
            format_args!("{option}: expected an end before the year 10000"),
        )),
    }
}

fn stop_of(rt: &HostRuntime, fault: ServeFault) -> Stop {
    let text = match fault {
        ServeFault::Memory => return Stop::Memory,
        ServeFault::Truncated => "standard input: ended within a frame",
        ServeFault::FrameTooLong => {
            "standard input: a length over 65536: expected four octets, the highest first"
        }
        ServeFault::Write => "standard output can't be written: expected a KDC over TCP",
        _ => "standard input can't be read",
    };
    failed(rt.alloc(), text)
}
