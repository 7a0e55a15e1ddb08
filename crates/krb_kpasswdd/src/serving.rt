//! The loop over the messages.
ghost use Rattle.std.specs.Prelude.{◌≤◌, length};

use crate::PROGRAM;
use crate::change::change;
use crate::desk::Desk;
use krb_commands::{RandomFile, Stop, failed, moment_or_now};
use krb_frames::{FRAME_LIMIT, ServeFault, read_frame, write_frame};
use krb_password_changes::messages::{FrameRefusal, ResultCode};
use krb_password_changes::{
    Admitted, ChangeRefusal, Target, admit_request, reply_to_admitted, reply_to_refused,
};
use krb_programs::{Streams, say};
use krb_time::Moment;

/// Answers each frame of standard input on standard output, at the moment that is given, or else at the clock's.
pub(crate) fn serve(
    rt: &HostRuntime,
    desk: &mut Desk<'_>,
    words: &RandomFile<'_>,
    moment: &Option<Moment>,
) -> Result<(), Stop> {
    let mut streams = Streams::open(rt)?;
    for _ in 0..usize::MAX {
        if !serve_next(rt, desk, words, moment, &mut streams)? {
            return Ok(());
        }
    }
    Ok(())
}

// Answers the next frame, if there is one.
fn serve_next(
    rt: &HostRuntime,
    desk: &mut Desk<'_>,
    words: &RandomFile<'_>,
    moment: &Option<Moment>,
    streams: &mut Streams,
) -> Result<bool, Stop> {
    let alloc = rt.alloc();
    let Some(message) = unbroken(rt, read_frame(alloc, &mut streams.reader))? else {
        return Ok(false);
    };
    let now = moment_of(rt, moment)?;
    let octets = words.take_words(alloc, "message")?;
    let reply = answer(rt, desk, now, &message, &octets)?;
    unbroken(rt, write_reply(rt, streams, &reply))?;
    Ok(true)
}

// The moment that is given, or else the clock's.
fn moment_of(rt: &HostRuntime, moment: &Option<Moment>) -> Result<Moment, Stop> {
    match moment {
        Some(moment) => Ok(*moment),
        None => moment_or_now(rt, None),
    }
}

// Writes the frame of a reply.
fn write_reply(rt: &HostRuntime, streams: &mut Streams, reply: &[u8]) -> Result<(), ServeFault> {
    if FRAME_LIMIT < reply.len() {
        return Err(ServeFault::ReplyTooLong);
    }
    write_frame(rt.alloc(), &mut streams.writer, reply)
}

// What came of a stream, or the stop where it can't be used.
fn unbroken<T: Drop>(rt: &HostRuntime, came: Result<T, ServeFault>) -> Result<T, Stop> {
    match came {
        Ok(value) => Ok(value),
        Err(ServeFault::Memory) => Err(Stop::Memory),
        Err(_) => Err(failed(
            rt.alloc(),
            "standard input or standard output: expected frames, and a reader of replies",
        )),
    }
}

// The reply to a message.
fn answer(
    rt: &HostRuntime,
    desk: &mut Desk<'_>,
    moment: Moment,
    message: &[u8],
    words: &[u8],
) -> Result<Vec<u8>, Stop>
    requires { 32 ≤ length words.now }
{
    match admit_request(rt.alloc(), &mut desk.service, moment, message, words) {
        Ok(admitted) => answer_admitted(rt, desk, moment, &admitted, words),
        Err(refusal) => answer_refused(rt, desk, moment, refusal),
    }
}

// The reply to a request that is admitted, after the change that it asks for.
fn answer_admitted(
    rt: &HostRuntime,
    desk: &mut Desk<'_>,
    moment: Moment,
    admitted: &Admitted<'_>,
    words: &[u8],
) -> Result<Vec<u8>, Stop>
    requires { 32 ≤ length words.now }
{
    let code = match change(rt, desk, admitted) {
        Ok(code) => code,
        Err(stop) => {
            say(rt, PROGRAM, &stop);
            ResultCode::HardError
        }
    };
    let service = Target {
        realm: &desk.rules.realm,
        name: &desk.name,
    };
    let reply = reply_to_admitted(
        rt.alloc(),
        &service,
        moment,
        &admitted.admission,
        code,
        text_of(code),
        &desk.address,
        words,
    );
    framed(rt, reply)
}

// The reply to a message that isn't admitted.
fn answer_refused(
    rt: &HostRuntime,
    desk: &Desk<'_>,
    moment: Moment,
    refusal: ChangeRefusal,
) -> Result<Vec<u8>, Stop> {
    let code = match refusal {
        ChangeRefusal::Refused(code) => code,
        ChangeRefusal::Memory => return Err(Stop::Memory),
    };
    let service = Target {
        realm: &desk.rules.realm,
        name: &desk.name,
    };
    let reply = reply_to_refused(rt.alloc(), &service, moment, code, text_of(code));
    framed(rt, reply)
}

// The reply, or the stop where there is none.
fn framed(rt: &HostRuntime, reply: Result<Vec<u8>, FrameRefusal>) -> Result<Vec<u8>, Stop> {
    match reply {
        Ok(reply) => Ok(reply),
        Err(FrameRefusal::Memory) => Err(Stop::Memory),
        Err(FrameRefusal::TooLong) => Err(failed(
            rt.alloc(),
            "a reply of over 65535 octets: expected shorter names",
        )),
    }
}

// What a user reads of a result code.
fn text_of(code: ResultCode) -> &'static str {
    match code {
        ResultCode::Success => "",
        ResultCode::Malformed => "The request is malformed.",
        ResultCode::HardError => "The password was not changed: the server can't do it now.",
        ResultCode::AuthError => "The request is not authenticated.",
        ResultCode::SoftError => "The password is too short, or a word that is refused.",
        ResultCode::AccessDenied => "The client may not set the password of this account.",
        ResultCode::BadVersion => "The version of the request is not known.",
        ResultCode::InitialFlagNeeded => "The ticket has to be got by the password.",
        ResultCode::Other => "",
    }
}
