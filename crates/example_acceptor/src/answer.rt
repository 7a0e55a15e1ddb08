//! What the message of a frame is answered by.
ghost use Rattle.std.specs.Prelude.{◌≡◌, IfOk};
ghost use Rattle.gss_contexts.specs.Tokens.{is_set};
ghost use Rattle.example_acceptor.specs.Answers.{Acknowledges, IsAnswer, IsOfMessage};

use crate::frame::Frame;
use gss_contexts::{Context, TokenRefusal};
use std::alloc::Global;

/// The frame begins or ends a context, or acknowledges a message.
pub(crate) const NOOP: u8 = 1;

/// The token is one of a context's establishment.
pub(crate) const CONTEXT: u8 = 2;

/// The token is a message's MIC.
pub(crate) const MIC: u8 = 8;

/// The establishment of a context follows.
pub(crate) const CONTEXT_NEXT: u8 = 16;

/// The token is a wrapped message.
pub(crate) const WRAPPED: u8 = 32;

/// The message is to be answered by its MIC.
pub(crate) const SEND_MIC: u8 = 128;

/// Whether a flag is set.
pub(crate) fn is_set(flags: u8, flag: u8) -> bool
    ensures { result ≡ is_set flags flag }
{
    flags & flag != 0
}

// The message of a frame.
fn message_of(alloc: Global, context: &mut Context, frame: &Frame) -> Result<Vec<u8>, TokenRefusal>
    ensures { IfOk result (λ message. IsOfMessage (is_set frame.now.flags 32) context.old frame.now.token.items context.new message.items) }
{
    if !is_set(frame.flags, WRAPPED) {
        return Ok(Vec::from_slice(alloc, &frame.token)?);
    }
    let taken = context.unwrap(alloc, &frame.token)?;
    Ok(taken.message)
}

// The answer to a message.
fn acknowledge(
    alloc: Global,
    context: &mut Context,
    wants_mic: bool,
    message: &[u8],
) -> Result<Frame, TokenRefusal>
    ensures { IfOk result (λ answer. Acknowledges wants_mic context.old message.now context.new answer) }
{
    if !wants_mic {
        return Ok(Frame {
            flags: NOOP,
            token: Vec::new(alloc),
        });
    }
    let token = context.get_mic(alloc, message)?;
    Ok(Frame { flags: MIC, token })
}

/// The answer to the message of a frame: its MIC, if the frame asks for it, or else an empty frame.
pub(crate) fn answer_of(
    alloc: Global,
    context: &mut Context,
    frame: &Frame,
) -> Result<Frame, TokenRefusal>
    ensures { IfOk result (IsAnswer context.old frame.now context.new) }
{
    let message = message_of(alloc, context, frame)?;
    acknowledge(alloc, context, is_set(frame.flags, SEND_MIC), &message)
}
