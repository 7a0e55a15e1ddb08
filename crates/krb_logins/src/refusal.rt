//! Why a login ends.
ghost use Rattle.std.specs.Prelude.{◌≡◌};
ghost use Rattle.krb_logins.specs.Honest.{login_number};

use krb_ap_requests::AdmitRefusal;
use krb_client::{AskRefusal, TakeRefusal};
use krb_frames::AnswerRefusal;
use thiserror::Error;

/// Why a login ends before client and service share a key. Each variant has the cause.
#[derive(Clone, Copy, Debug, PartialEq, Eq, Error)]
pub enum LoginRefusal {
    /// The client doesn't ask.
    #[error("the client doesn't ask: {0}")]
    Asked(AskRefusal),

    /// The realm doesn't answer.
    #[error("the realm doesn't answer: {0}")]
    Answered(AnswerRefusal),

    /// The client doesn't take a reply.
    #[error("the client doesn't take a reply: {0}")]
    Taken(TakeRefusal),

    /// The service doesn't admit the client.
    #[error("the service doesn't admit the client: {0}")]
    Admitted(AdmitRefusal),
}

impl LoginRefusal {
    /// The refusal's number: 1 where the client doesn't ask, 2 where the realm doesn't answer, 3 where the client doesn't take a
    /// reply, 4 where the service doesn't admit it.
    pub fn number(self) -> u32
        ensures { result ≡ login_number self }
    {
        match self {
            LoginRefusal::Asked(_) => 1,
            LoginRefusal::Answered(_) => 2,
            LoginRefusal::Taken(_) => 3,
            LoginRefusal::Admitted(_) => 4,
        }
    }
}
