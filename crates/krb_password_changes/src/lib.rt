//! Requests to change a password (RFC 3244, section 2): how each is judged, and what a granted one changes.
//!
//! A message is a frame. Its AP-REQ is admitted once, by the caller's service, which is that of `kadmin/changepw`. The KRB-PRIV decrypts
//! under the subkey of the authenticator, or under the session key where there is none. Its seq-number is that of the authenticator. The
//! ticket is initial. The client changes its own password, or is an administrator of the realm. The password meets the rules of the realm.
//! The first rule that a request breaks decides its result code.
//!
//! `answer_request` answers a message. What is granted is the password in the one part that the key opens, for the client or for the target
//! that the part names (`IsAskedFor`, law `granted_is_asked_for`). The account of that name gets the next key: that of the password, with the
//! salt of realm and name, and with the next kvno. All other lines stay (`HasPassword`). What is refused changes no line, and has the result
//! code of the first row of `frame_table`, of the admission or of `judged_change` that refuses it. Each admitted request adds one client and
//! time, which were not admitted before (law `answered_once`). It was presented under a key of the service (law `answered_as_presented`).
//! `reply_to_admitted` makes the reply to it: an AP-REP, and a KRB-PRIV with the result code under the key of the request (`IsReply`, law
//! `reply_is_read`). `reply_to_refused` makes a KRB-ERROR with the result code (`IsErrorReply`).
#![tactic(auto)]

mod answer;
mod change;
mod judge;
pub mod laws;
pub mod messages;
mod private;
mod refusal;
mod reply;
mod setting;

pub use answer::{Admitted, Answer, admit_request, answer_request};
pub use change::{Target, read_change, target_of};
pub use judge::{Granted, Rules, judge_private};
pub use private::{open_private, private_key, read_krb_priv};
pub use refusal::ChangeRefusal;
pub use reply::{code_of, reply_to_admitted, reply_to_refused};
pub use setting::{change_password, set_password};
