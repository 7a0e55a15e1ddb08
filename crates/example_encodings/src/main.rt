//! Reads, changes and writes messages of Kerberos through `picky_krb`, and reads a certificate through `picky_asn1_x509`.
//!
//! What it has to print (`stdout`) comes from elsewhere. The request, and the KRB-ERROR that is made, are recorded in `clients.txt` of
//! `replay_encodings`. The changed request is the recorded one with other octets in the place of `till`, by sed. The ticket's
//! realm and kvno are those of `messages.cnf`, of which OpenSSL wrote it. What the certificate has is what OpenSSL read in it.
#![tactic(auto)]

mod certificate;
mod error;
mod messages;
mod printing;

use certificate::show_certificate;
use messages::show_messages;

fn main(rt: HostRuntime) -> anyhow::Result<()> {
    show_messages(&rt)?;
    show_certificate(&rt)
}
