//! The program `krb_login`: gets tickets from a KDC, by password, keytab or certificate, and writes them to a credential cache. It is a
//! filter: requests go to standard output, and replies come from standard input, each in a frame of Kerberos over TCP (RFC 4120, section
//! 7.2.2). A bridge sends each request to the KDC, over a new connection where the KDC closes it after each reply. `krb_login --help`
//! prints the options.
//!
//! By password or keytab it first sends an AS request without padata, which lists the suites. The KDC answers by error 25 with a suite and
//! a salt, or by a reply. After the error it sends the request with an encrypted timestamp. By certificate its AS request has the padata
//! PA-PK-AS-REQ (RFC 4556) with algorithm agility (RFC 8636), and lists the suites. After error 24 it sends one without algorithm agility,
//! since a KDC may not know that. Then it sends one TGS request for each service, which lists the suites too. So a KDC gets two AS requests
//! at most, and no request follows an error but the second of these. With `-R` its first request is a TGS request instead, which renews the
//! cache's ticket-granting ticket.
//!
//! Without `-e` the suites are those of AES, and a password's salt is the default one. Errors aren't authenticated: a forged one gets no
//! encrypted timestamp in another suite, and none under another salt. A session key of a suite that wasn't listed is refused.
//!
//! Before the first request it makes a file beside the cache and takes it away, to see that the folder takes one. The cache is written at
//! the end, under a name of its own, with mode 0600, and takes its place once it is on disk. If a run fails, the old cache stays. What is
//! there is replaced only if it is a cache or empty, and none of the files that the login reads.
//!
//! The status is 0 if the cache was written. It is 1 if the KDC refused, if its answer was refused, or if a file has no key, password or
//! certificate of the user. It is 2 if the arguments are none, a file or a stream can't be read or written, or memory ran out. One line on
//! standard error says what was expected, and names an error of the KDC with its code. No line shows a key or a password.
//!
//! It is safe, returns, and meets what its calls require. `krb_client_exchanges` says what its calls ask of a `Kdc`, and what cache is made
//! of the tickets. No contract says what files and streams hold.
#![tactic(auto)]

mod arguments;
mod certified;
mod environment;
mod held;
mod kdc;
mod login;
mod refusals;
mod reports;
mod secret;

use crate::arguments::{Arguments, ONE_MEANS, login_of, renewal_of, without_flags};
use crate::login::{log_in, renew};
use krb_commands::{Stop, arguments_of, is_word, print_line, print_version, usage};
use krb_programs::stop_program;
use std::process::ExitCode;

/// The program's name.
pub(crate) const PROGRAM: &str = "krb_login";

/// What `--help` prints.
const USAGE: &str = "usage:
  krb_login MEANS [-c CACHE] [-e SUITE].. [-s SERVICE].. [-l SECONDS] [-L SECONDS] [-f] [-P] [-r WORDS] [-t TIME] [-v] USER[@REALM]
  krb_login -R [-c CACHE] [-e SUITE].. [-s SERVICE].. [-l SECONDS] [-r WORDS] [-t TIME] [-v]
  krb_login --help, -h, krb_login --version
MEANS is one of: -k KEYTAB; -p FILE; -C CERTIFICATE -K KEY -A ANCHOR
  -k KEYTAB   a keytab with a key of the user
  -p FILE     a file whose first line is the user's password; /dev/fd/3 is the file descriptor 3
  -C CERTIFICATE  the user's certificate, in PEM or DER
  -K KEY      the certificate's private key of RSA, PKCS#8 or PKCS#1, in PEM or DER
  -A ANCHOR   the certificate of the authority that issued the KDC's certificate
  -c CACHE    the credential cache that is written: that of KRB5CCNAME, or else /tmp/krb5cc_UID, if it isn't given
  -e SUITE    a suite that is asked for, as aes256-cts-hmac-sha1-96; it may be given several times, the preferred one first. If it isn't
              given, the suites are those of AES, and a salt of the KDC's that isn't the default one is refused
  -s SERVICE  a service of the realm, as HTTP/server.example.com, for which a ticket is wanted; it may be given several times
  -l SECONDS  for how long tickets are asked for: 36000 if it isn't given
  -L SECONDS  for how long the ticket-granting ticket is to be renewable: not at all if it isn't given
  -R          renew the ticket-granting ticket of the cache, by itself; its user, flags and renew-till stay
  -f          the ticket-granting ticket is to be forwardable
  -P          the ticket-granting ticket is to be proxiable
  -r WORDS    a file of random octets: /dev/urandom if it isn't given
  -t TIME     the time of each request (UTC), as 20261128040000Z: the clock's if it isn't given
  -v          say on standard error what is asked, what the KDC answers, and the suite and salt that it names
A user without REALM is one of the default_realm of KRB5_CONFIG or /etc/krb5.conf.
Requests go to standard output and replies come from standard input, each after its length in four octets, the highest first. So
krb_connect KDC -- krb_login .. is the client.";

fn main(rt: HostRuntime) -> ExitCode {
    match run(&rt) {
        Ok(()) => ExitCode::SUCCESS,
        Err(stop) => stop_program(&rt, PROGRAM, &stop, stop.status()),
    }
}

fn run(rt: &HostRuntime) -> Result<(), Stop> {
    let arguments = arguments_of(rt)?;
    match arguments.as_slice() {
        [] => Err(usage(
            rt.alloc(),
            format_args!("{ONE_MEANS}; and USER@REALM: see --help"),
        )),
        [word] if is_word(word, "--help") || is_word(word, "-h") => print_line(rt, USAGE),
        [word] if is_word(word, "--version") => print_version(rt, PROGRAM),
        _ => {
            let arguments = without_flags(rt.alloc(), arguments)?;
            run_with(rt, &arguments)
        }
    }
}

// The login, or the renewal, of these arguments.
fn run_with(rt: &HostRuntime, arguments: &Arguments) -> Result<(), Stop> {
    if arguments.flags.is_renewal {
        let (login, credential) = renewal_of(rt, arguments)?;
        let outcome = renew(rt, &login, &credential);
        drop(credential);
        return outcome;
    }
    let (login, means) = login_of(rt, arguments)?;
    log_in(rt, &login, means)
}
