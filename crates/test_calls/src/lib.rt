//! Tests of single calls: worked values of encryption, where no line of `replay_crypto` makes the call, and worked keys of X.509.
//! Streams over whole, slow and failing devices. Worked values of moments, names, accounts, what services remember, and what commands
//! make of texts.
#![tactic(auto)]

#[cfg(test)]
mod accounts;
#[cfg(test)]
mod aes_sha2;
#[cfg(test)]
mod commands;
#[cfg(test)]
mod curves;
#[cfg(test)]
mod des;
#[cfg(test)]
mod digests;
#[cfg(test)]
mod moments;
#[cfg(test)]
mod moving;
#[cfg(test)]
mod names;
#[cfg(test)]
mod refusals;
#[cfg(test)]
mod rsa;
#[cfg(test)]
mod sealing;
#[cfg(test)]
mod seen;
#[cfg(test)]
mod serving;
#[cfg(test)]
mod suites;
#[cfg(test)]
mod texts;
#[cfg(test)]
mod written;
