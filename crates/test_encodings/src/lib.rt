//! Worked values of DER and of the leaf types: the examples of the standards. Binary layouts over published rows (`layouts`).
#![tactic(auto)]

#[cfg(test)]
mod built_in;
#[cfg(test)]
mod elements;
#[cfg(test)]
mod forms;
#[cfg(test)]
mod identifiers;
mod layouts;
#[cfg(test)]
mod leaves;
#[cfg(test)]
mod misc;
#[cfg(test)]
mod peeked;
#[cfg(test)]
mod person;
#[cfg(test)]
mod sample;
#[cfg(test)]
mod spelling;
#[cfg(test)]
mod streams;
#[cfg(test)]
mod texts;
#[cfg(test)]
mod texts_and_lists;
