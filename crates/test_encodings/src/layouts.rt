//! Binary layouts over published rows.

#[cfg(test)]
mod failing;
#[cfg(test)]
mod integrity;
#[cfg(test)]
mod negoex;
#[cfg(test)]
mod negoex_values;
#[cfg(test)]
mod pac;
#[cfg(test)]
mod priv_frames;
#[cfg(test)]
mod priv_messages;
#[cfg(test)]
mod texts;
#[cfg(test)]
mod tokens;
