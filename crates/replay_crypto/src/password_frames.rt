//! Frames and results of the exchange that changes a password. `data/password_frames.py` says what the rows are.

use krb_password_changes::messages::{
    FrameRefusal, ResultCode, Version, frame_bytes, read_frame, read_result, result_bytes,
};
use std::alloc::Global;
use test_support::rows::replay;
use test_support::{Row, Rows, Told};

/// The rows of frames and results.
#[derive(Drop)]
struct Frames;

impl Rows for Frames {
    const COLUMNS: &'static str = " | ";

    fn agrees(&mut self, rt: &HostRuntime, row: &mut Row<'_>) -> anyhow::Result<bool> {
        let alloc = rt.alloc();
        let mut told = Told::new(alloc);
        let _label = row.word();
        match row.word() {
            "read" => tell_read(alloc, row, &mut told),
            "write" => tell_write(alloc, row, &mut told),
            "length" => tell_length(alloc, row, &mut told),
            "carries" => tell_carried(alloc, row, &mut told),
            "result" => tell_result(alloc, row, &mut told),
            _ => row.refuse("a row with another second word"),
        }
        row.want();
        let text = told.text()?;
        Ok(text == row.wanted())
    }
}

/// Tells octets, which may be none.
fn tell_part(octets: &[u8], told: &mut Told) {
    if octets.is_empty() {
        told.put("-");
    } else {
        told.octets(octets);
    }
}

/// Puts the parts of a frame into the row, or the code that refuses it.
fn tell_read(alloc: Global, row: &mut Row<'_>, told: &mut Told) {
    let message = row.octets(alloc);
    match read_frame(&message) {
        Ok(frame) => {
            told.show(&frame.version.number());
            told.put(" ");
            tell_part(frame.ap_message, told);
            told.put(" ");
            tell_part(frame.krb_priv, told);
        }
        Err(code) => told.show(&code),
    }
}

/// The version that a row names by its number.
fn version_in(row: &mut Row<'_>) -> Version {
    match Version::of_number(row.number()) {
        Some(version) => version,
        None => {
            row.refuse("no version");
            Version::ChangePassword
        }
    }
}

/// Tells why no frame was written.
fn tell_refusal(refusal: FrameRefusal, told: &mut Told) {
    told.show(&refusal);
}

/// Puts the frame of two parts into the row.
fn tell_write(alloc: Global, row: &mut Row<'_>, told: &mut Told) {
    let version = version_in(row);
    let ap_message = row.octets(alloc);
    let krb_priv = row.octets(alloc);
    match frame_bytes(alloc, version, &ap_message, &krb_priv) {
        Ok(bytes) => told.octets(&bytes),
        Err(refusal) => tell_refusal(refusal, told),
    }
}

/// So many zeros, or none if memory runs out.
fn zeros(alloc: Global, count: usize) -> Vec<u8> {
    match vec![in alloc; 0u8; count] {
        Ok(octets) => octets,
        Err(_) => Vec::new(alloc),
    }
}

/// Tells how many octets the frame of parts of so many zeros has.
fn tell_length(alloc: Global, row: &mut Row<'_>, told: &mut Told) {
    let ap_message = zeros(alloc, usize::from(row.number::<u16>()));
    let krb_priv = zeros(alloc, usize::from(row.number::<u16>()));
    match frame_bytes(alloc, Version::SetPassword, &ap_message, &krb_priv) {
        Ok(bytes) => told.show(&bytes.len()),
        Err(refusal) => tell_refusal(refusal, told),
    }
}

/// Puts the octets of a result code, named by its number, and a text into the row.
fn tell_carried(alloc: Global, row: &mut Row<'_>, told: &mut Told) {
    let code = ResultCode::of_number(row.number());
    told.show(&code);
    told.put(" ");
    match result_bytes(alloc, code, row.text()) {
        Ok(bytes) => told.octets(&bytes),
        Err(_) => told.put("out of memory"),
    }
}

/// Puts the number and the text that octets carry into the row.
fn tell_result(alloc: Global, row: &mut Row<'_>, told: &mut Told) {
    let octets = row.octets(alloc);
    match read_result(&octets) {
        Some(data) => {
            told.show(&data.number);
            told.put(" ");
            tell_part(data.text, told);
        }
        None => told.put("none"),
    }
}

/// Replays the file of frames and results.
pub(crate) fn replay_password_frames(rt: &HostRuntime) -> anyhow::Result<()> {
    replay(rt, &mut Frames, "password_frames.txt")
}
