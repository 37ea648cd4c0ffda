// The fields of an address question.
ghost use Rattle.std.specs.Prelude.{◌++◌};
ghost use Rattle.laws.specs.Reply.{on_reply};
ghost use Rattle.buffers.specs.Putting.{Puts};
ghost use Rattle.translation.specs.Translation.{devices_of, write_reply, read_reply};
ghost use Rattle.answers.specs.Answers.{write_heard, read_answered};
ghost use Rattle.printing.specs.PrintedLines.{remote_text, device_text, devices_text, question_text, reply_text};

use crate::refusal;
use buffers::text;
use translation::{Addressed, Devices, PortDevice, ReadRefusal, Remote, WriteRefusal};

fn put_remote(out: &mut [u8], at: usize, remote: Remote) -> usize
    ensures { Puts out.old at (remote_text remote) out.new result }
{
    match remote {
        Remote::Serializer { address } => {
            let next = buffers::put_byte(out, at, b's');
            text::put_hex(out, next, address)
        }
        Remote::Target { address, .. } => text::put_hex(out, at, address),
    }
}

fn put_device(out: &mut [u8], at: usize, device: PortDevice) -> usize
    ensures { Puts out.old at (device_text device) out.new result }
{
    let remote = device.remote;
    let port = buffers::put_byte(out, at, b' ');
    let colon = text::put_decimal(out, port, device.port as u64);
    let address = buffers::put_byte(out, colon, b':');
    put_remote(out, address, remote)
}

fn put_devices(out: &mut [u8], at: usize, devices: Devices) -> usize
    ensures { Puts out.old at (devices_text (devices_of devices)) out.new result }
{
    let mut next = at;
    for k in 0..4 {
        if let Some(device) = devices.get(k) {
            next = put_device(out, next, device);
        }
    }
    next
}

// "A ", the address, and what follows.
fn put_question(out: &mut [u8], at: usize, address: u8, rest: &[u8]) -> usize
    ensures { Puts out.old at (question_text address rest.now) out.new result }
{
    let hex = buffers::put_bytes(out, at, b"A ");
    let next = text::put_hex(out, hex, address);
    buffers::put_bytes(out, next, rest)
}

// The two questions stay two functions: they share put_question, and one over both would need a trait for what is found
// and a law for its text, which is no plainer than four lines each.
pub(crate) fn put_write_question(
    out: &mut [u8],
    at: usize,
    address: u8,
    answer: Result<Addressed<Devices>, WriteRefusal>,
) -> usize
    ensures { Puts out.old at
        (reply_text (on_reply (write_heard address) (write_reply answer))) out.new result }
{
    match answer {
        Ok(Addressed::Hub) => put_question(out, at, address, b" w hub"),
        Ok(Addressed::NoDevice) => put_question(out, at, address, b" w none"),
        Ok(Addressed::Found(devices)) => {
            let next = put_question(out, at, address, b" w");
            put_devices(out, next, devices)
        }
        Err(refusal) => refusal::put_refusal(out, at, refusal),
    }
}

pub(crate) fn put_read_question(
    out: &mut [u8],
    at: usize,
    address: u8,
    answer: Result<Addressed<PortDevice>, ReadRefusal>,
) -> usize
    ensures { Puts out.old at
        (reply_text (on_reply (read_answered address) (read_reply answer))) out.new result }
{
    match answer {
        Ok(Addressed::Hub) => put_question(out, at, address, b" r hub"),
        Ok(Addressed::NoDevice) => put_question(out, at, address, b" r none"),
        Ok(Addressed::Found(device)) => {
            let next = put_question(out, at, address, b" r");
            put_device(out, next, device)
        }
        Err(refusal) => refusal::put_refusal(out, at, refusal),
    }
}
