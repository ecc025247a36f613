//! Reading a capture.
ghost use Rattle.std.specs.Prelude.{◌≡◌, ℕ, ◌<◌, ◌≤◌, ◌/◌, ◌*◌, ◌+◌, ◌^◌, length, All, IfOk, MatchResult, Ok, Err, drop, nat_le, nat_lt, ◌||◌};
ghost use Rattle.mt_pcap.specs.Format.{number, nanoseconds_in, second, longest};
ghost use Rattle.mt_pcap.specs.Capture.{capture_of, header_of, record_at, all_records};
ghost use Rattle.mt_pcap.specs.Capture.{IsOfBytes};

use crate::fault::PcapFault;
use crate::form::{Form, LONGEST, SECOND, form_of};
use mt_packet::Frame;
use std::alloc::{AllocError, Global};

/// The length of a capture's header.
pub(crate) const HEADER_LENGTH: usize = 24;

/// The length of a record's head, which stands before the bytes of its frame.
pub(crate) const HEAD_LENGTH: usize = 16;

/// The link type of Ethernet.
const ETHERNET: u32 = 1;

/// What a file is as a capture.
#[derive(Drop)]
pub struct WholeCapture {
    /// The records before the fault, or all: the time at which each frame was captured, in
    /// nanoseconds since 1970-01-01 UTC, and the frame.
    pub records: Vec<(u64, Frame)>,
    /// What ended the capture before the end of the file.
    pub end: Option<PcapFault>,
}

/// The form that a capture's header tells. The link type is the header's last number.
#[tactic(auto, unfolding(crate::specs::Capture::header_of))]
pub(crate) fn header_of(bytes: &[u8]) -> Result<Form, PcapFault>
    ensures value { result ≡ header_of bytes.now }
    ensures long { IfOk result (λ _. 24 ≤ length bytes.now) }
{
    if bytes.len() < HEADER_LENGTH {
        return Err(PcapFault::NotPcap);
    }
    let form = match form_of(bytes) {
        None => return Err(PcapFault::NotPcap),
        Some(form) => form,
    };
    let link = form.order.number(&bytes[20..]) % 65_536;
    if link == ETHERNET {
        Ok(form)
    } else {
        Err(PcapFault::WrongLink(link as u16))
    }
}

/// What the head of a record tells, which is four numbers of four bytes each: the seconds, the
/// fraction of a second, here in nanoseconds, and how many bytes of the frame follow. The fourth, how
/// long the frame was on the wire, is not looked at.
#[derive(Clone, Copy)]
pub(crate) struct RecordHead {
    pub(crate) seconds: u32,
    pub(crate) fraction: u64,
    pub(crate) captured: u32,
}

impl RecordHead {
    /// Whether the fraction is a second or more, or the frame is too long.
    pub(crate) fn is_improper(&self) -> bool
        ensures { result ≡ (nat_le second self.now.fraction || nat_lt longest self.now.captured) }
    {
        self.fraction >= SECOND || self.captured > LONGEST
    }
}

/// The head at the front of the bytes.
pub(crate) fn head_of(form: Form, bytes: &[u8]) -> RecordHead
    requires { HEAD_LENGTH ≤ length bytes.now }
    ensures seconds { result.seconds ≡ number form.order bytes.now }
    ensures fraction { result.fraction
        ≡ number form.order (drop 4 bytes.now) * nanoseconds_in form.resolution }
    ensures captured { result.captured ≡ number form.order (drop 8 bytes.now) }
{
    let fraction = u64::from(form.order.number(&bytes[4..])) * form.resolution.nanoseconds();
    RecordHead {
        seconds: form.order.number(bytes),
        fraction,
        captured: form.order.number(&bytes[8..]),
    }
}

/// The record at the front of the bytes, which begin at an offset in the file: its time in
/// nanoseconds, the bytes of its frame, and the bytes behind it.
#[tactic(auto, unfolding(crate::specs::Capture::record_at))]
fn record_at(form: Form, offset: u64, bytes: &[u8]) -> Result<(u64, &[u8], &[u8]), PcapFault>
    ensures { MatchResult result
        (λ x. record_at form offset bytes.now ≡ Ok ((x.0, x.1.now), x.2.now))
        (λ fault. record_at form offset bytes.now ≡ Err fault) }
{
    if bytes.len() < HEAD_LENGTH {
        return Err(PcapFault::Torn(offset));
    }
    let head = head_of(form, bytes);
    if head.is_improper() {
        return Err(PcapFault::BadRecord(offset));
    }
    let behind = &bytes[HEAD_LENGTH..];
    let captured = head.captured as usize;
    if behind.len() < captured {
        return Err(PcapFault::Torn(offset));
    }
    let (data, rest) = behind.split_at(captured);
    let stamp = u64::from(head.seconds) * SECOND + head.fraction;
    Ok((stamp, data, rest))
}

/// The records behind the header.
fn records_of(alloc: Global, form: Form, bytes: &[u8]) -> Result<WholeCapture, AllocError>
    requires { 24 ≤ length bytes.now }
    ensures records { IfOk result
        (λ c. c.records.items ≡ (all_records form 24 (drop 24 bytes.now)).records) }
    ensures end { IfOk result (λ c. c.end ≡ (all_records form 24 (drop 24 bytes.now)).end) }
{
    let mut records = Vec::new(alloc);
    let mut rest = &bytes[HEADER_LENGTH..];
    while !rest.is_empty() {
        let offset = (bytes.len() - rest.len()) as u64;
        match record_at(form, offset, rest) {
            Err(fault) => {
                return Ok(WholeCapture {
                    records,
                    end: Some(fault),
                });
            }
            Ok((stamp, data, after)) => {
                records.push((stamp, Frame::new(Vec::from_slice(alloc, data)?)))?;
                rest = after;
            }
        }
    }
    Ok(WholeCapture { records, end: None })
}

/// What the bytes are as a capture.
#[tactic(auto, unfolding(crate::specs::Capture::capture_of))]
fn read(alloc: Global, bytes: &[u8]) -> Result<WholeCapture, AllocError>
    ensures records { IfOk result (λ c. c.records.items ≡ (capture_of bytes.now).records) }
    ensures end { IfOk result (λ c. c.end ≡ (capture_of bytes.now).end) }
{
    match header_of(bytes) {
        Ok(form) => records_of(alloc, form, bytes),
        Err(fault) => Ok(WholeCapture {
            records: Vec::new(alloc),
            end: Some(fault),
        }),
    }
}

/// Reads a whole capture: a header with any of the four magic numbers, then records. The low 16
/// bits of the link type must be 1; version, zone, sigfigs, snaplen and the original lengths are not
/// looked at. At each record the faults are looked for in this order: its head is cut; its fraction
/// is a second or more, or it has more than 262,144 captured bytes; its data is cut. Each frame is
/// copied once.
pub fn whole(alloc: Global, bytes: &[u8]) -> Result<WholeCapture, AllocError>
    ensures records { IfOk result (λ c. c.records.items ≡ (capture_of bytes.now).records) }
    ensures end { IfOk result (λ c. c.end ≡ (capture_of bytes.now).end) }
    ensures seconds_fit { IfOk result
        (λ c. All (λ r. r.0 / 1000000000 < 2 ^ 32) c.records.items) }
    ensures lengths { IfOk result (λ c. All (λ r. length r.1 ≤ 262144) c.records.items) }
    ensures few { IfOk result (λ c. 16 * length c.records.items ≤ length bytes.now) }
    ensures named { IfOk result (λ c. IsOfBytes c.end) }
{
    read(alloc, bytes)
}
