// The line of a fault, in pieces, so that it takes no memory.
ghost use Rattle.std.specs.Prelude.{◌≡◌, ◌≤◌, ◌++◌, OnOk, OnErr};
ghost use Rattle.std.specs.Fmt.{decimal};
ghost use Rattle.byte_ends.specs.Told.{Rose, Grows, GrowsByPrefix};
ghost use Rattle.report.specs.Fault.{cause_of, line_of, detail_bytes, number_at};

use crate::fault::{Detail, Fault};
use byte_ends::{Failed, Sink, write_all};
use capture_terms::CaptureFault;
use itoa::Buffer;

const USAGE: &[u8] =
    b"usage: inspect|journal [--workers N] [--findings N] [--window N] RULES CAPTURE | make SEED FRAMES | trial [--workers N] SEED FRAMES | audit JOURNAL";

/// Appends the line of a fault, with its line feed. It takes no memory.
///
/// `Failed`: a call on the sink failed, so its count rose, and a prefix of the line was appended.
pub fn write_fault<E: Sink>(sink: &mut E, fault: &Fault<'_>) -> Result<(), Failed>
    ensures line { OnOk result (Grows (E.written sink.old) (E.written sink.new) (line_of (cause_of fault.now))) }
    ensures prefix { OnErr result (GrowsByPrefix (E.written sink.old) (E.written sink.new) (line_of (cause_of fault.now))) }
    ensures counts { E.faults sink.old ≤ E.faults sink.new }
    ensures cause { OnErr result (Rose (E.faults sink.old) (E.faults sink.new)) }
{
    let (front, detail, back) = parts_of(fault);
    write_all(sink, front)?;
    write_detail(sink, detail)?;
    write_all(sink, back)
}

fn write_number<E: Sink>(sink: &mut E, number: u64) -> Result<(), Failed>
    ensures all { OnOk result (Grows (E.written sink.old) (E.written sink.new) (decimal number)) }
    ensures prefix { OnErr result (GrowsByPrefix (E.written sink.old) (E.written sink.new) (decimal number)) }
    ensures counts { E.faults sink.old ≤ E.faults sink.new }
    ensures cause { OnErr result (Rose (E.faults sink.old) (E.faults sink.new)) }
{
    let mut buffer = Buffer::new();
    write_all(sink, buffer.format(number).as_bytes())
}

fn write_number_at<E: Sink>(sink: &mut E, number: u64, at: u64) -> Result<(), Failed>
    ensures all { OnOk result (Grows (E.written sink.old) (E.written sink.new) (number_at number at)) }
    ensures prefix { OnErr result (GrowsByPrefix (E.written sink.old) (E.written sink.new) (number_at number at)) }
    ensures counts { E.faults sink.old ≤ E.faults sink.new }
    ensures cause { OnErr result (Rose (E.faults sink.old) (E.faults sink.new)) }
{
    write_number(sink, number)?;
    write_all(sink, b" at ")?;
    write_number(sink, at)
}

fn write_detail<E: Sink>(sink: &mut E, detail: Detail<'_>) -> Result<(), Failed>
    ensures all { OnOk result (Grows (E.written sink.old) (E.written sink.new) (detail_bytes detail.entry)) }
    ensures prefix { OnErr result (GrowsByPrefix (E.written sink.old) (E.written sink.new) (detail_bytes detail.entry)) }
    ensures counts { E.faults sink.old ≤ E.faults sink.new }
    ensures cause { OnErr result (Rose (E.faults sink.old) (E.faults sink.new)) }
{
    match detail {
        Detail::Text(bytes) => write_all(sink, bytes),
        Detail::Number(number) => write_number(sink, number),
        Detail::NumberAt { number, at } => write_number_at(sink, number, at),
    }
}

fn parts_of<'a>(fault: &Fault<'a>) -> (&'static [u8], Detail<'a>, &'static [u8])
    ensures { result.0.now ++ detail_bytes result.1 ++ result.2.now ≡ line_of (cause_of fault.now) }
{
    match *fault {
        Fault::Usage => (USAGE, Detail::Text(b""), b"\n"),
        Fault::Read(name) => (b"read fault: ", Detail::Text(name.as_bytes()), b"\n"),
        Fault::Write => (b"write fault", Detail::Text(b""), b"\n"),
        Fault::Rules { line } => (b"bad rules: line ", Detail::Number(u64::from(line)), b"\n"),
        Fault::Capture(CaptureFault::Header { at }) => (
            b"bad capture: header at ",
            Detail::Number(at),
            b"\n",
        ),
        Fault::Capture(CaptureFault::Version) => (
            b"bad capture: version at 4",
            Detail::Text(b""),
            b"\n",
        ),
        Fault::Capture(CaptureFault::Link { number }) => (
            b"bad capture: link ",
            Detail::Number(u64::from(number)),
            b" at 20\n",
        ),
        Fault::Capture(CaptureFault::Record { at }) => (
            b"bad capture: record at ",
            Detail::Number(at),
            b"\n",
        ),
        Fault::Capture(CaptureFault::Block { at }) => {
            (b"bad capture: block at ", Detail::Number(at), b"\n")
        }
        Fault::Capture(CaptureFault::BlockVersion { at }) => {
            (b"bad capture: version at ", Detail::Number(at), b"\n")
        }
        Fault::Capture(CaptureFault::BlockLink { number, at }) => (
            b"bad capture: link ",
            Detail::NumberAt {
                number: u64::from(number),
                at,
            },
            b"\n",
        ),
        Fault::Capture(CaptureFault::MixedLink { at }) => {
            (b"bad capture: mixed link at ", Detail::Number(at), b"\n")
        }
        Fault::LimitFile(name) => (b"limit: file ", Detail::Text(name.as_bytes()), b"\n"),
        Fault::LimitFrames => (b"limit: frames", Detail::Text(b""), b"\n"),
        Fault::LimitRules => (b"limit: rules", Detail::Text(b""), b"\n"),
        Fault::LimitFindings => (b"limit: findings", Detail::Text(b""), b"\n"),
        Fault::Memory => (b"want of memory", Detail::Text(b""), b"\n"),
        Fault::NotLegal { line } => (b"not legal: line ", Detail::Number(line), b"\n"),
    }
}
