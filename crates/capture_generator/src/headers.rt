// The headers in a generated capture.
ghost use Rattle.std.specs.Prelude.{◌≡◌, ◌<◌, ◌≤◌, ◌^◌, ◌++◌, IfOk};
ghost use Rattle.capture_generator.specs.Headers.{ipv4_back, ipv4_front, length_fields, time_fields, udp_header};

use std::alloc::AllocError;

/// Appends the first half of a record header: the packet was captured at `seconds`.
pub(crate) fn push_time(bytes: &mut Vec<u8>, seconds: u32) -> Result<(), AllocError>
    ensures { IfOk result (λ _. bytes.new.items ≡ bytes.old.items ++ time_fields seconds) }
{
    bytes.extend_from_slice(&seconds.to_le_bytes())?;
    bytes.extend_from_slice(&[0, 0, 0, 0])
}

/// Appends the second half of a record header: the packet is whole, of `length` bytes.
pub(crate) fn push_lengths(bytes: &mut Vec<u8>, length: u32) -> Result<(), AllocError>
    ensures { IfOk result (λ _. bytes.new.items ≡ bytes.old.items ++ length_fields length) }
{
    bytes.extend_from_slice(&length.to_le_bytes())?;
    bytes.extend_from_slice(&length.to_le_bytes())
}

/// Appends the first 8 bytes of an IPv4 header. The fragment is where it begins, in units of
/// 8 bytes, and the mark that others come behind it; the length is that of the data.
pub(crate) fn push_ipv4_front(
    bytes: &mut Vec<u8>,
    datagram: u32,
    fragment: u16,
    length: u16,
) -> Result<(), AllocError>
    requires { length < 65516 }
    ensures { IfOk result (λ _. bytes.new.items ≡ bytes.old.items ++ ipv4_front datagram fragment length) }
{
    bytes.extend_from_slice(&[0x45, 0])?;
    bytes.extend_from_slice(&(20 + length).to_be_bytes())?;
    bytes.extend_from_slice(&((datagram % 0x1_0000) as u16).to_be_bytes())?;
    bytes.extend_from_slice(&fragment.to_be_bytes())
}

/// Appends the other 12 bytes of an IPv4 header: UDP from the datagram's address to 192.0.2.1.
pub(crate) fn push_ipv4_back(bytes: &mut Vec<u8>, datagram: u32) -> Result<(), AllocError>
    requires { datagram < 2 ^ 24 }
    ensures { IfOk result (λ _. bytes.new.items ≡ bytes.old.items ++ ipv4_back datagram) }
{
    bytes.extend_from_slice(&[64, 17, 0, 0])?;
    bytes.extend_from_slice(&(0x0a00_0000 + datagram).to_be_bytes())?;
    bytes.extend_from_slice(&[192, 0, 2, 1])
}

/// Appends the UDP header of a datagram, by its number, that has so many letters.
pub(crate) fn push_udp_header(
    bytes: &mut Vec<u8>,
    datagram: u32,
    letters: u8,
) -> Result<(), AllocError>
    ensures { IfOk result (λ _. bytes.new.items ≡ bytes.old.items ++ udp_header datagram letters) }
{
    let port: u16 = if datagram % 2 == 0 { 53 } else { 9 };
    bytes.extend_from_slice(&[15, 160])?;
    bytes.extend_from_slice(&port.to_be_bytes())?;
    bytes.extend_from_slice(&(8 + u16::from(letters)).to_be_bytes())?;
    bytes.extend_from_slice(&[0, 0])
}
