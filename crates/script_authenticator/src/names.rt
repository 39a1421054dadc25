// The command of the name in a Response.
use script::Hex;
use std::io;
use std::io::Write;

// DOMAIN ACCOUNT
fn put_names<'a>(output: &mut impl Write, packet: &'a [u8], home: &'a [u8]) -> io::Result<()> {
    let domain = packets::domain(packet, home);
    let account = packets::account(packet);
    write!(output, " = {} {}", Hex(domain), Hex(account))
}

// name PACKET HOME
pub(crate) fn name(output: &mut impl Write, line: &[u8]) -> io::Result<()> {
    let mut packet_room = [0u8; 2048];
    let packet = script::octets_in(line, 1, &mut packet_room);
    let mut home_room = [0u8; 1024];
    let home = script::octets_in(line, 2, &mut home_room);
    put_names(output, packet, home)
}
