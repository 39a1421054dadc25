// Where a packet ends, and where the two parts of a Response's name stand in it, for the lookup of
// the account.
ghost use Rattle.std.specs.Prelude.{◌≡◌, cond};
ghost use Rattle.packets.specs.Frame.{bad_frame, length_of};
ghost use Rattle.packets.specs.Name.{domain_part, account_part, standing};

// The Length field; 0 where it is no packet's.
#[unsafe(no_mangle)]
pub extern "C" fn mschap_packet_length(packet: &[u8]) -> usize
    ensures { result
        ≡ cond (bad_frame packet.now) 0 (length_of packet.now) }
{
    if packets::is_bad_frame(packet) {
        return 0;
    }
    packets::length(packet)
}

// Where the account begins; 0 where the packet is refused.
#[unsafe(no_mangle)]
pub extern "C" fn mschap_account_offset(packet: &[u8]) -> usize
    ensures { result ≡ (standing (account_part packet.now)).offset }
{
    packets::account_part(packet).map_or(0, |part| part.offset)
}

// How many bytes the account has there.
#[unsafe(no_mangle)]
pub extern "C" fn mschap_account_length(packet: &[u8]) -> usize
    ensures { result ≡ (standing (account_part packet.now)).length }
{
    packets::account_part(packet).map_or(0, |part| part.length)
}

// Where the domain begins; 0 where the name has no backslash, or the packet is refused.
#[unsafe(no_mangle)]
pub extern "C" fn mschap_domain_offset(packet: &[u8]) -> usize
    ensures { result ≡ (standing (domain_part packet.now)).offset }
{
    packets::domain_part(packet).map_or(0, |part| part.offset)
}

// How many bytes the domain has there.
#[unsafe(no_mangle)]
pub extern "C" fn mschap_domain_length(packet: &[u8]) -> usize
    ensures { result ≡ (standing (domain_part packet.now)).length }
{
    packets::domain_part(packet).map_or(0, |part| part.length)
}
