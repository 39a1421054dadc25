// The buffers that C passes: their sizes tested, and one filled.
ghost use Rattle.std.specs.Prelude.{◌≡◌, length};
ghost use Rattle.refusals.specs.Refusal.{number};
ghost use Rattle.layouts.specs.Call.{Fills, sized, both_sized, numbered};

use refusals::Refusal;

// What a call returns for an argument that is not valid.
pub const BAD_ARGUMENT: u32 = 100;

// What a call returns that has a value to return, and was passed none that is valid.
pub const INVALID: u32 = 4294967295;

// What a call returns that is refused.
pub fn refused(refusal: Refusal) -> u32
    ensures { result ≡ number refusal }
{
    u32::from(refusal.number())
}

// Whether a has n bytes and b has m.
pub fn are_sized(a: &[u8], n: usize, b: &[u8], m: usize) -> bool
    ensures { result ≡ both_sized n a.now m b.now }
{
    a.len() == n && b.len() == m
}

// What a call returns that is refused, and would have filled out with size bytes: BAD_ARGUMENT
// where out is of another size.
pub fn refuse(refusal: Refusal, size: usize, out: &[u8]) -> u32
    ensures { result ≡ numbered (sized size out.now) (number refusal) }
{
    if out.len() != size {
        return BAD_ARGUMENT;
    }
    refused(refusal)
}

// Copies bytes into out. Returns the number of the call, which is BAD_ARGUMENT where out is of
// another size.
pub fn fill(bytes: &[u8], out: &mut [u8]) -> u32
    ensures { Fills (sized (length bytes.now) out.old) 0
        bytes.now out.old result out.new }
{
    if out.len() != bytes.len() {
        return BAD_ARGUMENT;
    }
    octets::copy(out, bytes);
    0
}
