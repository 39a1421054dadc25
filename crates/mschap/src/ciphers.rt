// The ciphers, MD4 and the challenge response.
ghost use Rattle.std.specs.Prelude.{◌≡◌, ◌&&◌};
ghost use Rattle.refusals.specs.Refusal.{told};
ghost use Rattle.md4.specs.Md4.{md4_answer};
ghost use Rattle.rc4.specs.Rc4.{key_refusal, crypted};
ghost use Rattle.des.specs.Des.{des_encrypt, des_decrypt};
ghost use Rattle.credentials.specs.Credentials.{response_of};
ghost use Rattle.layouts.specs.Call.{Fills, sized, both_sized};
ghost use Rattle.mschap.specs.Answers.{octets_or_zeros};
ghost use Rattle.mschap.specs.Sizes.{digest_size, key_size, des_block_size};
ghost use Rattle.packets.specs.Sizes.{hash_size, challenge_size, answer_size};

use layouts::{BAD_ARGUMENT, are_sized, fill, refuse, refused};
use packets::{CHALLENGE_SIZE, HASH_SIZE};
use refusals::Refusal;

const KEY_SIZE: usize = 7;

const DES_BLOCK_SIZE: usize = 8;

// Fills a buffer with the bytes of an answer, or leaves it. Returns the number of the call.
pub(crate) fn fill_answer<const N: usize>(answer: Result<[u8; N], Refusal>, out: &mut [u8]) -> u32
    ensures { Fills (sized N out.old) (told answer.entry) (octets_or_zeros N answer.entry)
        out.old result out.new }
{
    match answer {
        Ok(octets) => fill(&octets, out),
        Err(refusal) => refuse(refusal, N, out),
    }
}

// The MD4 digest of at most 4,096 bytes. 8: more bytes.
#[unsafe(no_mangle)]
pub extern "C" fn mschap_md4(input: &[u8], digest: &mut [u8]) -> u32
    ensures { Fills (sized digest_size digest.old)
        (told (md4_answer input.now)) (octets_or_zeros digest_size (md4_answer input.now))
        digest.old result digest.new }
{
    fill_answer(md4::md4(input), digest)
}

// RC4 in place, with a key of 1 to 256 bytes. 8: another key.
#[unsafe(no_mangle)]
pub extern "C" fn mschap_rc4(key: &[u8], octets: &mut [u8]) -> u32
    ensures { (result ≡ key_refusal key.now)
        × (octets.new ≡ crypted key.now octets.old) }
{
    match rc4::rc4(key, octets) {
        Ok(()) => 0,
        Err(refusal) => refused(refusal),
    }
}

// DES of a block in place, with a key of seven bytes.
#[unsafe(no_mangle)]
pub extern "C" fn mschap_des_encrypt(key: &[u8], block: &mut [u8]) -> u32
    ensures { Fills
        (both_sized key_size key.now des_block_size block.old)
        0 (des_encrypt key.now block.old)
        block.old result block.new }
{
    if !are_sized(key, KEY_SIZE, block, DES_BLOCK_SIZE) {
        return BAD_ARGUMENT;
    }
    let result = des::encrypt(octets::array_at(key, 0), octets::array_at(block, 0));
    fill(&result, block)
}

// The inverse of mschap_des_encrypt.
#[unsafe(no_mangle)]
pub extern "C" fn mschap_des_decrypt(key: &[u8], block: &mut [u8]) -> u32
    ensures { Fills
        (both_sized key_size key.now des_block_size block.old)
        0 (des_decrypt key.now block.old)
        block.old result block.new }
{
    if !are_sized(key, KEY_SIZE, block, DES_BLOCK_SIZE) {
        return BAD_ARGUMENT;
    }
    let result = des::decrypt(octets::array_at(key, 0), octets::array_at(block, 0));
    fill(&result, block)
}

// The response of a hash to a challenge.
#[unsafe(no_mangle)]
pub extern "C" fn mschap_challenge_response(
    hash: &[u8],
    challenge: &[u8],
    response: &mut [u8],
) -> u32
    ensures { Fills
        (both_sized hash_size hash.now challenge_size challenge.now
        && sized answer_size response.old)
        0 (response_of hash.now challenge.now)
        response.old result response.new }
{
    if !are_sized(hash, HASH_SIZE, challenge, CHALLENGE_SIZE) {
        return BAD_ARGUMENT;
    }
    let result = credentials::challenge_response(
        octets::array_at(hash, 0),
        octets::array_at(challenge, 0),
    );
    fill(&result, response)
}
