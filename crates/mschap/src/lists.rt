// The list of issued challenges: made empty, and how much of it is used.
ghost use Rattle.std.specs.Prelude.{◌≡◌};
ghost use Rattle.mschap.specs.Lists.{bad_places, MakeListCall, is_good_list};
ghost use Rattle.layouts.specs.Call.{value_or};
ghost use Rattle.layouts.specs.Lists.{used_in};

use layouts::{INVALID, LIST_HEAD_SIZE, is_list, places_in, put_list_head, used_in};
use packets::CHALLENGE_SIZE;
use refusals::Refusal;

// The places are not whole, are too many, or fewer than are used.
fn are_bad_places(used: usize, list: &[u8]) -> bool
    ensures { result ≡ bad_places used list.now }
{
    list.len() < LIST_HEAD_SIZE || issued::is_bad_buffer(places_in(list), used, CHALLENGE_SIZE)
}

// Makes list an empty list of as many places as fit. 24: they are not whole, or too many.
#[unsafe(no_mangle)]
#[tactic(auto, unfolding(crate::specs::Lists::make_list_refusal))]
pub extern "C" fn mschap_make_list(list: &mut [u8]) -> u32
    ensures { MakeListCall list.old result list.new }
{
    if are_bad_places(0, list) {
        return u32::from(Refusal::List.number());
    }
    put_list_head(0, list);
    0
}

#[tactic(auto, unfolding(crate::specs::Lists::is_good_list))]
fn is_good_list(list: &[u8]) -> bool
    ensures { result ≡ is_good_list list.now }
{
    is_list(list) && !are_bad_places(used_in(list) as usize, list)
}

// How many places are used.
#[unsafe(no_mangle)]
pub extern "C" fn mschap_list_used(list: &[u8]) -> u32
    ensures { result ≡ value_or (is_good_list list.now) (used_in list.now) }
{
    if !is_good_list(list) {
        return INVALID;
    }
    used_in(list) as u32
}
