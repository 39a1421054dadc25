// Account records and conversations, as they are read and written.
use accounts::{Account, Entry, Hash, Lookup, Schedules};
use authenticator::{Conversation, LastAnswer, Phase, Reply};
use script::{Hex, Keys};
use std::io;
use std::io::Write;
use verify::{ChangeVersion, Terms};

// ---- reading

// The hash that word k names, or none.
fn hash(line: &[u8], k: usize) -> Hash {
    match script::word(line, k) {
        b"-" => accounts::no_hash(),
        _ => accounts::hash_of(script::octets(line, k)),
    }
}

// Mark i of the word of marks.
fn mark(line: &[u8], i: usize) -> bool {
    script::word(line, 3).get(i) == Some(&b'1')
}

// The schedules that word k names: those of a hash, or the numbers themselves; the record's own
// where there is no word k.
fn keys_or(line: &[u8], k: usize, own: Schedules) -> Schedules {
    if script::word(line, k).is_empty() {
        return own;
    }
    if script::names_hash(line, k) {
        return accounts::schedules_for(accounts::hash_of(script::octets(line, k)));
    }
    Schedules {
        keys: script::numbers(line, k),
    }
}

// The record with the schedules that the words NTKEYS LMKEYS name.
fn keyed(line: &[u8], account: Account) -> Account {
    accounts::with_schedules(
        accounts::entry_of(account),
        keys_or(line, 5, account.nt_keys),
        keys_or(line, 6, account.lm_keys),
    )
}

// The record that the words NT LM MARKS COUNT NTKEYS LMKEYS name, after the command; where there is
// no word COUNT, it is 0.
fn account(line: &[u8]) -> Account {
    let account = accounts::account_with(
        hash(line, 1),
        hash(line, 2),
        mark(line, 0),
        mark(line, 1),
        mark(line, 2),
        mark(line, 3),
    );
    keyed(
        line,
        accounts::with_failures(account, script::octet(line, 4)),
    )
}

// The same, or no record where there is one word only.
pub(crate) fn lookup(line: &[u8]) -> Lookup {
    let found = !script::word(line, 2).is_empty();
    accounts::lookup_of(found, account(line))
}

// ---- writing

// A hash's octets, `-` for none.
fn put_hash(output: &mut impl Write, hash: Hash) -> io::Result<()> {
    if hash.present {
        return write!(output, "{}/", Hex(&hash.octets));
    }
    write!(output, "-/")
}

// NT/LM/MARKS/COUNT, each mark as 0 or 1
fn put_entry(output: &mut impl Write, entry: Entry) -> io::Result<()> {
    put_hash(output, entry.nt)?;
    put_hash(output, entry.lm)?;
    let disabled = u8::from(entry.disabled);
    let hours = u8::from(entry.hours_denied);
    let dialin = u8::from(entry.dialin_denied);
    let expired = u8::from(entry.expired);
    write!(
        output,
        "{disabled}{hours}{dialin}{expired}/{}",
        entry.failures
    )
}

// The same, with `-` for no record.
pub(crate) fn put_lookup(output: &mut impl Write, lookup: Lookup) -> io::Result<()> {
    if lookup.found {
        return put_entry(output, accounts::entry_of(lookup.account));
    }
    write!(output, "-")
}

// NTKEYS LMKEYS, with `-` for no record.
pub(crate) fn put_schedules(output: &mut impl Write, lookup: Lookup) -> io::Result<()> {
    if !lookup.found {
        return write!(output, " = -");
    }
    let account = lookup.account;
    let nt_keys = account.nt_keys;
    let lm_keys = account.lm_keys;
    write!(output, " = {} {}", Keys(nt_keys.keys), Keys(lm_keys.keys))
}

// LM LIMIT, with the version of the change behind it where that is 1.
fn put_terms(output: &mut impl Write, terms: Terms) -> io::Result<()> {
    let lm = if terms.lm { "yes" } else { "no" };
    let version = match terms.change {
        ChangeVersion::One => "/1",
        ChangeVersion::Two => "",
    };
    write!(output, " {lm} {}{version} ", terms.limit)
}

// PHASE KEPT
fn put_phase(output: &mut impl Write, phase: Phase, kept: Entry) -> io::Result<()> {
    match phase {
        Phase::Response => write!(output, "response -"),
        Phase::Change => {
            write!(output, "change ")?;
            put_entry(output, kept)
        }
        Phase::Ended => write!(output, "ended -"),
    }
}

// LAST
fn put_last(output: &mut impl Write, last: LastAnswer) -> io::Result<()> {
    if !last.present {
        return write!(output, " -");
    }
    match last.reply {
        Reply::Success => write!(output, " {}:{}:success", last.code, last.id),
        Reply::Failure(reason, retry) => {
            write!(
                output,
                " {}:{}:{reason}/{}",
                last.code,
                last.id,
                u8::from(retry)
            )
        }
    }
}

// ID CHALLENGE RETRIES LM LIMIT PHASE KEPT LAST
pub(crate) fn put_conversation(
    output: &mut impl Write,
    conversation: Conversation,
) -> io::Result<()> {
    let challenge = conversation.challenge;
    write!(
        output,
        " {} {} {}",
        conversation.id,
        Hex(&challenge),
        conversation.retries
    )?;
    put_terms(output, conversation.terms)?;
    put_phase(output, conversation.phase, conversation.kept)?;
    put_last(output, conversation.last)
}
