// The list of issued challenges that is passed with an opening, as it is read and written.
use authenticator::{Conversation, Settings, Started};
use refusals::Refusal;
use script::Hex;
use std::fmt;

// The buffer is the first size octets, and the first number counts are passed with it. What is
// behind them is 0. (Arrays with a length beside them: what goes on from line to line has a fixed
// memory.)
#[derive(Clone, Copy)]
pub struct List {
    octets: [u8; 1024],
    size: usize,
    used: usize,
    counts: [u16; 512],
    number: usize,
}

impl List {
    // places N: none of them used, octets 00, 256 counts of 0.
    pub(crate) fn empty(places: u8) -> List {
        List {
            octets: [0; 1024],
            size: usize::from(places) * 8,
            used: 0,
            counts: [0; 512],
            number: 256,
        }
    }

    // list BUFFER USED COUNTS. Counts are pairs of octets; an odd last octet is ignored.
    pub(crate) fn read(line: &[u8]) -> List {
        let mut octets = [0u8; 1024];
        let size = script::octets_in(line, 1, &mut octets).len();
        let used = script::number(script::word(line, 2));
        let mut room = [0u8; 1024];
        let (pairs, _odd) = script::octets_in(line, 3, &mut room).as_chunks::<2>();
        let mut counts = [0u16; 512];
        for (count, [high, low]) in counts.iter_mut().zip(pairs) {
            *count = octets::u16_from_be(*high, *low);
        }
        List {
            octets,
            size,
            used,
            counts,
            number: pairs.len(),
        }
    }

    // Opens a conversation on the list, which goes on as the opening leaves it. (Two of its fields
    // cannot be lent at once, so that they are copied.)
    pub(crate) fn open(
        &mut self,
        settings: Settings,
        reply: &mut [u8],
    ) -> Result<Started, Refusal> {
        let mut octets = self.octets;
        let mut counts = self.counts;
        let started = Conversation::open(
            settings,
            &mut octets[..self.size.min(1024)],
            self.used,
            &mut counts[..self.number.min(512)],
            reply,
        )?;
        self.octets = octets;
        self.counts = counts;
        self.used = started.used;
        Ok(started)
    }
}

// USED BUFFER COUNTS: of the first 256 counts those that are not 0, as HH:N with commas between,
// `-` for none. Where fewer are passed, the others are 0.
impl fmt::Display for List {
    fn fmt<W: fmt::Write>(&self, f: &mut fmt::Formatter<W>) -> fmt::Result {
        let buffer = octets::part_of(&self.octets, 0, self.size);
        write!(f, "{} {} ", self.used, Hex(buffer))?;
        let mut is_first = true;
        for (octet, count) in self.counts.iter().take(256).enumerate() {
            if *count != 0 {
                if !is_first {
                    write!(f, ",")?;
                }
                write!(f, "{octet:02X}:{count}")?;
                is_first = false;
            }
        }
        if is_first {
            return write!(f, "-");
        }
        Ok(())
    }
}
