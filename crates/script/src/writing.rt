// How octets and results are written.
use refusals::Refusal;
use std::io::Write;
use std::{fmt, io};

// Octets as upper-case hexadecimal digits; `-` for none.
#[derive(Clone, Copy)]
pub struct Hex<'a>(pub &'a [u8]);

impl fmt::Display for Hex<'_> {
    fn fmt<W: fmt::Write>(&self, f: &mut fmt::Formatter<W>) -> fmt::Result {
        if self.0.is_empty() {
            return write!(f, "-");
        }
        // eight octets as one number: standard output has no buffer, and what is padded with zeros
        // is written in two parts
        let (eights, rest) = self.0.as_chunks::<8>();
        for eight in eights {
            write!(f, "{:016X}", octets::u64_from_be(*eight))?;
        }
        for octet in rest {
            write!(f, "{octet:02X}")?;
        }
        Ok(())
    }
}

// The numbers of a key schedule, each in the digits of its eight octets, the most significant
// first; `-` where all are 0.
#[derive(Clone, Copy)]
pub struct Keys(pub [u64; 48]);

impl fmt::Display for Keys {
    fn fmt<W: fmt::Write>(&self, f: &mut fmt::Formatter<W>) -> fmt::Result {
        if self.0.iter().all(|number| *number == 0) {
            return write!(f, "-");
        }
        for number in &self.0 {
            write!(f, "{number:016X}")?;
        }
        Ok(())
    }
}

// A command's result that is octets.
pub fn put_octets(output: &mut impl Write, octets: &[u8]) -> io::Result<()> {
    write!(output, " = {}", Hex(octets))
}

// The same, or why there are none.
pub fn put_result<const N: usize>(
    output: &mut impl Write,
    answer: Result<[u8; N], Refusal>,
) -> io::Result<()> {
    match answer {
        Ok(octets) => put_octets(output, &octets),
        Err(refusal) => write!(output, " = refused {refusal}"),
    }
}

// What was written to a buffer, as REFUSAL WRITTEN BUFFER; the refusal is 0 where there is none.
pub fn put_written(
    output: &mut impl Write,
    written: Result<usize, Refusal>,
    buffer: &[u8],
) -> io::Result<()> {
    match written {
        Ok(n) => write!(output, " = 0 {n} {}", Hex(buffer)),
        Err(refusal) => write!(output, " = {refusal} 0 {}", Hex(buffer)),
    }
}
