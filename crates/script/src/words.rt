// The words of a line, with single spaces between them, and decimal numbers.

// Word k of a line, counted from 0; no octets where there are fewer words.
pub fn word(line: &[u8], k: usize) -> &[u8] {
    line.split(|c| *c == b' ').nth(k).unwrap_or(&[])
}

// The number that decimal digits make; 0 where one is none of them or there are more than nine.
pub fn number(s: &[u8]) -> usize {
    let mut n: usize = 0;
    for digit in s {
        let d = octets::digit_value(*digit) as usize;
        if 9 < d || 99999999 < n {
            return 0;
        }
        n = n * 10 + d;
    }
    n
}

// The octet that word k gives as a number.
pub fn octet(line: &[u8], k: usize) -> u8 {
    (number(word(line, k)) % 256) as u8
}
