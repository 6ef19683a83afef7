// The text of a lookup: fields with blanks between them, octets in hex, numbers in decimal, commas between those of a table. `-` is
// an empty field. What is no such text is read as something, and never outside of what is lent.
ghost use Rattle.std.specs.Prelude.{◌≤◌, ◌<◌, length};

use std::io;
use wording::Sheet;

// Field `k` of a line, from 0; the empty part if there are fewer.
pub(crate) fn field<'a>(line: &'a [u8], k: usize) -> &'a [u8] {
    line.split(|octet| *octet == b' ').nth(k).unwrap_or(&[])
}

// The value of a hex digit.
fn nibble(digit: u8) -> u8
    ensures { result < 16 }
{
    if digit < b'A' {
        digit % 16
    } else {
        (digit % 16 + 9) % 16
    }
}

// The octets of a field, as many as there is room for.
pub(crate) fn octets<'a>(digits: &[u8], room: &'a mut [u8]) -> &'a [u8]
    ensures { length result.now ≤ length room.old }
{
    for (octet, pair) in room.iter_mut().zip(digits.chunks_exact(2)) {
        *octet = nibble(pair[0]) * 16 + nibble(pair[1]);
    }
    let n = room.len().min(digits.len() / 2);
    &room[..n]
}

// A number, or the largest if that is too much.
pub(crate) fn number(digits: &[u8]) -> usize {
    let mut value: usize = 0;
    for digit in digits {
        value = value
            .saturating_mul(10)
            .saturating_add(usize::from(digit % 16));
    }
    value
}

// A number as one of 16 bits, or the largest of those.
pub(crate) fn short(digits: &[u8]) -> u16 {
    u16::try_from(number(digits)).unwrap_or(u16::MAX)
}

// The same with 32 bits: one line each, where one for both would want a trait for the largest.
pub(crate) fn long(digits: &[u8]) -> u32 {
    u32::try_from(number(digits)).unwrap_or(u32::MAX)
}

// The numbers of a table, as many as there is room for. A comma at the end begins no number. How many there are is known at the end alone.
pub(crate) fn numbers<'a>(digits: &[u8], room: &'a mut [u16]) -> &'a [u16]
    ensures { length result.now ≤ length room.old }
{
    let mut n = 0;
    if !matches!(digits, [] | [b'-']) {
        let digits = digits.strip_suffix(b",").unwrap_or(digits);
        for part in digits.split(|octet| *octet == b',') {
            if n == room.len() {
                break;
            }
            room[n] = short(part);
            n += 1;
        }
    }
    &room[..n]
}

// The octets of a part in hex, two digits each.
pub(crate) fn print_octets(rt: &impl Print, part: &[u8]) -> io::Result<()> {
    let mut out = [0; 2 * output::ROOM];
    let mut sheet = Sheet::new(&mut out, 0);
    sheet.hexes(part);
    let n = sheet.at();
    rt.write_all(output::first(&out, n))
}
