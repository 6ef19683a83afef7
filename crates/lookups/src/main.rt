// Answers lookups, one a line of standard input (its first 65,536 octets count), in the second program's words, so that the answers
// can be compared.
#![tactic(auto)]

use std::io;
use text::{field, long, number, numbers, octets, print_octets, short};

mod text;

// More numbers than the table of a message has.
const NUMBERS: usize = 8192;

// The part is printed also where none was found: it has to be empty there.
fn print_answer(rt: &impl Print, found: bool, part: &[u8]) -> io::Result<()> {
    rt.write_all(if found { b"1 " } else { b"0 " })?;
    print_octets(rt, part)?;
    rt.write_all(b"\n")
}

// plain KIND TYPE INSTANCE MESSAGE TABLE
fn answer_plain(rt: &impl Print, line: &[u8]) -> io::Result<()> {
    let kind = long(field(line, 1));
    let typ = short(field(line, 2));
    let inst = short(field(line, 3));
    let mut message = [0; output::ROOM];
    let message = octets(field(line, 4), &mut message);
    let mut table = [0; NUMBERS];
    let table = numbers(field(line, 5), &mut table);
    let found = lookup::plain_found(kind, typ, inst, message, table);
    print_answer(rt, found, lookup::plain(kind, typ, inst, message, table))
}

// desk KIND ROW RIGHT MESSAGE COPY TABLE
fn answer_desk(rt: &impl Print, line: &[u8]) -> io::Result<()> {
    let kind = long(field(line, 1));
    let row = number(field(line, 2));
    let right = number(field(line, 3)) == 1;
    let mut message = [0; output::ROOM];
    let message = octets(field(line, 4), &mut message);
    let mut copy = [0; output::ROOM];
    let copy = octets(field(line, 5), &mut copy);
    let mut table = [0; NUMBERS];
    let table = numbers(field(line, 6), &mut table);
    let found = lookup::desk_found(kind, row, right, message, copy, table);
    print_answer(
        rt,
        found,
        lookup::desk(kind, row, right, message, copy, table),
    )
}

fn answer(rt: &impl Print, line: &[u8]) -> io::Result<()> {
    match line {
        [] => Ok(()),
        [b'p', ..] => answer_plain(rt, line),
        _ => answer_desk(rt, line),
    }
}

fn main(rt: HostRuntime) -> io::Result<()> {
    let mut text = [0; output::ROOM];
    let n = output::fill(&mut rt.reader(), &mut text)?;
    for line in text[..n].split(|octet| *octet == b'\n') {
        answer(&rt, line)?;
    }
    Ok(())
}
