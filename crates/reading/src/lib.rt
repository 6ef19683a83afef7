// The reading of a message: checks 1 to 9, and the rows of every element in octet order.
#![tactic(auto)]

ghost use Rattle.std.specs.Prelude.{◌≡◌, ◌≤◌};
ghost use Rattle.rules.specs.Answers.{Read, refused_reading};
ghost use Rattle.rules.specs.Verdicts.{refused_at};
ghost use Rattle.reading.specs.Gaps.{Named};
ghost use Rattle.reading.specs.Scan.{whole_reading, reading_by};

use answers::Refusal;
use rules::{Reading, Verdict};
use taking::{Counts, Tally};

mod run;

// The place and the pair, type and instance, that a number names: 0 names none.
pub(crate) fn unpack(f: usize) -> Option<(u16, u16, u16)>
    ensures { Named f result }
{
    let n = f.checked_sub(1)?;
    let place = (n / 4096 % 65536) as u16;
    Some((place, (n / 16 % 256) as u16, (n % 16) as u16))
}

pub fn refused(v: Verdict) -> Reading
    ensures { result ≡ refused_reading v }
{
    Reading {
        refusal: v,
        rows: 0,
        kept: 0,
        short: answers::accept(),
        lack: answers::accept(),
    }
}

// A run that is cut at a place: 9.
pub fn cut_at(place: usize) -> Verdict
    requires { place ≤ 4096 }
    ensures { result ≡ refused_at 9 67 place 0 0 }
{
    Refusal::Cut {
        place: place as u16,
    }
    .verdict()
}

// The reading of a whole message: what is short is 11, what is missing 12.
#[tactic(auto, unfolding(crate::specs::Scan::whole_reading, crate::specs::Gaps::unpacked))]
pub fn whole(counts: Counts) -> Reading
    ensures { result ≡ whole_reading counts }
{
    let none = answers::accept();
    let short = unpack(counts.short);
    let lack = unpack(counts.gap);
    Reading {
        refusal: none,
        rows: counts.rows,
        kept: counts.kept,
        short: short.map_or(
            none,
            |(place, typ, inst)| Refusal::Short { place, typ, inst }.verdict(),
        ),
        lack: lack.map_or(
            none,
            |(place, typ, inst)| Refusal::Missing { place, typ, inst }.verdict(),
        ),
    }
}

// What is counted over all elements of a message, or what refuses it by 1 to 9.
pub(crate) fn walk(kind: u32, message: &[u8], rows: &mut [u16]) -> Result<Counts, Refusal>
    ensures { Read kind message.now rows.old (reading_by result) rows.new }
{
    heading::opening(kind, message, message.len())?;
    let at = heading::start(message);
    let level = heading::body(message);
    let mut tally = Tally {
        counts: Counts::default(),
        rows,
    };
    run::read_run(kind, level, &message[at..], 0, at, 0, &mut tally)?;
    Ok(tally.counts)
}

// Checks 1 to 9 of a message on a kind, and the six numbers of each of its elements, as many as there is room for.
pub fn read(kind: u32, message: &[u8], rows: &mut [u16]) -> Reading
    ensures { Read kind message.now rows.old result rows.new }
{
    match walk(kind, message, rows) {
        Ok(counts) => whole(counts),
        Err(refusal) => refused(refusal.verdict()),
    }
}
