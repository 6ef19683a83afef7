// Rows of six numbers written out as octets, in order: a row set aside is left out, and a group's length is what its kept inside takes.
#![tactic(auto)]

ghost use Rattle.std.specs.Prelude.{◌≡◌, ◌<◌};
ghost use Rattle.rules.specs.Types.{is_group};
ghost use Rattle.emitting.specs.Emits.{HasRow, HasRows, row_at, Sized, sizes_in, Summed, inside_in, HasFourth, fourth_of, Heading, headed, is_received, PutsRow, PutRow, PutsRows, put_rows};

pub use numbers::{Joined, Numbers, Octets};

mod numbers;

// No number over 255 is a type.
pub fn is_group(typ: u16) -> bool
    ensures { result ≡ is_group typ }
{
    match u8::try_from(typ) {
        Ok(typ) => facts::group(facts::table(), typ),
        Err(_) => false,
    }
}

// Where the last octet of an element's header comes from: from before its value in the source, or from its instance.
#[derive(Clone, Copy)]
pub enum Fourth {
    Received,
    Instance,
}

// A row, its numbers by their names.
#[derive(Clone, Copy)]
pub struct Row {
    pub parent: u16,
    pub typ: u16,
    pub inst: u16,
    pub place: u16,
    pub len: u16,
    pub stand: u16,
}

impl Row {
    // Row `n` of those that begin with the first number.
    pub fn read<T: Numbers>(numbers: T, n: usize) -> Row
        requires { HasRow (T.numbers numbers) n }
        ensures { result ≡ row_at (T.numbers numbers) n }
    {
        let at = 6 * n;
        Row {
            parent: numbers.at(at),
            typ: numbers.at(at + 1),
            inst: numbers.at(at + 2),
            place: numbers.at(at + 3),
            len: numbers.at(at + 4),
            stand: numbers.at(at + 5),
        }
    }

    // The octets that it takes of itself. Its standing is a number, as it is lent.
    pub(crate) fn size(self) -> usize
        ensures { Sized self result }
    {
        if self.stand != 0 {
            0
        } else if is_group(self.typ) {
            4
        } else {
            4 + usize::from(self.len)
        }
    }

    // The last octet of its header.
    pub(crate) fn fourth(self, source: &[u8], fourth: Fourth) -> u8
        requires { HasFourth self source.now (is_received fourth) }
        ensures { result ≡ fourth_of self source.now (is_received fourth) }
    {
        match fourth {
            Fourth::Received => source[usize::from(self.place) - 1],
            Fourth::Instance => (self.inst % 256) as u8,
        }
    }
}

// The first `count` rows of a run of numbers.
#[derive(Drop)]
pub struct Rows<T: Numbers> {
    pub numbers: T,
    pub count: usize,
    ghost has: { HasRows (T.numbers numbers) count },
}

impl<T: Numbers> Rows<T> {
    fn row(&self, n: usize) -> Row
        requires { n < self.now.count }
        ensures { result ≡ row_at (T.numbers self.now.numbers) n }
    {
        Row::read(self.numbers, n)
    }

    // The octets that they take.
    pub fn size(&self) -> usize
        ensures { Summed (sizes_in (T.numbers self.now.numbers) 0 self.now.count) self.now.count result }
    {
        let mut sum = 0;
        for n in 0..self.count {
            sum += self.row(n).size();
        }
        sum
    }

    // The octets that the inside of row `n` takes: rows stand depth first, so that it ends before the first row whose parent stands before `n`.
    pub(crate) fn inside(&self, n: usize) -> usize
        requires { n < self.now.count }
        ensures { result ≡ inside_in (T.numbers self.now.numbers) n self.now.count }
    {
        let mut sum = 0;
        for j in n + 1..self.count {
            let row = self.row(j);
            if usize::from(row.parent) <= n {
                return sum;
            }
            sum += row.size();
        }
        sum
    }

    // Row `n`, at `at`; it answers where the next begins.
    pub(crate) fn put_row(
        &self,
        n: usize,
        source: &[u8],
        fourth: Fourth,
        out: &mut [u8],
        at: usize,
    ) -> usize
        requires { PutsRow (T.numbers self.now.numbers) n self.now.count source.now (is_received fourth) out.old at }
        ensures { PutRow (T.numbers self.now.numbers) n self.now.count source.now (is_received fourth) out.old at result out.new }
    {
        let row = self.row(n);
        if row.stand != 0 {
            return at;
        }
        let end = row.fourth(source, fourth);
        if is_group(row.typ) {
            put_header(out, at, row.typ, self.inside(n), end);
            return at + 4;
        }
        let place = usize::from(row.place);
        let len = usize::from(row.len);
        put_header(out, at, row.typ, len, end);
        copying::put_octets(&source[place..place + len], &mut out[at + 4..at + 4 + len]);
        at + 4 + len
    }

    // All of them, from `at` on.
    pub fn put(&self, source: &[u8], fourth: Fourth, out: &mut [u8], at: usize)
        requires { PutsRows (T.numbers self.now.numbers) self.now.count source.now (is_received fourth) out.old at }
        ensures { out.new ≡ put_rows (T.numbers self.now.numbers) self.now.count source.now (is_received fourth) out.old at }
    {
        let mut to = at;
        for n in 0..self.count {
            to = self.put_row(n, source, fourth, out, to);
        }
    }
}

// The header of an element.
pub(crate) fn put_header(out: &mut [u8], at: usize, typ: u16, len: usize, end: u8)
    requires { Heading out.old at typ len }
    ensures { out.new ≡ headed out.old at typ len end }
{
    let [high, low] = (len as u16).to_be_bytes();
    out[at..at + 4].copy_from_slice(&[typ as u8, high, low, end]);
}
