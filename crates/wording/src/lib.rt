// Text into a lent buffer, octet by octet, as far as the buffer reaches.
#![tactic(auto)]

ghost use Rattle.std.specs.Prelude.{◌≡◌, [], ◌∷◌, ◌+◌, ◌%◌, ◌≤◌, ◌<◌, length};
ghost use Rattle.rules.specs.Program.{digit_at, decimal};
ghost use Rattle.wording.specs.Sheets.{Over, Writes};
ghost use Rattle.wording.specs.Pieces.{gap, left_of_room, right_in, hex_digit, hex, hexes};

// A lent buffer, and where its next octet goes. Its octets are no `Vec`: nothing here takes memory.
#[derive(Drop)]
pub struct Sheet<'a> {
    out: &'a mut [u8],
    at: usize,
}

impl<'a> Sheet<'a> {
    // A buffer from the place `at` on.
    pub fn new(out: &'a mut [u8], at: usize) -> Sheet<'a>
        ensures { Over out.entry at result }
    {
        Sheet { out, at }
    }

    // Where the next octet goes.
    pub fn at(&self) -> usize
        ensures { result ≡ self.now.at }
    {
        self.at
    }

    // One octet; nothing once the buffer is full.
    pub fn put(&mut self, octet: u8)
        ensures { Writes (octet ∷ []) self.old self.new }
    {
        if self.at < self.out.len() {
            self.out[self.at] = octet;
            self.at += 1;
        }
    }

    // The octets of `text`.
    pub fn copy(&mut self, text: &[u8])
        ensures { Writes text.now self.old self.new }
    {
        for &octet in text {
            self.put(octet);
        }
    }

    // The blanks that fill a column beside so many octets.
    pub fn gap(&mut self, width: usize, taken: usize)
        ensures { Writes (gap width taken) self.old self.new }
    {
        for _ in 0..width.saturating_sub(taken) {
            self.put(b' ');
        }
    }

    // An octet in hex.
    pub fn hex(&mut self, octet: u8)
        ensures { Writes (hex octet) self.old self.new }
    {
        self.put(hex_digit(octet / 16));
        self.put(hex_digit(octet % 16));
    }

    // The octets of `part` in hex.
    pub fn hexes(&mut self, part: &[u8])
        ensures { Writes (hexes part.now) self.old self.new }
    {
        for &octet in part {
            self.hex(octet);
        }
    }

    // Words at the left of a column.
    pub fn left(&mut self, text: &[u8], width: usize)
        ensures { Writes (left_of_room width text.now) self.old self.new }
    {
        self.copy(text);
        self.gap(width, text.len());
    }

    // A number in decimal. By hand, since a sheet that is full takes no more and says nothing, where `write!` answers an error.
    pub fn number(&mut self, n: u16)
        ensures { Writes (decimal n) self.old self.new }
    {
        self.digit(n, 10000);
        self.digit(n, 1000);
        self.digit(n, 100);
        self.digit(n, 10);
        self.put(figure(n));
    }

    // The digit at a power of ten, if the number reaches it.
    fn digit(&mut self, n: u16, power: u16)
        requires { 1 ≤ power }
        ensures { Writes (digit_at n power) self.old self.new }
    {
        if power <= n {
            self.put(figure(n / power));
        }
    }

    // A blank and a number.
    pub fn next_number(&mut self, n: u16)
        ensures { Writes (32 ∷ decimal n) self.old self.new }
    {
        self.put(b' ');
        self.number(n);
    }

    // A number at the right of a column.
    pub fn right(&mut self, n: u16, width: usize)
        ensures { Writes (right_in width (decimal n)) self.old self.new }
    {
        self.gap(width, digits(n));
        self.number(n);
    }
}

// The last digit of a number.
fn figure(n: u16) -> u8
    ensures { result ≡ 48 + n % 10 }
{
    b'0' + (n % 10) as u8
}

// How many digits a number has.
fn digits(n: u16) -> usize
    ensures { result ≡ length (decimal n) }
{
    match n {
        0..=9 => 1,
        10..=99 => 2,
        100..=999 => 3,
        1000..=9999 => 4,
        _ => 5,
    }
}

fn hex_digit(x: u8) -> u8
    requires { x < 16 }
    ensures { result ≡ hex_digit x }
{
    match x {
        0..=9 => b'0' + x,
        _ => b'A' - 10 + x,
    }
}
