// The header of the message that is made.
ghost use Rattle.std.specs.Prelude.{◌≡◌, ◌≤◌};
ghost use Rattle.emitting.specs.Emits.{over};
ghost use Rattle.building.specs.Start.{header_size, start_of, Starts};

// Of 12 octets with a TEID, and of 8 without.
#[derive(Clone, Copy)]
pub(crate) struct Header {
    pub typ: u8,
    pub teid: Option<u32>,
    pub sequence: u32,
    ghost three: { sequence ≤ 16777215 },
}

impl Header {
    pub(crate) fn size(self) -> usize
        ensures { result ≡ header_size self.teid }
    {
        match self.teid {
            Some(_) => 12,
            None => 8,
        }
    }

    // The header of a message of `n` octets.
    pub(crate) fn write(self, n: usize, out: &mut [u8])
        requires { Starts n out.old }
        ensures { out.new ≡ over out.old 0 (start_of self.typ self.teid self.sequence n) }
    {
        let [high, low] = ((n - 4) as u16).to_be_bytes();
        let [_, x, y, z] = self.sequence.to_be_bytes();
        match self.teid {
            Some(teid) => {
                let [a, b, c, d] = teid.to_be_bytes();
                out[..12].copy_from_slice(&[0x48, self.typ, high, low, a, b, c, d, x, y, z, 0]);
            }
            None => out[..8].copy_from_slice(&[0x40, self.typ, high, low, x, y, z, 0]),
        }
    }
}
