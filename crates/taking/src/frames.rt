// The elements directly inside a value, by their headers alone: does a group hold more APNs than it may?
ghost use Rattle.std.specs.Prelude.{◌≡◌, ◌≤◌, ◌&&◌, length};
ghost use Rattle.listings.specs.Data.{limited_in};
ghost use Rattle.taking.specs.Frames.{crowd, IsApn};

use crate::{element, line};

// 1 for an APN (71/0), else 0.
pub fn apns(typ: u8, inst: u8) -> usize
    ensures { IsApn typ inst result }
{
    usize::from(typ == 71 && inst == 0)
}

// Do elements fill the value, and are more than ten of them APNs? Each element says where the next begins, so that this counts up by no step of its own.
pub(crate) fn crowded(value: &[u8]) -> bool
    requires { length value.now ≤ 4096 }
    ensures { result ≡ crowd value.now }
{
    let mut at = 0;
    let mut n = 0;
    while at < value.len() {
        let Some(h) = element::look(value, at) else {
            return false;
        };
        n += apns(h.typ, h.inst);
        at += 4 + h.len;
    }
    10 < n
}

// Does the value hold more than its line lets stand?
pub(crate) fn is_over(line: u32, value: &[u8]) -> bool
    requires { length value.now ≤ 4096 }
    ensures { result ≡ limited_in line && crowd value.now }
{
    line::limited(line) && crowded(value)
}
