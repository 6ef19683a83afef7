// The message laid over the start of a copy.
#![tactic(auto)]

ghost use Rattle.std.specs.Prelude.{◌≡◌, length};
ghost use Rattle.copying.specs.Copying.{laid_over};

// Octets over a part that is as long. One by one, of which the compiler makes moves of many octets or a call of memcpy: `copy_from_slice` would be one of
// memmove, which the card's library does not call.
pub fn put_octets(octets: &[u8], part: &mut [u8])
    requires { length part.old ≡ length octets.now }
    ensures len { length part.new ≡ length part.old }
    ensures after { part.new ≡ octets.now }
{
    for n in 0..octets.len() {
        part[n] = octets[n];
    }
}

// A copy that is shorter than the message is not written.
#[tactic(auto, unfolding(crate::specs::Copying::laid_over, rules::specs::Table::laid))]
pub fn copy_octets(message: &[u8], copy: &mut [u8])
    ensures { copy.new ≡ laid_over message.now copy.old }
{
    if copy.len() < message.len() {
        return;
    }
    put_octets(message, &mut copy[..message.len()]);
}
