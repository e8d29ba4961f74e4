// Bytes that are put into a lent output: where there is room for them, else as far as the output goes.
ghost use Rattle.std.specs.Prelude.{◌≡◌, ◌+◌, ◌<◌, ◌≤◌, [], ◌∷◌, length, nat_le};
ghost use Rattle.text.specs.Output.{output, put_byte, put, Wrote};

#[tactic(auto, unfolding(crate::specs::Output::written))]
pub(crate) fn byte(out: &mut [u8], at: usize, b: u8) -> usize
    requires { at < length out.old }
    ensures { Wrote out.old at (b ∷ []) out.new result }
{
    out[at] = b;
    at + 1
}

pub(crate) fn two(out: &mut [u8], at: usize, a: u8, b: u8) -> usize
    requires { at + 2 ≤ length out.old }
    ensures { Wrote out.old at (a ∷ b ∷ []) out.new result }
{
    let next = byte(out, at, a);
    byte(out, next, b)
}

// A byte past the output's end is left out.
#[tactic(auto, unfolding(crate::specs::Output::put_byte))]
fn put_byte(out: &mut [u8], at: usize, b: u8) -> usize
    ensures { output out.new result ≡ put_byte (output out.old at) b }
{
    if at < out.len() {
        out[at] = b;
        at + 1
    } else {
        at
    }
}

// Any text, as far as the output goes.
pub(crate) fn put(out: &mut [u8], at: usize, text: &[u8]) -> usize
    ensures { output out.new result ≡ put (output out.old at) text.now }
{
    let mut next = at;
    for b in text {
        next = put_byte(out, next, *b);
    }
    next
}

pub(crate) fn roomy(size: usize, at: usize) -> bool
    ensures { result ≡ nat_le (at + 64) size }
{
    at <= size && 64 <= size - at
}
