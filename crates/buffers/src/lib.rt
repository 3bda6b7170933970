// Lent lists of 16-bit numbers: a number of a list, refusal 23, and a list written at the front of an output.
#![tactic(auto)]

ghost use Rattle.std.specs.Prelude.{◌≡◌, ◌++◌, ◌≤◌, get_or, length, drop};
ghost use Rattle.model.specs.Verdict.{tested};
ghost use Rattle.model.specs.Calls.{room_refusal};

use model::{MOST_STEPS, Refusal};

// Number i of the list, 0 past its end; of bytes `grammar::byte`. Each is one line, in the crate of its lists.
pub fn number_at(list: &[u16], i: usize) -> u16
    ensures { result ≡ get_or list.now i 0 }
{
    list.get(i).copied().unwrap_or(0)
}

// Refusal 23: an output of fewer than 96 numbers.
pub fn room_refusal(out: &[u16]) -> Result<(), Refusal>
    ensures { result ≡ tested (room_refusal out.now) }
{
    if out.len() < MOST_STEPS {
        Err(Refusal::Desk(23, 0))
    } else {
        Ok(())
    }
}

// Writes the list at the front of the output, which keeps its numbers past it.
pub fn write_front(list: &[u16], out: &mut [u16])
    requires { length list.now ≤ length out.old }
    ensures { out.new ≡ list.now ++ drop (length list.now) out.old }
{
    out[..list.len()].copy_from_slice(list);
}
