//! Bytes that stay, while others before them are removed.

ghost use Rattle.std.specs.Prelude.{◌≡◌, ◌+◌, ◌-◌, ◌≤◌, ◌++◌, ℕ, length, take, drop};

/// Moves the bytes from one offset up to another after the first ones, whose number is given. Returns how
/// many there are then.
#[tactic(auto, using(crate::proofs::MovedDown::kept_behind, crate::proofs::MovedDown::left_behind))]
pub(crate) fn keep(memory: &mut [u8], count: usize, from: usize, to: usize) -> usize
    requires behind { count ≤ from }
    requires order { from ≤ to }
    requires within { to ≤ length memory.old }
    ensures count { result ≡ count + (to - from) }
    ensures same_length { length memory.new ≡ length memory.old }
    ensures kept { take result memory.new ≡ take count memory.old ++ take (to - from) (drop from memory.old) }
    ensures left { (place : ℕ) → result ≤ place → drop place memory.new ≡ drop place memory.old }
{
    memory.copy_within(from..to, count);
    count + (to - from)
}
