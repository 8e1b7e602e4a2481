// How many bytes are assigned.
ghost use Rattle.std.specs.Prelude.{◌≡◌, cond, ◌≤◌};
ghost use Rattle.instructions.specs.Read.{assigned};

use instructions::class::class_of;

// 1 for an assigned byte, else 0.
fn one_if_assigned(byte: u8) -> usize
    ensures { (result ≡ cond (assigned byte) 1 0) × (result ≤ 1) }
{
    if class_of(byte) == 0 {
        return 0;
    }
    1
}

// The assigned bytes, counted one by one: "These are 161 bytes".
pub(crate) fn assigned_bytes() -> usize
    ensures { result ≡ 161 }
{
    let mut n = 0;
    for byte in 0..=255 {
        n += one_if_assigned(byte);
    }
    n
}
