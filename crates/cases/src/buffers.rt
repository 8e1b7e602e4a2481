// Pictures, memories and outputs full of one byte.
ghost use Rattle.std.specs.Prelude.{◌≡◌, length};

// They are made in a function of their own, so that their bytes are not computed where they are used.
pub(crate) fn full<const N: usize>(byte: u8) -> [u8; N]
    ensures { N ≡ length result }
{
    [byte; N]
}

pub(crate) fn zeros<const N: usize>() -> [u8; N]
    ensures { N ≡ length result }
{
    full(0)
}

pub(crate) fn ones<const N: usize>() -> [u8; N]
    ensures { N ≡ length result }
{
    full(255)
}
