// The lit frame in rows of characters: rows 0 to 63 are the commons, row 64 is the icon row.
ghost use Rattle.std.specs.Prelude.{◌≡◌, false, ◌+◌, ◌≤◌, ◌<◌, length};
ghost use Rattle.paper.specs.Sheet.{sheet0713};
ghost use Rattle.paper.specs.Listed.{listed};
ghost use Rattle.registers.specs.Registers.{outside};
ghost use Rattle.glass.specs.Frame.{frame_of};
ghost use Rattle.viewer.specs.Drawn.{glyph};

use glass::bit::bit_of;
use glass::frame::frame;
use input::room;
use jobs::memory::Memory;
use paper::sheet::Ks0713;
use registers::Registers;

// A frame: bit b of byte 132 * strip + segment is row 8 * strip + b under that segment.
type Frame = [u8; 1188];

// The lit frame.
pub(crate) fn lit_frame(registers: Registers, memory: &Memory) -> Frame
    requires { outside sheet0713 registers ≡ false }
    ensures { result ≡ frame_of sheet0713 registers memory.now }
{
    let mut out = room::<1188>();
    frame::<Ks0713>(registers, memory, &mut out).unwrap();
    out
}

// A row of a frame, and the characters for its lit dots and its dark ones.
#[derive(Drop)]
struct Row<'a> {
    frame: &'a Frame,
    row: usize,
    lit: u8,
    dark: u8,
    ghost fits: { row ≤ 64 },
}

impl<'a> Row<'a> {
    // The character of the dot under a segment.
    #[tactic(auto, unfolding(crate::specs::Drawn::glyph))]
    fn character(&self, segment: usize) -> u8
        requires { segment < 132 }
        ensures { result ≡ glyph self.now.frame.now self.now.row segment self.now.lit self.now.dark }
    {
        if bit_of(self.frame[132 * (self.row / 8) + segment], self.row % 8) {
            self.lit
        } else {
            self.dark
        }
    }

    // The characters from a segment on, as many as `line` holds.
    fn put(&self, from: usize, line: &mut [u8])
        requires { from + length line.old ≤ 132 }
        ensures { line.new ≡ listed (λ k. glyph self.now.frame.now self.now.row (from + k) self.now.lit self.now.dark) 0 (length line.old) }
    {
        for (i, place) in line.iter_mut().enumerate() {
            *place = self.character(from + i);
        }
    }

    // A line: the characters from a segment on, and the end of the line.
    fn write<const N: usize>(&self, rt: &impl Print, from: usize) -> bool
        requires { (1 ≤ N) × (from + N ≤ 133) }
    {
        let mut line = [0u8; N];
        self.put(from, &mut line[..N - 1]);
        line[N - 1] = b'\n';
        rt.write_all(&line).is_ok()
    }
}

// A row drawn: one line.
fn drawn_row(rt: &impl Print, frame: &Frame, row: usize) -> bool
    requires { row ≤ 64 }
{
    let row = Row {
        frame,
        row,
        lit: b'#',
        dark: b'.',
    };
    row.write::<133>(rt, 0)
}

// A row of a PBM picture, which has no line of more than 70 characters: two lines, half a row each.
fn pbm_row(rt: &impl Print, frame: &Frame, row: usize) -> bool
    requires { row ≤ 64 }
{
    let row = Row {
        frame,
        row,
        lit: b'1',
        dark: b'0',
    };
    row.write::<67>(rt, 0) & row.write::<67>(rt, 66)
}

// Draws a frame, all 65 rows as far as they can be written, and answers whether they could.
pub(crate) fn glass(rt: &impl Print, frame: &Frame) -> bool {
    (0..65).all(|row| drawn_row(rt, frame, row))
}

// Writes a frame as a plain PBM picture, and answers whether it could be written.
pub(crate) fn pbm(rt: &impl Print, frame: &Frame) -> bool {
    rt.write_all(b"P1\n132 65\n").is_ok() & (0..65).all(|row| pbm_row(rt, frame, row))
}
