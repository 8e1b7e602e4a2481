// The KS0717's instructions by number, read and written.
ghost use Rattle.paper.specs.Sheet.{sheet0717};
ghost use Rattle.face.specs.Bytes.{ReadOut, WriteOut};

use face::bytes::{read_by, tell_read, write_by};
use face::value::tell_value;
use paper::sheet::Ks0717;

// Writes an instruction by its number and value as a byte. Refuses with 6.
#[unsafe(no_mangle)]
pub extern "C" fn panel0717_write_instruction(number: u8, value: u8, byte: &mut u8) -> u8
    ensures { WriteOut sheet0717 number value byte.old byte.new result }
{
    tell_value(write_by::<Ks0717>(number, value), byte)
}

// Reads one byte as an instruction's number and value. Refuses with 2, 4.
#[unsafe(no_mangle)]
pub extern "C" fn panel0717_read_instruction(
    awaited: u8,
    byte: u8,
    number: &mut u8,
    value: &mut u8,
) -> u8
    ensures { ReadOut sheet0717 awaited byte (number.old, value.old) (number.new, value.new) result }
{
    tell_read(read_by::<Ks0717>(awaited, byte), number, value)
}
