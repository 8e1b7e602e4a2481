// The table of the 256 instruction bytes.
ghost use Rattle.instructions.specs.Class.{IsTable, IsClass};

// Numbers, and 0 for none: document 01 names this table, and `class_of` promises its numbers (`IsClass`).
// The class of each byte: its row of document 01's table, or 0 where the byte is unassigned. A row's first and last byte stand
// beside their entries.
const CLASSES: [u8; 256] = [
    1, // 00
    1, 1, 1, 1, 1, 1, 1, 1, 1, 1, 1, 1, 1, 1, 1, // 0f
    2, // 10
    2, 2, 2, 2, 2, 2, 2, 2, 2, 2, 2, 2, 2, 2, 2, // 1f
    3, // 20
    3, 3, 3, 3, 3, 3, 3, // 27
    4, // 28
    4, 4, 4, 4, 4, 4, 4, // 2f
    0, // 30
    0, 0, 0, 0, 0, 0, 0, 0, 0, 0, 0, 0, 0, 0, 0, // 3f
    5, // 40
    5, 5, 5, 5, 5, 5, 5, 5, 5, 5, 5, 5, 5, 5, 5, 5, 5, 5, 5, 5, 5, 5, 5, 5, 5, 5, 5, 5, 5, 5, 5, 5,
    5, 5, 5, 5, 5, 5, 5, 5, 5, 5, 5, 5, 5, 5, 5, 5, 5, 5, 5, 5, 5, 5, 5, 5, 5, 5, 5, 5, 5, 5, 5, // 7f
    0, // 80
    6, // 81
    0, // 82
    0, 0, 0, 0, 0, 0, 0, 0, 0, 0, 0, 0, 0, 0, 0, 0, 0, 0, 0, 0, 0, 0, 0, 0, 0, 0, 0, 0, 0, // 9f
    7, // a0
    7, // a1
    8, // a2
    8, // a3
    9, // a4
    9, // a5
    10, // a6
    10, // a7
    0, // a8
    0, 0, 0, // ab
    11, // ac
    12, // ad
    13, // ae
    13, // af
    14, // b0
    14, 14, 14, 14, 14, 14, 14, 14, 14, 14, 14, 14, 14, 14, 14, // bf
    15, // c0
    15, 15, 15, 15, 15, 15, 15, 15, 15, 15, 15, 15, 15, 15, 15, // cf
    0, // d0
    0, 0, 0, 0, 0, 0, 0, 0, 0, 0, 0, 0, 0, 0, 0, // df
    16, // e0
    0, // e1
    18, // e2
    19, // e3
    0, // e4
    0, 0, 0, 0, 0, 0, 0, 0, 0, // ed
    17, // ee
    0, // ef
    0, 0, 0, 0, 0, 0, 0, 0, 0, 0, 0, 0, 0, 0, 0, 0, // ff
];

// The whole table. Its rule is shown here, for all entries at once.
fn classes() -> [u8; 256]
    ensures { IsTable result }
{
    CLASSES
}

// The class of a byte where nothing is awaited. Refuses nothing.
pub fn class_of(byte: u8) -> u8
    ensures { IsClass byte result }
{
    let table = classes();
    table[byte as usize]
}
