// Document 01's words for each row of the table, E2's with order 5's.

pub(crate) fn put(rt: &impl Print, text: &[u8]) -> bool {
    rt.write_all(text).is_ok()
}

// What the bytes of a class do.
pub(crate) fn write_words(rt: &impl Print, class: u8) -> bool {
    match class {
        1 => put(rt, b"low four bits of column"),
        2 => put(rt, b"high four bits of column"),
        3 => put(rt, b"resistor"),
        4 => put(rt, b"power"),
        5 => put(rt, b"start line"),
        6 => put(rt, b"next instruction byte mod 64 is contrast"),
        7 => put(rt, b"ADC"),
        8 => put(rt, b"bias"),
        9 => put(rt, b"entire display"),
        10 => put(rt, b"reverse"),
        11 => put(rt, b"indicator off"),
        12 => put(
            rt,
            b"indicator on; next instruction byte mod 4 is its value",
        ),
        13 => put(rt, b"display off, on"),
        14 => put(rt, b"page"),
        15 => put(rt, b"SHL is bit 3; bits 0-2 free"),
        16 => put(rt, b"modify-read on, saving the column"),
        17 => put(rt, b"modify-read off, restoring the column"),
        18 => put(
            rt,
            b"reset: start line, column, page and SHL to 0; the saved column forgotten; the indicator off and its value 0; resistor and contrast to their start values; nothing else",
        ),
        19 => put(rt, b"nothing"),
        _ => put(rt, b"unassigned"),
    }
}
