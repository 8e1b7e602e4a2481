// Words and numbers on standard output.
use paper::refusal::Refusal;

pub(crate) fn word(rt: &impl Print, text: &[u8]) {
    let _ = rt.write_all(text);
}

// A space and a number.
pub(crate) fn number(rt: &impl Print, n: usize) {
    let _ = rt.write_all(b" ");
    let _ = rt.print(n);
}

pub(crate) fn byte(rt: &impl Print, n: u8) {
    number(rt, n as usize);
}

// A cycle as its two bytes in a job file, in hex.
pub(crate) fn pair(rt: &impl Print, kind: u8, value: u8) {
    let _ = print!(rt; "{kind:02x}");
    let _ = rt.write_all(b" ");
    let _ = print!(rt; "{value:02x}");
}

// A space and a 0 or 1.
pub(crate) fn flag(rt: &impl Print, on: bool) {
    number(rt, on as usize);
}

pub(crate) fn line(rt: &impl Print) {
    let _ = rt.write_all(b"\n");
}

// A word and a number.
pub(crate) fn told(rt: &impl Print, text: &[u8], n: u8) {
    word(rt, text);
    byte(rt, n);
}

pub(crate) fn refused(rt: &impl Print, refusal: Refusal) {
    told(rt, b" refused", refusal.into());
}
