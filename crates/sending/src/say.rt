// Words and numbers on standard output.

pub(crate) fn words(rt: &impl Print, text: &[u8]) {
    let _ = rt.write_all(text);
}

// Words, and a number behind them.
pub(crate) fn say(rt: &impl Print, text: &[u8], n: usize) {
    words(rt, text);
    let _ = rt.print(n);
}

pub(crate) fn say_refused(rt: &impl Print, n: u8) {
    say(rt, b" refused ", n as usize);
}
