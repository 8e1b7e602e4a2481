// What is said on standard error: one line, with the number of a refusal, what it is about and what to do.

fn err(rt: &HostRuntime, words: &[u8]) {
    let _ = rt.stderr().write_all(words);
}

pub(crate) fn usage(rt: &HostRuntime) {
    err(
        rt,
        b"usage: record [PICTURE [PICTURE]] < text > job, or record --new [PICTURE] < text > job\n",
    );
}

pub(crate) fn no_input(rt: &HostRuntime) {
    err(rt, b"record: standard input cannot be read\n");
}

pub(crate) fn no_output(rt: &HostRuntime) {
    err(rt, b"record: standard output cannot be written\n");
}

pub(crate) fn no_file(rt: &HostRuntime, name: &[u8]) {
    err(rt, b"record: ");
    err(rt, name);
    err(rt, b" cannot be read\n");
}

pub(crate) fn no_picture(rt: &HostRuntime, name: &[u8]) {
    err(rt, b"record: refused with 1: ");
    err(rt, name);
    err(
        rt,
        b" is no picture, which has 1,188 bytes, 9 pages of 132 columns\n",
    );
}

pub(crate) fn bad_line(rt: &HostRuntime, line: usize) {
    err(rt, b"record: refused with 11: line ");
    let _ = rt.eprint(line);
    err(
        rt,
        b", counted from 0, is no cycle: write i or d, one space and two of 0-9 a-f, or s, r, l or h alone, and end it with a newline\n",
    );
}

pub(crate) fn too_many(rt: &HostRuntime) {
    err(
        rt,
        b"record: refused with 6: the text has more than 16,000 cycles, and a job has at most 16,000: split it\n",
    );
}

pub(crate) fn too_long(rt: &HostRuntime) {
    err(
        rt,
        b"record: the text has more than 200,000 bytes, and that of 16,000 cycles, the most a job has, at most 80,000: split it\n",
    );
}
