// The player: reads one job from standard input, plays it, and writes its text to standard output.
#![tactic(auto)]

ghost use Rattle.std.specs.Prelude.{◌≡◌, ◌≤◌, length, take};
ghost use Rattle.jobs.specs.Play.{longest, text_of};

use input::{large_buffer, read_all, room};
use jobs::play::play;

// The text of a file, put into room for any text: play never refuses it.
fn play_text(file: &[u8], text: &mut [u8]) -> usize
    requires { longest ≤ length text.old }
    ensures { (result ≡ length (text_of file.now)) × (result ≤ longest) × (take result text.new ≡ text_of file.now) }
{
    play(file, text).unwrap()
}

// Plays the file into the text and writes it out.
fn write_text(rt: &impl Print, file: &[u8], text: &mut [u8]) -> bool
    requires { longest ≤ length text.old }
    ensures { take (length (text_of file.now)) text.new ≡ text_of file.now }
{
    let n = play_text(file, text);
    rt.write_all(&text[0..n]).is_ok()
}

// 65,536 bytes are more than any good job has, so a file that is cut there is refused with 8, as the whole of it is. No text is longer
// than 210,000 bytes.
fn main(rt: HostRuntime) {
    let mut file = large_buffer();
    let mut text = room::<210000>();
    let Ok(count) = read_all(&rt, &mut file) else {
        let _ = rt.eprint("player: standard input cannot be read\n");
        return;
    };
    let written = write_text(&rt, &file[..count], &mut text);
    if !written {
        let _ = rt.eprint("player: standard output cannot be written\n");
    }
}
