// The cycles of a job in the text form.
ghost use Rattle.std.specs.Prelude.{◌≡◌, ◌≤◌, length, take};
ghost use Rattle.recorder.specs.Text.{cycles_text};
ghost use Rattle.recorder.specs.Job.{file_cycles};

use crate::good::Good;
use input::room;
use recorder::text::write_text;

impl<'a> Good<'a> {
    // The text of its cycles, put into room for any, which is never refused: answers its length.
    fn put_text(&self, out: &mut [u8]) -> usize
        requires { 80000 ≤ length out.old }
        ensures { (result ≤ length out.new) × (take result out.new ≡ cycles_text (file_cycles self.now.file.now self.now.job)) }
    {
        write_text(self.cycles(), out).unwrap()
    }

    // Writes the text, and answers whether it could be written.
    pub(crate) fn text(&self, rt: &impl Print) -> bool {
        let mut out = room::<80000>();
        let n = self.put_text(&mut out);
        rt.write_all(&out[0..n]).is_ok()
    }
}
