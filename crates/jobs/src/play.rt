// Playing a job: the whole text, put into a lent output.
ghost use Rattle.std.specs.Prelude.{◌≡◌, ◌+◌, ◌*◌, ◌<◌, ◌≤◌, length};
ghost use Rattle.controller.specs.Cycle.{outcome};
ghost use Rattle.controller.specs.State.{state};
ghost use Rattle.streams.specs.Length.{update_length};
ghost use Rattle.jobs.specs.Header.{picture2};
ghost use Rattle.jobs.specs.Play.{line_of, ending, text_from, power_up, text_of, IsPlayed};
ghost use Rattle.jobs.specs.Output.{Put, Holds, line_most, lines_most, ending_most, text_most};
ghost use Rattle.jobs.specs.Texts.{Puts, Turned, line_by_kind};

use crate::header::{Job, read_header};
use crate::memory::start_memory;
use crate::text::Text;
use controller::cycle::{Answer, cycle};
use controller::turn::registers_after;
use paper::refusal::Refusal;
use paper::sheet::Ks0713;
use planner::length::update_length;
use registers::Registers;
use registers::start::power_up_in;

// A file with the good job that it is.
#[derive(Drop)]
struct Good<'a> {
    file: &'a [u8],
    job: Job,
    ghost whole: { Holds file.now job },
}

impl<'a> Text<'a> {
    // A cycle's line, where it has one: that of its refusal, or of the byte that it read, with the mark where that is a data read's.
    #[tactic(auto, unfolding(crate::specs::Play::line_of))]
    fn answer(&mut self, i: usize, answer: Result<Answer, Refusal>)
        requires { self.old.at + line_most ≤ text_most }
        ensures { Puts self.old (line_of i (outcome answer)) self.new line_most }
    {
        match answer {
            Ok(Answer::Done(_)) => (),
            Ok(Answer::Status(byte)) => self.read(i, byte),
            Ok(Answer::Read(_, byte, fresh)) => self.data_read(i, byte, fresh),
            Err(refusal) => self.refusal(i, refusal.into()),
        }
    }
}

impl<'a> Good<'a> {
    // One cycle, with its line.
    fn turn(&self, i: usize, registers: Registers, memory: &mut [u8], text: &mut Text) -> Registers
        requires { (i < self.now.job.cycles) × (text.old.at + line_most ≤ text_most) }
        ensures turned { Turned self.now.file.now i (state registers memory.old) text.old (state result memory.new) text.new }
        ensures by_kind { Puts text.old (line_by_kind self.now.file.now i (state registers memory.old)) text.new line_most }
    {
        let file = self.file;
        let answer = cycle::<Ks0713>(registers, memory, file[8 + 2 * i], file[9 + 2 * i]);
        text.answer(i, answer);
        registers_after(registers, answer)
    }

    // Picture 2.
    fn picture2(&self) -> &'a [u8]
        requires { 2 ≤ self.now.job.pictures }
        ensures { result.now ≡ picture2 self.now.file.now self.now.job.cycles }
    {
        let from = 8 + 2 * self.job.cycles + 1188;
        let to = from + 1188;
        &self.file[from..to]
    }

    // How many bytes the update to picture 2 has.
    fn wanted_length(&self, memory: &[u8]) -> usize
        requires { (2 ≤ self.now.job.pictures) × (length memory.now ≡ 1188) }
        ensures { result ≡ update_length 132 memory.now (picture2 self.now.file.now self.now.job.cycles) }
    {
        update_length::<Ks0713>(memory, self.picture2()).unwrap()
    }

    // The last lines.
    fn finish(&self, registers: Registers, memory: &[u8], text: &mut Text)
        requires { (length memory.now ≡ 1188) × (text.old.at ≤ lines_most) }
        ensures { Puts text.old (ending self.now.file.now self.now.job (state registers memory.now)) text.new ending_most }
    {
        text.end(registers);
        if self.job.pictures >= 2 {
            text.update(self.wanted_length(memory));
        }
    }

    // The whole text: all the cycles, from power-up in the job's command set, and the ending.
    fn play(&self, text: &mut Text)
        requires { text.old.at ≡ 0 }
        ensures { Puts text.old (text_from self.now.file.now self.now.job (power_up self.now.file.now self.now.job) 0 self.now.job.cycles)
            text.new text_most }
    {
        let mut memory = start_memory(self.file, self.job);
        let mut registers = power_up_in::<Ks0713>(self.job.set);
        for i in 0..self.job.cycles {
            registers = self.turn(i, registers, &mut memory, text);
        }
        self.finish(registers, &memory, text);
    }
}

impl<'a> Text<'a> {
    // The text of any file.
    fn file(&mut self, file: &[u8])
        requires { self.old.at ≡ 0 }
        ensures { Puts self.old (text_of file.now) self.new text_most }
    {
        match read_header(file) {
            Ok(job) => Good { file, job }.play(self),
            Err(refusal) => self.bad(refusal.into()),
        }
    }
}

// As much of a file's text as the output has room for: answers its whole length.
fn put_text(file: &[u8], out: &mut [u8]) -> usize
    ensures { Put out.old 0 (text_of file.now) out.new result text_most }
{
    let mut text = Text { out, at: 0 };
    text.file(file);
    text.at
}

// Plays a job file from power-up and puts its whole text into the output. Answers the text's length; refuses with 5 where the
// output is shorter, and then leaves it as it was. A longer output keeps its bytes past the text.
pub fn play(file: &[u8], out: &mut [u8]) -> Result<usize, Refusal>
    ensures { IsPlayed file.now out.old result out.new }
{
    let n = put_text(file, &mut []);
    if n <= out.len() {
        put_text(file, out);
        return Ok(n);
    }
    Err(Refusal::ShortOutput)
}
