// A good job there and back: taken apart, its cycles written as text, the text read, and a job written from what was read and its
// pictures.
ghost use Rattle.std.specs.Prelude.{◌≤◌, length, IfOk};
ghost use Rattle.jobs.specs.Output.{Holds};

use input::room;
use jobs::header::{Job, read_header};
use recorder::job::write_job;
use recorder::text::{Unread, read_text, write_text};

// A good job made again: how many bytes it has in `made`. File and job stay two: a struct of them would serve two functions only.
fn made_again(
    file: &[u8],
    job: Job,
    text: &mut [u8],
    read: &mut [u8],
    made: &mut [u8],
) -> Result<usize, Unread>
    requires { Holds file.now job }
    ensures { IfOk result (λ n. n ≤ length made.new) }
{
    let end = 8 + 2 * job.cycles;
    let n = write_text(&file[8..end], text)?;
    let count = read_text(&text[..n], read)?;
    let cycles = &read[..2 * count];
    let n = write_job(job.set, cycles, job.pictures, &file[end..], made)?;
    Ok(n)
}

// Whether a good job comes back.
fn comes_back(file: &[u8], job: Job) -> bool
    requires { Holds file.now job }
{
    let mut text = room::<80000>();
    let mut read = room::<32000>();
    let mut made = room::<34384>();
    match made_again(file, job, &mut text, &mut read, &mut made) {
        Ok(n) => &made[..n] == file,
        Err(_) => false,
    }
}

// Writes `again` for a good job that comes back; one that does not, or that is not good, is told as such.
pub(crate) fn again(rt: &impl Print, file: &[u8]) {
    match read_header(file) {
        Ok(job) => {
            if comes_back(file, job) {
                let _ = rt.write_all(b"again\n");
            } else {
                let _ = rt.write_all(b"another file\n");
            }
        }
        Err(_) => {
            let _ = rt.write_all(b"no job\n");
        }
    }
}
