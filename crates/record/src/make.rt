// A job file, made from a text and pictures.
ghost use Rattle.std.specs.Prelude.{◌≤◌, length};
ghost use Rattle.record.specs.Made.{FullRoom, IsMade};

use instructions::added::CommandSet;
use recorder::job::write_job;
use recorder::text::{Unread, read_text};

// Makes the job file, and answers its length. The rooms are for any text that has a job, so nothing but the text is refused: with its
// first bad line, or with 6 where its cycles are too many.
pub(crate) fn make_job(
    set: CommandSet,
    text: &[u8],
    count: usize,
    pictures: &[u8],
    cycles: &mut [u8],
    job: &mut [u8],
) -> Result<usize, Unread>
    requires { FullRoom set count pictures.now job.old × (32000 ≤ length cycles.old) }
    ensures { IsMade set text.now count pictures.now result job.new }
{
    let n = read_text(text, cycles)?;
    Ok(write_job(set, &cycles[..2 * n], count, pictures, job)?)
}
