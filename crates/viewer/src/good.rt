// A good job file. The views of it stand in modules of their own.
ghost use Rattle.std.specs.Prelude.{◌≡◌, ◌*◌, take, drop};
ghost use Rattle.paper.specs.Told.{given};
ghost use Rattle.jobs.specs.Header.{header_of};
ghost use Rattle.jobs.specs.Output.{Holds};

use jobs::header::Job;

// A file with the good job that it is.
#[derive(Drop)]
pub(crate) struct Good<'a> {
    pub(crate) file: &'a [u8],
    pub(crate) job: Job,
    ghost whole: { Holds file.now job },
    ghost read: { header_of file.now ≡ given job },
}

impl<'a> Good<'a> {
    // The bytes of its cycles.
    pub(crate) fn cycles(&self) -> &[u8]
        ensures { result.now ≡ take (2 * self.now.job.cycles) (drop 8 self.now.file.now) }
    {
        let end = 8 + 2 * self.job.cycles;
        &self.file[8..end]
    }
}
