// How a value that goes out as it is, a number of bytes or a byte that was written, is told.
ghost use Rattle.paper.specs.Answers.{Answers, same};
ghost use Rattle.paper.specs.Told.{told};

use paper::refusal::Refusal;

// The value goes into the parameter that is lent for it.
pub fn tell_value<T: Copy>(answer: Result<T, Refusal>, out: &mut T) -> u8
    ensures { Answers (told answer) same out.old out.new result }
{
    match answer {
        Ok(value) => {
            *out = value;
            0
        }
        Err(refusal) => refusal.into(),
    }
}
