// Writes the line of an answer.
ghost use Rattle.host.specs.Writes.{WritesLine};

use crate::refusal::Refusal;
use answer::Answer;
use emit::emit_answer;
use forms::can_form;

// The line's length. The form is tested first: what cannot be formed has no length that the buffer could lack.
#[tactic(auto, using(crate::proofs::Outcomes::unformed))]
pub fn write_line(answer: Answer, text: &[u8], out: &mut [u8]) -> Result<usize, Refusal>
    ensures { WritesLine answer text.now out.old result out.new }
{
    if can_form(answer, text) {
        emit_answer(answer, text, out).ok_or(Refusal::Room)
    } else {
        Err(Refusal::Form)
    }
}
