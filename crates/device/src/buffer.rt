// The answer due is laid into the lent buffer with the text that goes with it, if there is room. Nothing else touches the buffer.
ghost use Rattle.std.specs.Prelude.{◌≡◌};
ghost use Rattle.emit.specs.Rooms.{emitted, laid_in};
ghost use Rattle.answer.specs.Lines.{line_of};
ghost use Rattle.device.specs.Calls.{answer_bytes};
ghost use Rattle.model.specs.Profiles.{text_of};

use answer::{Answer, I2, I3, I4, I5};
use emit::emit_answer;
use model::{Profile, Text};

// The answer with a text of the profile, by value: a profile whose text is lent would be copied whole for every answer.
fn emit_with<const N: usize>(answer: Answer, text: Text<N>, out: &mut [u8]) -> Option<usize>
    ensures value { result ≡ emitted (line_of answer (text_of text.entry)) out.old }
    ensures out_after { out.new ≡ laid_in (line_of answer (text_of text.entry)) out.old }
{
    emit_answer(answer, text.as_bytes(), out)
}

// How many bytes the answer has.
#[tactic(auto, unfolding(crate::specs::Calls::answer_bytes))]
pub fn emit_due(profile: Profile, answer: Answer, out: &mut [u8]) -> Option<usize>
    ensures value { result ≡ emitted (answer_bytes profile answer) out.old }
    ensures out_after { out.new ≡ laid_in (answer_bytes profile answer) out.old }
{
    match answer {
        Answer::Text(I2) => emit_with(answer, profile.model, out),
        Answer::Text(I3) => emit_with(answer, profile.software, out),
        Answer::Text(I4) => emit_with(answer, profile.serial, out),
        Answer::Text(I5) => emit_with(answer, profile.release, out),
        _ => emit_answer(answer, b"", out),
    }
}
