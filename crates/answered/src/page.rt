// Entries of translation requests.
ghost use Rattle.std.specs.Prelude.{◌≡◌};
ghost use Rattle.image.specs.Place.{no_entry};
ghost use Rattle.translation.specs.Answers.{size_of, outcome_of, entry_of};
ghost use Rattle.translation.specs.Requests.{translated};
ghost use Rattle.answered.specs.Answered.{plain, translation_traced};

use crate::packed::width;
use crate::{Answer, asked, flag, with_fault};
use traced::Traced;
use translation::{PageSize, Rights, TranslationAnswer, TranslationRequest};

fn message(request: TranslationRequest) -> Traced
    ensures { result ≡ plain 4 request.source.id request.address 0 0 0 0 0 }
{
    let source = request.source;
    asked(4, source.id, request.address, 0)
}

// A page's frame, size and rights.
#[tactic(auto, unfolding(crate::specs::Answered::translation_traced))]
fn page(request: TranslationRequest, frame: u64, size: PageSize, rights: Rights) -> Traced
    ensures { result ≡ translation_traced request (translated frame (size_of size) rights) no_entry }
{
    let number = width(size.bytes());
    let read = flag(rights.read);
    let write = flag(rights.write);
    let e = message(request);
    Traced {
        answer: Answer::Page as u8,
        number,
        flags: read + 2 * write,
        value: frame,
        ..e
    }
}

#[tactic(auto, unfolding(crate::specs::Answered::translation_traced))]
pub fn translation_entry(request: TranslationRequest, answer: TranslationAnswer) -> Traced
    ensures { result ≡ translation_traced request (outcome_of answer) (entry_of answer) }
{
    let e = message(request);
    match answer {
        TranslationAnswer::Passed(address) => Traced {
            answer: Answer::Granted as u8,
            value: address,
            ..e
        },
        TranslationAnswer::Page(frame, size, rights) => page(request, frame, size, rights),
        TranslationAnswer::Empty => Traced {
            answer: Answer::Page as u8,
            ..e
        },
        TranslationAnswer::Blocked(fault, entry) => with_fault(e, fault, entry),
        TranslationAnswer::Refused(number) => Traced {
            answer: Answer::Refused as u8,
            number,
            ..e
        },
    }
}
