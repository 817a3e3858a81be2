// The words that C gets for the answers of ask, alike and judge, case by case; the build's is `word::size_word`.

#![tactic(auto)]

ghost use Rattle.std.specs.Prelude.{◌≡◌, [], ◌∷◌};
ghost use Rattle.model.specs.Refusal.{told, flag};
ghost use Rattle.judge.specs.Judge.{judged_told};
ghost use Rattle.word.specs.Word.{word};
ghost use Rattle.word.specs.Held.{Held, JudgeHeld};

use judge::Verdict;
use model::Refusal;

// The word of a yes or no: the ask's, and alike's.
#[tactic(auto, unfolding(word::specs::Word::word, word::specs::Word::fields))]
pub fn flag_word(answer: Result<bool, Refusal>) -> u64
    requires { Held (1 ∷ []) (told flag answer) }
    ensures { result ≡ word (1 ∷ []) (told flag answer) }
{
    word::answer_word(answer, |yes| if yes { 256 } else { 0 })
}

#[tactic(auto, unfolding(word::specs::Word::word, word::specs::Word::fields))]
pub fn judged_word(judged: Result<Verdict, Refusal>) -> u64
    requires { JudgeHeld (judged_told judged) }
    ensures { result ≡ word (8 ∷ 16 ∷ 8 ∷ []) (judged_told judged) }
{
    word::answer_word(judged, |verdict| match verdict {
        Verdict::Enforces(domains) => 65536 * domains as u64,
        Verdict::Conflict { cell, logged } => {
            256 + 65536 * cell as u64 + 4294967296 * logged as u64
        }
    })
}
