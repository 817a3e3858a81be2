// The words that C gets for a refusal, and for an answer that is one number.

#![tactic(auto)]

ghost use Rattle.std.specs.Prelude.{◌≡◌, ◌<◌, ◌^◌, ℕ, [], ◌∷◌, MatchResult};
ghost use Rattle.model.specs.Refusal.{number_of, told_refusal, told, single};
ghost use Rattle.word.specs.Word.{place_bits, word};
ghost use Rattle.word.specs.Held.{Held};

use model::Refusal;

#[tactic(auto, unfolding(crate::specs::Word::word))]
pub fn refusal_word(r: Refusal) -> u64
    requires { (number_of r.fault < 256) × (r.place < 2 ^ place_bits) }
    ensures { result ≡ word [] (told_refusal r) }
{
    r.fault.number() as u64 + 256 * r.place as u64
}

// The word of an answer, by the word of its value.
pub fn answer_word<T, F: FnOnce(T) -> u64>(answer: Result<T, Refusal>, value: F) -> u64
    requires { MatchResult answer (λ x. F.pre value x) (λ r. (number_of r.fault < 256) × (r.place < 2 ^ place_bits)) }
    ensures { MatchResult answer (λ x. F.post value x result) (λ r. result ≡ word [] (told_refusal r)) }
{
    match answer {
        Ok(x) => value(x),
        Err(r) => refusal_word(r),
    }
}

// The word of a number, whatever the width of its field.
#[tactic(auto, unfolding(crate::specs::Word::word, crate::specs::Word::fields))]
pub fn size_word(answer: Result<usize, Refusal>) -> u64
    requires { Held (24 ∷ []) (told single answer) }
    ensures { (w : ℕ) → result ≡ word (w ∷ []) (told single answer) }
{
    answer_word(answer, |size| 256 * size as u64)
}
