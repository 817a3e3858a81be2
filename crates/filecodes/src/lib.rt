// The words that C gets for the answers of the reads of files, case by case.

#![tactic(auto)]

ghost use Rattle.std.specs.Prelude.{◌≡◌, [], ◌∷◌};
ghost use Rattle.files.specs.Read.{read_matrix_told, read_policy_told};
ghost use Rattle.word.specs.Word.{word};
ghost use Rattle.word.specs.Held.{Held};

use model::Refusal;
use places::{MatrixSizes, PolicySizes};

#[tactic(auto, unfolding(word::specs::Word::word, word::specs::Word::fields))]
pub fn read_matrix_word(read: Result<MatrixSizes, Refusal>) -> u64
    requires { Held (8 ∷ 8 ∷ []) (read_matrix_told read) }
    ensures { result ≡ word (8 ∷ 8 ∷ []) (read_matrix_told read) }
{
    word::answer_word(read, |z| 256 * z.n as u64 + 65536 * z.k as u64)
}

#[tactic(auto, unfolding(word::specs::Word::word, word::specs::Word::fields))]
pub fn read_policy_word(read: Result<PolicySizes, Refusal>) -> u64
    requires { Held (8 ∷ 8 ∷ 8 ∷ []) (read_policy_told read) }
    ensures { result ≡ word (8 ∷ 8 ∷ 8 ∷ []) (read_policy_told read) }
{
    word::answer_word(read, |z| {
        256 * z.n as u64 + 65536 * z.k as u64 + 16777216 * z.d as u64
    })
}
