// Refusals are made here and nowhere else: the tests of numbers, in groups that each call joins in its own order.

#![tactic(auto)]

ghost use Rattle.std.specs.Prelude.{◌≡◌, ◌*◌, ◌≤◌, ◌<◌};
ghost use Rattle.model.specs.Matrix.{cell_at};
ghost use Rattle.model.specs.Refusal.{refusal, cell_refusal, checked};
ghost use Rattle.model.specs.Rules.{size_rules, request_rules, pair_rules, room_rules};

use model::{Fault, Refusal};

// A refusal that names no cell.
#[tactic(auto, unfolding(model::specs::Refusal::refusal))]
pub fn refuse(fault: Fault, place: usize) -> Refusal
    ensures { result ≡ refusal fault place }
{
    Refusal { fault, place }
}

// A refusal that names a cell, among k rights and y receivers: `cell_refusal` has both from the start, for the fields that are to come.
#[tactic(auto, unfolding(model::specs::Refusal::cell_refusal))]
pub fn refuse_cell(fault: Fault, k: usize, y: usize, cell: usize) -> Refusal
    ensures { result ≡ cell_refusal fault k y cell }
{
    Refusal { fault, place: cell }
}

// Where cell (p, a, q) stands among x senders, k rights and y receivers.
pub fn cell_at(x: usize, k: usize, y: usize, p: usize, a: usize, q: usize) -> usize
    requires { (x ≤ 64) × (k ≤ 8) × (y ≤ 64) × (p < x) × (a < k) × (q < y) }
    ensures { (result ≡ cell_at k y p a q) × (result < x * k * y) }
{
    (p * k + a) * y + q
}

// 1: n above 64; k 0 or above 8; d above 64. The place is the number's, and a call that has no d passes 0, as `size_rules` and `whole_rules` have it.
#[tactic(auto, using(model::proofs::Groups::tests), unfolding(model::specs::Rules::size_rules))]
pub fn sizes(n: usize, k: usize, d: usize) -> Result<(), Refusal>
    ensures { result ≡ checked (size_rules n k d) }
{
    if 64 < n {
        return Err(refuse(Fault::Limit, 0));
    }
    if k == 0 {
        return Err(refuse(Fault::Limit, 1));
    }
    if 8 < k {
        return Err(refuse(Fault::Limit, 1));
    }
    if 64 < d {
        return Err(refuse(Fault::Limit, 2));
    }
    Ok(())
}

// 9 for a request: sender, right, receiver.
#[tactic(auto, using(model::proofs::Groups::tests), unfolding(model::specs::Rules::request_rules))]
pub fn request_fits(n: usize, k: usize, u: usize, a: usize, v: usize) -> Result<(), Refusal>
    ensures { result ≡ checked (request_rules n k u a v) }
{
    if n <= u {
        return Err(refuse(Fault::OutOfRange, 0));
    }
    if k <= a {
        return Err(refuse(Fault::OutOfRange, 1));
    }
    if n <= v {
        return Err(refuse(Fault::OutOfRange, 2));
    }
    Ok(())
}

// 9 for two entities.
#[tactic(auto, using(model::proofs::Groups::tests), unfolding(model::specs::Rules::pair_rules))]
pub fn pair_fits(n: usize, u: usize, v: usize) -> Result<(), Refusal>
    ensures { result ≡ checked (pair_rules n u v) }
{
    if n <= u {
        return Err(refuse(Fault::OutOfRange, 0));
    }
    if n <= v {
        return Err(refuse(Fault::OutOfRange, 1));
    }
    Ok(())
}

// 10 and 11: a buffer of `have` bytes where `need` are to be written.
#[tactic(auto, using(model::proofs::Groups::tests), unfolding(model::specs::Rules::room_rules))]
pub fn room_fits(fault: Fault, have: usize, need: usize) -> Result<(), Refusal>
    ensures { result ≡ checked (room_rules fault have need) }
{
    if have < need {
        return Err(refuse(fault, need));
    }
    Ok(())
}
