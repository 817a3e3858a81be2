// The line of a refusal, put down at the start of a buffer.

#![tactic(auto)]

ghost use Rattle.std.specs.Prelude.{◌≡◌, ◌≤◌, ◌<◌, length};
ghost use Rattle.model.specs.Refusal.{number_of, over};
ghost use Rattle.woven.specs.Weave.{refusal_text};

use model::Refusal;
use writers::Writer;

// The line of a refusal, and its length.
pub fn put_refusal(r: Refusal, output: &mut [u8]) -> usize
    requires { (number_of r.fault < 100) × (r.place < 100000) × (10 ≤ length output.old) }
    ensures value { result ≡ length (refusal_text r) }
    ensures output_after { output.new ≡ over (refusal_text r) output.old }
{
    let place = r.place;
    let mut out = Writer::new(output);
    out.put(b"NO");
    out.put_number(r.fault.number());
    out.put_digit(place / 10000);
    out.put_number(place / 100 % 100);
    out.put_number(place % 100);
    out.put(b"\n");
    out.at
}
