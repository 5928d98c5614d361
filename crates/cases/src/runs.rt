// The cases of the input in turn.
ghost use Rattle.std.specs.Prelude.{ℕ, ◌<◌, ◌≡◌, length};
ghost use Rattle.std.specs.List.{All};
ghost use Rattle.cases.specs.Turns.{brought, turns};

use super::{Case, data_of, next_case};

// Where the case stands that brought a sheet last: the one at a place, if it is of the kind that brings one, or else the one before.
fn brought(cases: &[u8], brings: u8, at: usize, from: usize) -> usize
    requires { at < length cases.now }
    ensures { result ≡ brought cases.now brings at from }
{
    if cases[at] == brings { at } else { from }
}

// Calls `answer` for each case in turn, with its place and with that of the case of kind `brings` that stood last, itself included; 0 before there is one. A
// note is printed as it stands, which ends the line of the case before it. No iterator: where a case ends, the case says.
pub fn run_cases<F: Fn(usize, usize)>(rt: &HostRuntime, cases: &[u8], brings: u8, answer: F)
    requires { (at from : ℕ) → at < length cases.now → F.pre answer at from }
    ensures { All (λ x. F.post answer x.0 x.1 tt) (turns cases.now brings) }
{
    let mut at: usize = 0;
    let mut from: usize = 0;
    while at < cases.len() {
        from = brought(cases, brings, at, from);
        if cases[at] == Case::NOTE {
            let _ = rt.write_all(data_of(cases, at));
        } else {
            answer(at, from);
        }
        at = next_case(cases, at);
    }
}
