// The coverage search over the rules of a table, one rule behind the other.
#![tactic(auto)]

ghost use Rattle.std.specs.Prelude.{◌≡◌, ◌≤◌, take};
ghost use Rattle.model.specs.Limits.{rules_most};
ghost use Rattle.coverage.specs.Search.{searched};

use coverage::{Rule, Search, met};
use model::RULES_MOST;

// The search over the rules lent.
fn search_in(rules: &[Rule], mut s: Search) -> Search
    ensures { result ≡ searched 0 rules.now s }
{
    for i in 0..rules.len() {
        s = met(s, i, rules[i]);
    }
    s
}

// The search over the first `count` rules of a table, which are lent for it.
pub fn search_among(rules: [Rule; RULES_MOST], count: usize, s: Search) -> Search
    requires { count ≤ rules_most }
    ensures { result ≡ searched 0 (take count rules) s }
{
    search_in(&rules[..count], s)
}
