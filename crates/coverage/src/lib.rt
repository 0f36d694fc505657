// The coverage search, a rule at a time: which pairs of boards the rules of a table of permitted senders are about, and which rules one pair
// is in.
#![tactic(auto)]

ghost use Rattle.std.specs.Prelude.{◌≡◌, ◌+◌, ◌^◌, ◌<◌};
ghost use Rattle.coverage.specs.Search.{begun, joined_by, noted_by, met_by};

use board_set::{in_set, is_covered};

// A rule: the boards that may send, or may not, to the boards of the other set. Bit k of a set is board k.
#[derive(Clone, Copy)]
pub struct Rule {
    pub from: u16,
    pub to: u16,
    pub verdict: u8,
}

// What a search over the rules has met, for one sender: the receivers that are in some rule with it, and those in two or more; and the lines
// of the first two rules that the sender and the one receiver are in. Line 0 is no rule's.
#[derive(Clone, Copy)]
pub struct Search {
    pub sender: usize,
    pub receiver: usize,
    pub once: u16,
    pub twice: u16,
    pub first: usize,
    pub second: usize,
}

// A search for a sender and a receiver, ahead of the first rule.
pub fn begin(sender: usize, receiver: usize) -> Search
    ensures { result ≡ begun sender receiver }
{
    Search {
        sender,
        receiver,
        once: 0,
        twice: 0,
        first: 0,
        second: 0,
    }
}

// The receivers that the rule of these two sets adds.
fn joined(mut s: Search, from: u16, to: u16) -> Search
    ensures { result ≡ joined_by s from to }
{
    if in_set(from, s.sender) {
        s.twice = s.twice | (s.once & to);
        s.once = s.once | to;
    }
    s
}

// A rule with the pair, at the given line, is noted if it is one of the first two.
fn noted(mut s: Search, line: usize) -> Search
    ensures { result ≡ noted_by s line }
{
    if s.first == 0 {
        s.first = line;
        return s;
    }
    if s.second == 0 {
        s.second = line;
    }
    s
}

// The search behind the rule with the given number, from 0; rule 0 stands at line 2. Most rules of a table are without the sender: one test
// passes them.
pub fn met(s: Search, number: usize, rule: Rule) -> Search
    requires { number + 2 < 2 ^ 64 }
    ensures { result ≡ met_by s number rule }
{
    if !in_set(rule.from, s.sender) {
        return s;
    }
    let t = joined(s, rule.from, rule.to);
    if is_covered(rule.from, rule.to, s.sender, s.receiver) {
        noted(t, number + model::FIRST_LINE)
    } else {
        t
    }
}
