// The soundness of a table of permitted senders: each ordered pair of boards is in exactly one rule.
#![tactic(auto)]

ghost use Rattle.std.specs.Prelude.{◌≡◌, true, ◌≤◌, ◌<◌, take};
ghost use Rattle.model.specs.Limits.{boards, rules_most};
ghost use Rattle.model.specs.Senders.{pair_of, rules_with, is_faulty, fault_of, soundness_of, TableJudged};
ghost use Rattle.model.specs.Bounded.{lowest};
ghost use Rattle.outcome.specs.Options.{found_in};
ghost use Rattle.coverage.specs.Rules.{rules_as};
ghost use Rattle.senders.specs.Judgement.{judgement_as, numbers_for, is_fault};

use coverage::Rule;
use model::{BOARDS, RULES_MOST};
use outcome::Refusal;

// Sound; or the lowest faulty pair: a gap, in no rule, or a clash, with the lines of its first two rules.
#[derive(Clone, Copy)]
pub enum Judgement {
    Sound,
    Gap(usize),
    Clash(usize, usize, usize),
}

// The judgement of any table, or its refusal.
pub fn check_senders(table: &[u8]) -> Result<Judgement, Refusal>
    ensures { TableJudged table.now (numbers_for result) }
{
    // Not a `?`: the edits another_refusal and bad_line_not_reported change what is handed on here.
    match sender_table::read_table(table) {
        Ok(read) => Ok(judge(read.rules, read.count)),
        Err(refusal) => Err(refusal),
    }
}

// The judgement of the first `count` rules: sender by sender, the lowest faulty pair.
pub fn judge(rules: [Rule; RULES_MOST], count: usize) -> Judgement
    requires { count ≤ rules_most }
    ensures { judgement_as result ≡ soundness_of (rules_as (take count rules)) }
{
    for sender in 0..BOARDS {
        let met = rule_search::search_among(rules, count, coverage::begin(sender, 0));
        if let Some(receiver) = faulty_receiver(met.once, met.twice) {
            return fault(rules, count, sender, receiver);
        }
    }
    Judgement::Sound
}

// The lowest receiver that is in no rule or in two or more.
fn faulty_receiver(once: u16, twice: u16) -> Option<usize>
    ensures { found_in result ≡ lowest boards (is_fault once twice) }
{
    if once == model::SET_MOST as u16 && twice == 0 {
        return None;
    }
    for receiver in 0..BOARDS {
        if is_fault(once, twice, receiver) {
            return Some(receiver);
        }
    }
    None
}

// The receiver is in no rule or in two or more.
fn is_fault(once: u16, twice: u16, receiver: usize) -> bool
    ensures { result ≡ is_fault once twice receiver }
{
    !board_set::in_set(once, receiver) || board_set::in_set(twice, receiver)
}

// A faulty pair, with the lines of its first two rules where it is in two or more.
fn fault(rules: [Rule; RULES_MOST], count: usize, sender: usize, receiver: usize) -> Judgement
    requires count_le_rules_most { (count ≤ rules_most) × (sender < boards) × (receiver < boards) }
    requires receiver_value { is_faulty (rules_as (take count rules)) (pair_of sender receiver) ≡ true }
    ensures { judgement_as result ≡ fault_of (pair_of sender receiver) (rules_with (pair_of sender receiver) 0 (rules_as (take count rules))) }
{
    let met = rule_search::search_among(rules, count, coverage::begin(sender, receiver));
    let pair = BOARDS * sender + receiver;
    if met.first == 0 {
        Judgement::Gap(pair)
    } else {
        Judgement::Clash(pair, met.first, met.second)
    }
}
